//! Readers of texts where a request for memory is refused. With memory these show the usual
//! answers; `rt try --test --fail-alloc N` refuses the request of that number.
use gs_body::BodyReader;
use gs_iri::resolve;
use gs_lex::{Lexer, Token, TokenKind};
use gs_model::Refusal;
use gs_ntread::NTriplesReader;
use gs_triple_lists::TripleList;
use std::test::Fail;

/// Feeds a piece, and again where memory is refused. Whether nothing had changed then.
fn feed_again(lexer: &mut Lexer, piece: &str, tokens: &mut Vec<Token>) -> Result<bool, Refusal> {
    let before = tokens.len();
    let fed = lexer.feed(piece.as_bytes(), tokens);
    if fed != Err(Refusal::NoMemory) {
        fed?;
        return Ok(true);
    }
    let is_same = tokens.len() == before;
    lexer.feed(piece.as_bytes(), tokens)?;
    Ok(is_same)
}

/// Ends the text; the same holds.
fn finish_again(lexer: &mut Lexer, tokens: &mut Vec<Token>) -> Result<bool, Refusal> {
    let before = tokens.len();
    let ended = lexer.finish(tokens);
    if ended != Err(Refusal::NoMemory) {
        ended?;
        return Ok(true);
    }
    let is_same = tokens.len() == before;
    lexer.finish(tokens)?;
    Ok(is_same)
}

/// Feeds pieces and ends the text.
fn read_again(
    lexer: &mut Lexer,
    pieces: &[&str],
    tokens: &mut Vec<Token>,
) -> Result<bool, Refusal> {
    for piece in pieces {
        if !feed_again(lexer, piece, tokens)? {
            return Ok(false);
        }
    }
    finish_again(lexer, tokens)
}

/// The kinds of the tokens of the pieces below.
const KINDS: [TokenKind; 10] = [
    TokenKind::IriRef,
    TokenKind::PnameLn,
    TokenKind::StringLiteralQuote,
    TokenKind::LangTag,
    TokenKind::Dot,
    TokenKind::A,
    TokenKind::Dot,
    TokenKind::A,
    TokenKind::Dot,
    TokenKind::A,
];

/// Whether tokens have exactly these kinds.
fn have_kinds(tokens: &[Token], kinds: &[TokenKind]) -> bool {
    for (token, kind) in tokens.iter().zip(kinds) {
        if token.kind != *kind {
            return false;
        }
    }
    tokens.len() == kinds.len()
}

#[test]
fn a_refused_piece_of_tokens_changes_nothing(rt: HostRuntime) -> Result<(), Fail> {
    let mut lexer = Lexer::new(rt.alloc(), false);
    let mut tokens = Vec::new(rt.alloc());
    let pieces = ["<http://e/a> ex:a.", "b \"x\\u00", "e9\"@en . a.a.a"];
    let is_read = read_again(&mut lexer, &pieces, &mut tokens);
    let are_right = have_kinds(tokens.as_slice(), &KINDS);
    drop(tokens);
    drop(lexer);
    assert!(rt; is_read? && are_right);
    Ok(())
}

/// Writes a text into a string, and a reference after it. Whether a refused reference leaves the string
/// as it was.
fn resolve_again(text: &mut String) -> Result<bool, Refusal> {
    if text.push_str("before ").is_err() {
        text.push_str("before ")?;
    }
    let base = "http://a/b/c/d;p?q";
    let reference = "../g;x=1/../a-longer-segment-than-any-room/./y#z";
    let resolved = resolve(base, reference, text);
    if resolved != Err(Refusal::NoMemory) {
        resolved?;
        return Ok(true);
    }
    let is_same = text.as_str() == "before ";
    resolve(base, reference, text)?;
    Ok(is_same)
}

#[test]
fn a_refused_reference_leaves_the_string(rt: HostRuntime) -> Result<(), Fail> {
    let mut text = String::new(rt.alloc());
    assert!(rt; resolve_again(&mut text)?);
    let wanted = "before http://a/b/a-longer-segment-than-any-room/y#z";
    assert_eq!(rt; text.as_str(), wanted);
    Ok(())
}

/// Whether a refused call has left the list as it was, and closed the reader.
fn is_closed(reader: &mut NTriplesReader, triples: &mut TripleList, before: usize) -> bool {
    triples.len() == before
        && reader.feed(b"", triples) == Err(Refusal::Closed)
        && reader.finish(triples) == Err(Refusal::Closed)
}

/// Feeds a piece: whether it is read. `None` says that it was refused otherwise than for memory, or did
/// not leave the list as it was and close the reader.
fn feed(reader: &mut NTriplesReader, piece: &str, triples: &mut TripleList) -> Option<bool> {
    let before = triples.len();
    match reader.feed(piece.as_bytes(), triples) {
        Ok(()) => Some(true),
        Err(Refusal::NoMemory) if is_closed(reader, triples, before) => Some(false),
        Err(_) => None,
    }
}

/// Feeds pieces up to the first one that is refused, and says the same of all.
fn feed_all(
    reader: &mut NTriplesReader,
    pieces: &[&str],
    triples: &mut TripleList,
) -> Option<bool> {
    for piece in pieces {
        if !feed(reader, piece, triples)? {
            return Some(false);
        }
    }
    Some(true)
}

/// Whether three triples are read, or a piece is refused as it must be.
fn is_right(reader: &mut NTriplesReader, triples: &mut TripleList) -> Result<bool, Refusal> {
    let pieces = [
        "_:a <a:b> <a:",
        "c> .\n<a:b> <a:b> \"x\"@EN",
        " .\n_:b <a:b> _:a .\n",
    ];
    match feed_all(reader, &pieces, triples) {
        Some(true) => {
            reader.finish(triples)?;
            Ok(triples.len() == 3)
        }
        Some(false) => Ok(true),
        None => Ok(false),
    }
}

#[test]
fn a_refused_feed_leaves_the_list_and_closes_the_reader(rt: HostRuntime) -> Result<(), Fail> {
    let mut reader = NTriplesReader::new(rt.alloc(), 1);
    let mut triples = TripleList::new(rt.alloc());
    let is_right = is_right(&mut reader, &mut triples);
    drop(triples);
    drop(reader);
    assert!(rt; is_right?);
    Ok(())
}
