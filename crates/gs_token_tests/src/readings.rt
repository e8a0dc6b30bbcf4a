//! A text read in pieces of any size, and whole.
ghost use Rattle.std.specs.Prelude.{◌<◌};

use gs_lex::{Advance, Lexer, Next, PieceLexer, TextLexer, Token, TokenKind};
use gs_model::Refusal;
use std::alloc::{AllocError, Global};

/// How a text is read.
#[derive(Clone, Copy)]
enum Way {
    /// By `TextLexer`, whole.
    Whole,
    /// By `Lexer`, in pieces of so many bytes.
    Fed(usize),
    /// By `PieceLexer`, in pieces of so many bytes.
    Held(usize),
    /// By `Lexer`, which is not told that the text has ended: how many tokens it gives.
    Settled,
}

const WAYS: [Way; 9] = [
    Way::Whole,
    Way::Fed(1000),
    Way::Held(1000),
    Way::Fed(1),
    Way::Held(1),
    Way::Fed(2),
    Way::Held(2),
    Way::Fed(3),
    Way::Held(3),
];

/// Writes the name of a kind, and a space.
fn write_name(names: &mut String, kind: TokenKind) -> Result<(), AllocError> {
    write!(names, "{kind:?} ")
}

/// The same of each token.
fn write_names(tokens: &[Token], names: &mut String) -> Result<(), Refusal> {
    for token in tokens {
        write_name(names, token.kind)?;
    }
    Ok(())
}

/// Feeds a text in pieces of so many bytes, and ends it.
fn feed_all(
    lexer: &mut Lexer,
    text: &[u8],
    size: usize,
    tokens: &mut Vec<Token>,
) -> Result<(), Refusal>
    requires { 0 < size }
{
    for piece in text.chunks(size) {
        lexer.feed(piece, tokens)?;
    }
    lexer.finish(tokens)
}

/// Writes the names of the tokens of a text, which a lexer is fed.
fn write_fed(
    alloc: Global,
    updates: bool,
    text: &[u8],
    size: usize,
    names: &mut String,
) -> Result<(), Refusal>
    requires { 0 < size }
{
    let mut lexer = Lexer::new(alloc, updates);
    let mut tokens = Vec::new(alloc);
    let fed = feed_all(&mut lexer, text, size, &mut tokens);
    drop(lexer);
    let written = write_names(tokens.as_slice(), names);
    drop(tokens);
    fed.and(written)
}

/// Writes how many tokens a lexer gives of a text that has not ended.
fn write_settled(
    alloc: Global,
    updates: bool,
    text: &[u8],
    names: &mut String,
) -> Result<(), Refusal> {
    let mut lexer = Lexer::new(alloc, updates);
    let mut tokens = Vec::new(alloc);
    let fed = lexer.feed(text, &mut tokens);
    drop(lexer);
    let count = tokens.len();
    drop(tokens);
    fed?;
    write!(names, "{count} ")?;
    Ok(())
}

/// Writes the names of the tokens that a lexer has for now, or to the end of the text.
fn write_ahead(
    lexer: &mut PieceLexer,
    is_end: bool,
    most: usize,
    names: &mut String,
) -> Result<(), Refusal> {
    // no text has more tokens than bytes
    for _ in 0..most {
        match lexer.advance(is_end) {
            Advance::Token => write_name(names, lexer.token().kind)?,
            Advance::Fault(at) => return Err(Refusal::Syntax(at)),
            Advance::Wait | Advance::End => break,
        }
    }
    Ok(())
}

/// Writes the names of the tokens of a text, which a lexer holds in pieces of so many bytes.
fn write_pieces(
    lexer: &mut PieceLexer,
    text: &[u8],
    size: usize,
    names: &mut String,
) -> Result<(), Refusal>
    requires { 0 < size }
{
    for piece in text.chunks(size) {
        lexer.hold(piece)?;
        write_ahead(lexer, false, text.len(), names)?;
    }
    write_ahead(lexer, true, text.len(), names)
}

/// The same, of a new lexer.
fn write_held(
    alloc: Global,
    updates: bool,
    text: &[u8],
    size: usize,
    names: &mut String,
) -> Result<(), Refusal>
    requires { 0 < size }
{
    let mut lexer = PieceLexer::new(alloc, updates);
    let written = write_pieces(&mut lexer, text, size, names);
    drop(lexer);
    written
}

/// The same of a text that is at hand whole.
fn write_whole(updates: bool, text: &[u8], names: &mut String) -> Result<(), Refusal> {
    let mut lexer = TextLexer::new(text, updates);
    // so many calls reach the end
    for _ in 0..=text.len() {
        match lexer.next_token() {
            Next::Token(token) => write_name(names, token.kind)?,
            Next::Fault(at) => return Err(Refusal::Syntax(at)),
            Next::End => break,
        }
    }
    Ok(())
}

fn write_by(
    alloc: Global,
    way: Way,
    updates: bool,
    text: &[u8],
    names: &mut String,
) -> Result<(), Refusal> {
    match way {
        Way::Whole => write_whole(updates, text, names),
        Way::Fed(size) => write_fed(alloc, updates, text, size.max(1), names),
        Way::Held(size) => write_held(alloc, updates, text, size.max(1), names),
        Way::Settled => write_settled(alloc, updates, text, names),
    }
}

/// Writes what a reading finds, or why it stops.
fn tell(
    alloc: Global,
    way: Way,
    updates: bool,
    text: &[u8],
    told: &mut String,
) -> Result<(), AllocError> {
    match write_by(alloc, way, updates, text, told) {
        Ok(()) => Ok(()),
        Err(refusal) => {
            told.clear();
            write!(told, "{refusal:?} ")
        }
    }
}

/// Whether a text is one and then another.
pub fn is_joined(text: &str, front: &str, back: &str) -> bool {
    match text.strip_prefix(front) {
        Some(rest) => rest == back,
        None => false,
    }
}

/// Whether a reading finds what is said, and then this.
fn is_found(alloc: Global, way: Way, updates: bool, text: &[u8], said: &str, more: &str) -> bool {
    let mut told = String::new(alloc);
    let done = tell(alloc, way, updates, text, &mut told);
    let is = done.is_ok() && is_joined(told.as_str(), said, more);
    drop(told);
    is
}

/// Whether a text has the tokens that are said, and then these, or has the fault, whole and in pieces
/// of 1, 2, 3 and 1000 bytes.
pub fn has_tokens(alloc: Global, updates: bool, text: &[u8], said: &str, more: &str) -> bool {
    for way in &WAYS {
        if !is_found(alloc, *way, updates, text, said, more) {
            return false;
        }
    }
    true
}

/// Whether a text with a dot after it has the tokens that are said, and then a dot.
pub fn has_dotted(alloc: Global, updates: bool, text: &str, said: &str) -> bool {
    let Ok(dotted) = format!(in alloc; "{text}.") else {
        return false;
    };
    has_tokens(alloc, updates, dotted.as_str().as_bytes(), said, "Dot ")
}

/// Whether so many of a text's tokens are given before it has ended.
pub fn has_settled(alloc: Global, updates: bool, text: &[u8], said: &str) -> bool {
    is_found(alloc, Way::Settled, updates, text, said, "")
}
