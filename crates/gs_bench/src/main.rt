//! Reads a document from standard input in pieces, and prints how many triples of N-Triples or of
//! Turtle, or how many tokens of Turtle, it has; or reads the text of an update, and prints how many
//! triples and patterns its operations have.
#![tactic(auto)]

use gs_body::BodyReader;
use gs_event::Op;
use gs_iri::is_absolute;
use gs_lex::Lexer;
use gs_model::Refusal;
use gs_ntread::NTriplesReader;
use gs_triple_lists::TripleList;
use gs_turtle::TurtleReader;
use gs_update::read_update;
use std::alloc::Global;
use std::env;
use std::io::{self, Read};
use std::rt::Env;

/// The base of a document, and of an update.
const BASE: &str = "http://example.org/base/";

/// The bytes of a piece, where no argument says so.
const PIECE: usize = 65_536;

/// The size of the pieces: the argument at that place, in bytes, at least 1.
fn piece_size(rt: &(impl Env + AllocGlobal), place: usize) -> io::Result<usize> {
    match env::args(rt)?.nth(place) {
        Some(text) => Ok(text.parse::<usize>().unwrap_or(PIECE).max(1)),
        None => Ok(PIECE),
    }
}

/// What is counted.
#[derive(Clone, Copy, Drop)]
enum Mode {
    NTriples,
    Turtle,
    WholeTurtle,
    Tokens,
    Update,
}

/// What the first argument asks for: the triples of N-Triples, where it is none of the words.
fn wanted(rt: &(impl Env + AllocGlobal)) -> io::Result<Mode> {
    let Some(text) = env::args(rt)?.nth(1) else {
        return Ok(Mode::NTriples);
    };
    match text.as_str() {
        "turtle" => Ok(Mode::Turtle),
        "turtle-whole" => Ok(Mode::WholeTurtle),
        "tokens" => Ok(Mode::Tokens),
        "update" => Ok(Mode::Update),
        _ => Ok(Mode::NTriples),
    }
}

/// How many triples a reader gives of a piece, into a list that is cleared before.
fn count_piece<B: BodyReader>(
    reader: &mut B,
    piece: &[u8],
    triples: &mut TripleList,
) -> Result<u64, Refusal> {
    triples.clear();
    reader.feed(piece, triples)?;
    Ok(triples.len() as u64)
}

/// How many triples it gives as the text ends.
fn count_end<B: BodyReader>(reader: &mut B, triples: &mut TripleList) -> Result<u64, Refusal> {
    triples.clear();
    reader.finish(triples)?;
    Ok(triples.len() as u64)
}

/// How many triples a reader finds in the pieces of an input, or the text's fault.
fn count_pieces<R: Read, B: BodyReader>(
    reader: &mut B,
    input: &mut R,
    piece: &mut [u8],
    triples: &mut TripleList,
) -> io::Result<Result<u64, Refusal>> {
    let mut counted = 0u64;
    for _ in 0..u64::MAX {
        let read = input.read(piece)?;
        if read == 0 {
            break;
        }
        match count_piece(reader, &piece[..read], triples) {
            Ok(more) => counted = counted.saturating_add(more),
            Err(refusal) => return Ok(Err(refusal)),
        }
    }
    match count_end(reader, triples) {
        Ok(more) => Ok(Ok(counted.saturating_add(more))),
        Err(refusal) => Ok(Err(refusal)),
    }
}

/// How many triples a reader finds in the text, or the text's fault.
fn count<R: Read, B: BodyReader + Drop>(
    alloc: Global,
    mut reader: B,
    input: &mut R,
    size: usize,
) -> io::Result<Result<u64, Refusal>> {
    let mut piece = vec![in alloc; 0u8; size]?;
    let mut triples = TripleList::new(alloc);
    let counted = count_pieces(&mut reader, input, &mut piece, &mut triples);
    drop(triples);
    counted
}

/// How many triples a reader finds in the whole text, which is one piece.
fn count_in<B: BodyReader>(
    reader: &mut B,
    text: &[u8],
    triples: &mut TripleList,
) -> Result<u64, Refusal> {
    let counted = count_piece(reader, text, triples)?;
    Ok(counted.saturating_add(count_end(reader, triples)?))
}

/// The same, in a list of its own.
fn count_whole<B: BodyReader>(alloc: Global, reader: &mut B, text: &[u8]) -> Result<u64, Refusal> {
    let mut triples = TripleList::new(alloc);
    let counted = count_in(reader, text, &mut triples);
    drop(triples);
    counted
}

/// How many triples of Turtle the text has, or its fault.
fn count_turtle<R: Read>(
    alloc: Global,
    input: &mut R,
    size: usize,
) -> io::Result<Result<u64, Refusal>> {
    if !is_absolute(BASE) {
        return Ok(Err(Refusal::Syntax(0)));
    }
    let reader = TurtleReader::new(alloc, 1, BASE)?;
    count(alloc, reader, input, size)
}

/// How many triples of Turtle the text has, which is read whole and gives all its triples at once,
/// or its fault.
fn count_whole_turtle<R: Read>(alloc: Global, input: &mut R) -> io::Result<Result<u64, Refusal>> {
    if !is_absolute(BASE) {
        return Ok(Err(Refusal::Syntax(0)));
    }
    let mut reader = TurtleReader::new(alloc, 1, BASE)?;
    let mut text = Vec::new(alloc);
    input.read_to_end(&mut text)?;
    Ok(count_whole(alloc, &mut reader, text.as_slice()))
}

/// How many tokens of Turtle the text has, or its fault.
fn count_tokens<R: Read>(
    alloc: Global,
    input: &mut R,
    size: usize,
) -> io::Result<Result<u64, Refusal>> {
    let mut lexer = Lexer::new(alloc, false);
    let mut piece = vec![in alloc; 0u8; size]?;
    let mut tokens = Vec::new(alloc);
    let mut counted = 0u64;
    for _ in 0..u64::MAX {
        let read = input.read(&mut piece)?;
        if read == 0 {
            break;
        }
        if let Err(refusal) = lexer.feed(&piece[..read], &mut tokens) {
            return Ok(Err(refusal));
        }
        counted = counted.saturating_add(tokens.len() as u64);
        tokens.clear();
    }
    if let Err(refusal) = lexer.finish(&mut tokens) {
        return Ok(Err(refusal));
    }
    Ok(Ok(counted.saturating_add(tokens.len() as u64)))
}

/// How many triples and patterns the operations have.
fn operands(operations: &[Op]) -> u64 {
    let mut counted = 0u64;
    for operation in operations {
        let more = match operation {
            Op::Insert(triples) | Op::DeleteData(triples) => triples.len(),
            Op::DeleteWhere(patterns) => patterns.len(),
        };
        counted = counted.saturating_add(more as u64);
    }
    counted
}

/// How many triples and patterns the update of the text has, which is read whole, or its fault.
fn count_update<R: Read>(alloc: Global, input: &mut R) -> io::Result<Result<u64, Refusal>> {
    if !is_absolute(BASE) {
        return Ok(Err(Refusal::Syntax(0)));
    }
    let mut text = Vec::new(alloc);
    input.read_to_end(&mut text)?;
    match read_update(alloc, 1, BASE, text.as_slice()) {
        Ok(operations) => Ok(Ok(operands(operations.as_slice()))),
        Err(refusal) => Ok(Err(refusal)),
    }
}

fn main(rt: HostRuntime) -> io::Result<()> {
    let alloc = rt.alloc();
    let outcome = match wanted(&rt)? {
        Mode::NTriples => {
            let size = piece_size(&rt, 1)?;
            count(alloc, NTriplesReader::new(alloc, 1), &mut rt.reader(), size)?
        }
        Mode::Turtle => {
            let size = piece_size(&rt, 2)?;
            count_turtle(alloc, &mut rt.reader(), size)?
        }
        Mode::WholeTurtle => count_whole_turtle(alloc, &mut rt.reader())?,
        Mode::Tokens => {
            let size = piece_size(&rt, 2)?;
            count_tokens(alloc, &mut rt.reader(), size)?
        }
        Mode::Update => count_update(alloc, &mut rt.reader())?,
    };
    match outcome {
        Ok(counted) => println!(rt; "{counted}"),
        Err(refusal) => println!(rt; "{refusal}"),
    }
}
