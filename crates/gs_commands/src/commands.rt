//! What a line of a schedule says.
ghost use Rattle.std.specs.Prelude.{◌≡◌, ◌++◌, ◌∷◌, [], List, ℕ, IfOk, MatchOption};
ghost use Rattle.gs_commands.specs.Found.{Finds, FindsPair};
ghost use Rattle.gs_commands.specs.Commands.{SaysKind, SaysTriple, SaysAction, SaysText, SaysFeed, SaysNothingAt, SaysStart, SaysCommand, FindsStage, FindsSeatEvent, feed_words, is_skipped as is_skipped_line};
ghost use Rattle.gs_upload.specs.declared.languages.Language.{Language as ALanguage};

use crate::lines::read_line;
use crate::patches::read_patch;
use crate::targets::{read_scope, read_target_since};
use crate::words::{after, number, split};
use gs_event::{Action, Event, UploadKind};
use gs_model::{LAST_NUMBER, MAX_SEATS};
use gs_term::Triple;
use gs_triple_lists::TripleList;
use gs_upload::Language;
use std::alloc::{AllocError, Global};

/// What a line says.
#[derive(Debug, Drop)]
pub enum Command {
    /// An empty line, or one that begins with `#`.
    Nothing,
    /// Seats, and the numbers of the last commit and of the last request: where the store begins.
    Begin(u16, u64, u64),
    /// An event for the store.
    Ask(Event),
    /// The nodes and records in use, and the triples of all graphs.
    Count,
    /// A text in a language for the upload of a seat: the rest of the line, and a line feed.
    Feed(u16, Language, Vec<u8>),
    /// The text of an update for the patch of a seat: the rest of the line.
    Patch(u16, Vec<u8>),
    /// Texts are fed in pieces of so many bytes from here on; 0 is whole.
    Cut(u64),
}

/// What an upload is opened for, and its condition.
fn read_kind(alloc: Global, text: &[u8]) -> Result<Option<(UploadKind, Option<u64>)>, AllocError>
    ensures { IfOk result (FindsPair SaysKind text.now) }
{
    if text == b"new".as_slice() {
        return Ok(Some((UploadKind::New, None)));
    }
    if let Some(rest) = after(text, b"put ") {
        return match read_target_since(alloc, rest)? {
            Some((target, since)) => Ok(Some((UploadKind::Put(target), since))),
            None => Ok(None),
        };
    }
    if let Some(rest) = after(text, b"post ") {
        return match read_target_since(alloc, rest)? {
            Some((target, since)) => Ok(Some((UploadKind::Post(target), since))),
            None => Ok(None),
        };
    }
    Ok(None)
}

/// The triple of a canonical line whose line feed is left out.
fn read_triple(alloc: Global, text: &[u8]) -> Result<Option<Triple>, AllocError>
    ensures { IfOk result (Finds SaysTriple text.now) }
{
    let mut line = Vec::from_slice(alloc, text)?;
    line.push(b'\n')?;
    read_line(alloc, line.as_slice())
}

fn list_of(alloc: Global, triple: Triple) -> Result<TripleList, AllocError>
    ensures { IfOk result (λ list. list.items ≡ triple ∷ []) }
{
    let mut list = TripleList::new(alloc);
    list.push(triple)?;
    Ok(list)
}

fn read_stage(alloc: Global, text: &[u8]) -> Result<Option<Action>, AllocError>
    ensures { IfOk result (FindsStage text.now) }
{
    match read_triple(alloc, text)? {
        Some(triple) => Ok(Some(Action::Stage(list_of(alloc, triple)?))),
        None => Ok(None),
    }
}

/// An action, by the rows of its words.
fn read_action(alloc: Global, text: &[u8]) -> Result<Option<Action>, AllocError>
    ensures { IfOk result (Finds SaysAction text.now) }
{
    if text == b"commit".as_slice() {
        return Ok(Some(Action::Commit));
    }
    if text == b"cancel".as_slice() {
        return Ok(Some(Action::Cancel));
    }
    if let Some(rest) = after(text, b"open patch ") {
        return match read_target_since(alloc, rest)? {
            Some((target, since)) => Ok(Some(Action::OpenPatch(target, since))),
            None => Ok(None),
        };
    }
    if let Some(rest) = after(text, b"open ") {
        return match read_kind(alloc, rest)? {
            Some((kind, since)) => Ok(Some(Action::Open(kind, since))),
            None => Ok(None),
        };
    }
    if let Some(line) = after(text, b"stage ") {
        return read_stage(alloc, line);
    }
    if let Some(rest) = after(text, b"delete ") {
        return match read_target_since(alloc, rest)? {
            Some((target, since)) => Ok(Some(Action::Delete(target, since))),
            None => Ok(None),
        };
    }
    if let Some(scope) = after(text, b"head ") {
        return Ok(read_scope(alloc, scope)?.map(Action::Head));
    }
    if let Some(scope) = after(text, b"pin ") {
        return Ok(read_scope(alloc, scope)?.map(Action::Pin));
    }
    if let Some(count) = after(text, b"piece ") {
        return Ok(number(count, 4_294_967_295).map(|n| Action::Piece(n as u32)));
    }
    Ok(None)
}

/// A seat's number, a space and its action.
fn read_seat(alloc: Global, text: &[u8]) -> Result<Option<Event>, AllocError>
    ensures { IfOk result (FindsSeatEvent text.now) }
{
    let (seat, rest) = split(text, b' ');
    let Some(seat) = number(seat, 65_535) else {
        return Ok(None);
    };
    let Some(action) = read_action(alloc, rest)? else {
        return Ok(None);
    };
    Ok(Some(Event::Seat(seat as u16, action)))
}

/// The text of a feed.
fn read_text(alloc: Global, rest: &[u8]) -> Result<Option<Vec<u8>>, AllocError>
    ensures { IfOk result (λ found. MatchOption found ((y : List ℕ) → ¬ (SaysText y rest.now))
        (λ y. SaysText y.items rest.now)) }
{
    if str::from_utf8(rest).is_err() {
        return Ok(None);
    }
    let mut text = Vec::from_slice(alloc, rest)?;
    text.push(b'\n')?;
    Ok(Some(text))
}

/// The language of a feed, and what stands after its words.
fn feed_language(action: &[u8]) -> Option<(Language, &[u8])>
    ensures { MatchOption result ((l : ALanguage) (rest : List ℕ) → ¬ (action.now ≡ feed_words l ++ rest))
        (λ p. action.now ≡ feed_words p.0 ++ p.1.now) }
{
    if let Some(rest) = after(action, b"feed nt ") {
        return Some((Language::NTriples, rest));
    }
    if let Some(rest) = after(action, b"feed ttl ") {
        return Some((Language::Turtle, rest));
    }
    None
}

/// A seat's number, a language, and a text in it.
fn read_feed(alloc: Global, line: &[u8]) -> Result<Option<(u16, Language, Vec<u8>)>, AllocError>
    ensures { IfOk result (λ found. MatchOption found
        ((s : ℕ) (l : ALanguage) (y : List ℕ) → ¬ (SaysFeed s l y line.now))
        (λ p. SaysFeed p.0 p.1 p.2.items line.now)) }
{
    let (seat, action) = split(line, b' ');
    let Some(seat) = number(seat, 65_535) else {
        return Ok(None);
    };
    let Some((language, rest)) = feed_language(action) else {
        return Ok(None);
    };
    match read_text(alloc, rest)? {
        Some(text) => Ok(Some((seat as u16, language, text))),
        None => Ok(None),
    }
}

/// Seats, a commit's number and a request's number.
fn read_start(text: &[u8]) -> Option<(u16, u64, u64)>
    ensures { Finds (λ p x. SaysStart p.0 p.1 p.2 x) text.now result }
{
    let (seats, rest) = split(text, b' ');
    let (commit, request) = split(rest, b' ');
    let Some(seats) = number(seats, u64::from(MAX_SEATS)) else {
        return None;
    };
    let Some(commit) = number(commit, LAST_NUMBER) else {
        return None;
    };
    let Some(request) = number(request, LAST_NUMBER) else {
        return None;
    };
    if seats == 0 {
        return None;
    }
    Some((seats as u16, commit, request))
}

/// What a line says: a row for each first word, and else a seat's number.
pub fn read_command(alloc: Global, line: &[u8]) -> Result<Option<Command>, AllocError>
    ensures { IfOk result (Finds SaysCommand line.now) }
{
    if is_skipped(line) {
        return match str::from_utf8(line) {
            Ok(_) => Ok(Some(Command::Nothing)),
            Err(_) => Ok(None),
        };
    }
    if line == b"counts".as_slice() {
        return Ok(Some(Command::Count));
    }
    if let Some(rest) = after(line, b"store ") {
        return match read_start(rest) {
            Some((seats, commit, request)) => Ok(Some(Command::Begin(seats, commit, request))),
            None => Ok(None),
        };
    }
    if let Some(rest) = after(line, b"reclaim ") {
        return match number(rest, 18_446_744_073_709_551_615) {
            Some(count) => Ok(Some(Command::Ask(Event::Reclaim(count)))),
            None => Ok(None),
        };
    }
    if let Some(rest) = after(line, b"cut ") {
        return match number(rest, 18_446_744_073_709_551_615) {
            Some(length) => Ok(Some(Command::Cut(length))),
            None => Ok(None),
        };
    }
    read_at_seat(alloc, line)
}

/// A line that begins with a seat's number.
fn read_at_seat(alloc: Global, line: &[u8]) -> Result<Option<Command>, AllocError>
    ensures { IfOk result (λ found. MatchOption found (SaysNothingAt line.now)
        (λ command. SaysCommand command line.now)) }
{
    if let Some((seat, language, text)) = read_feed(alloc, line)? {
        return Ok(Some(Command::Feed(seat, language, text)));
    }
    if let Some((seat, text)) = read_patch(alloc, line)? {
        return Ok(Some(Command::Patch(seat, text)));
    }
    match read_seat(alloc, line)? {
        Some(event) => Ok(Some(Command::Ask(event))),
        None => Ok(None),
    }
}

fn is_skipped(line: &[u8]) -> bool
    ensures { result ≡ is_skipped_line line.now }
{
    match line.first() {
        None => true,
        Some(byte) => *byte == b'#',
    }
}
