//! The reader of N-Triples.
ghost use Rattle.std.specs.Prelude.{◌≡◌, ◌≢◌, ◌++◌, [], ◌<◌, ◌≤◌, false, length, take, OnOk, OnErr, IfOk, IfErr, IfSome, IfNone, IsErr, List, ℕ};
ghost use Rattle.gs_model.specs.Triples.{RdfTriple};
ghost use Rattle.gs_ntterm.specs.Marks.{char_end};

use crate::cursor::Cursor;
use crate::finals::Ending;
use crate::lines::Taken;
use crate::numbers;
use crate::parts::{Parts, Within};
use gs_blank::Numbering;
use gs_body::BodyReader;
use gs_machine::{BAD, Decoder};
use gs_model::{Fault, Refusal};
use gs_triple_lists::TripleList;
use std::alloc::{AllocError, Global};

/// Reads a body of N-Triples (25 February 2014) that comes in any pieces.
#[derive(Drop)]
pub struct NTriplesReader {
    alloc: Global,
    /// The number of the request, in which blank nodes have their numbers.
    request: u64,
    /// From bytes to characters.
    decoder: Decoder,
    /// How many bytes the characters so far have. It stops at the greatest `u64`.
    read: u64,
    /// From characters to the parts of triples.
    cursor: Cursor,
    /// The numbers of the labels so far.
    numbering: Numbering,
    /// How many bytes there are up to the end of the last complete statement, 0 before the first.
    last: u64,
    /// A call was refused, or the text has ended.
    is_closed: bool,
}

/// The number of bytes up to the end of a character.
fn end_after_char(n: u64, c: u32) -> u64
    ensures { result ≡ char_end n c }
{
    let len = if c < 0x80 {
        1
    } else if c < 0x800 {
        2
    } else if c < 0x1_0000 {
        3
    } else {
        4
    };
    n.saturating_add(len)
}

impl NTriplesReader {
    ghost use Rattle.gs_machine.specs.Machines.{steps, rest, Begins};
    ghost use Rattle.gs_machine.specs.Utf8.{is_ready_of};
    ghost use Rattle.gs_body.specs.Bodies.{all_stated, Whole};
    ghost use Rattle.gs_ntread.specs.Documents.{meaning_by, Means};
    ghost use Rattle.gs_ntread.specs.Readers.{LeadsToNTriples, IsStopped, refusal_after, FaultsAs, ConcludesAs, FaultyEnd, EndsWell, FaultsAfter, FaultsAtEnd, GivesParts, TakesEach, TakesByte, TakesChar, TakesFront, TakesRun, TakesParts, body_end, text_end};
    ghost use Rattle.gs_ntread.specs.Views.{cursor_state, ending_of};

    /// A reader at the start of the body of the request of this number. Takes no memory. Its labels are hashed
    /// under the seed 0, which everybody knows; `seeded` takes another.
    pub fn new(alloc: Global, request: u64) -> NTriplesReader
        ensures fresh { ⟦<NTriplesReader as BodyReader>⟧.Leads result [] [] }
        ensures unread { ⟦<NTriplesReader as BodyReader>⟧.is_closed result ≡ false }
        ensures meaning_of { Means (⟦<NTriplesReader as BodyReader>⟧.meaning_of result) request }
    {
        NTriplesReader::seeded(alloc, request, 0)
    }

    /// The same, by a seed that spreads the labels of its blank nodes (`gs_blank::Numbering::new`).
    pub fn seeded(alloc: Global, request: u64, seed: u64) -> NTriplesReader
        ensures fresh { ⟦<NTriplesReader as BodyReader>⟧.Leads result [] [] }
        ensures unread { ⟦<NTriplesReader as BodyReader>⟧.is_closed result ≡ false }
        ensures meaning_of { Means (⟦<NTriplesReader as BodyReader>⟧.meaning_of result) request }
    {
        NTriplesReader {
            alloc,
            request,
            decoder: Decoder::new(),
            read: 0,
            cursor: Cursor::new(alloc),
            numbering: Numbering::new(alloc, seed),
            last: 0,
            is_closed: false,
        }
    }

    /// A triple is complete.
    fn give(&mut self, parts: Parts, triples: &mut TripleList) -> Result<(), Refusal>
        ensures ok { OnOk result (GivesParts self.old self.new triples.old.items triples.new.items parts) }
        ensures err { OnErr result (triples.new.items ≡ triples.old.items) }
        ensures request { self.new.request ≡ self.old.request }
        ensures refused { IfErr result (λ e. e ≡ Refusal.NoMemory) }
    {
        let end = parts.end;
        let triple = numbers::triple(self.alloc, self.request, &mut self.numbering, parts)?;
        triples.push(triple)?;
        self.last = end;
        Ok(())
    }

    /// The next character.
    fn character(&mut self, c: u32, triples: &mut TripleList) -> Result<(), Refusal>
        ensures ok { OnOk result (TakesChar self.old self.new triples.old.items triples.new.items c) }
        ensures err { OnErr result (triples.new.items ≡ triples.old.items) }
        ensures request { self.new.request ≡ self.old.request }
        ensures refused { IfErr result (λ e. e ≡ Refusal.NoMemory) }
    {
        self.read = end_after_char(self.read, c);
        match self.cursor.take(c, self.read)? {
            None => Ok(()),
            Some(parts) => self.give(parts, triples),
        }
    }

    /// The next byte.
    fn step(&mut self, byte: u8, triples: &mut TripleList) -> Result<(), Refusal>
        ensures ok { OnOk result (TakesByte self.old self.new triples.old.items triples.new.items byte) }
        ensures err { OnErr result (triples.new.items ≡ triples.old.items) }
        ensures request { self.new.request ≡ self.old.request }
        ensures refused { IfErr result (λ e. e ≡ Refusal.NoMemory) }
    {
        if byte < 128 && self.decoder.is_ready() {
            return self.character(u32::from(byte), triples);
        }
        match self.decoder.decode(byte) {
            None => Ok(()),
            Some(c) => self.character(c, triples),
        }
    }

    /// The bytes at the front of a piece that change nothing but the text of a token, and how many.
    #[inline]
    fn take_run(&mut self, piece: &[u8]) -> Result<usize, AllocError>
        ensures bound { IfOk result (λ n. n ≤ length piece.now) }
        ensures ok { TakesRun self.old self.new piece.now result }
        ensures request { self.new.request ≡ self.old.request }
    {
        if !self.decoder.is_ready() {
            return Ok(0);
        }
        let count = self.cursor.take_run(piece)?;
        self.read = self.read.saturating_add(count as u64);
        Ok(count)
    }

    /// An object that stands whole at the front of a piece with the dot of its statement, if one does:
    /// what was read then, and how many bytes they have.
    #[inline]
    fn take_object(&mut self, piece: &[u8]) -> Result<Option<(Parts, usize)>, AllocError>
        ensures ok { IfOk result (λ o. TakesParts self.old self.new piece.now o) }
        ensures last { self.new.last ≡ self.old.last }
        ensures request { self.new.request ≡ self.old.request }
        ensures closed { self.new.is_closed ≡ self.old.is_closed }
    {
        if !self.decoder.is_ready() {
            return Ok(None);
        }
        match self.cursor.take_object(piece, self.read)? {
            None => Ok(None),
            Some((parts, n)) => {
                self.read = parts.end;
                Ok(Some((parts, n)))
            }
        }
    }

    /// Takes the statement that stands whole at the front of a piece, where a line begins, and the line feed
    /// after it, or its subject and its predicate alone. Answers how many bytes they have, and 0 where neither
    /// stands there whole, and then nothing has changed.
    #[inline]
    fn take_line(&mut self, piece: &[u8], triples: &mut TripleList) -> Result<usize, Refusal>
        ensures bound { IfOk result (λ n. n ≤ length piece.now) }
        ensures ok { TakesFront self.old self.new triples.old.items triples.new.items piece.now result }
        ensures err { OnErr result (triples.new.items ≡ triples.old.items) }
        ensures request { self.new.request ≡ self.old.request }
        ensures refused { IfErr result (λ e. e ≡ Refusal.NoMemory) }
    {
        if !self.decoder.is_ready() {
            return Ok(0);
        }
        match self.cursor.take_line(piece)? {
            Taken::Nothing => Ok(0),
            Taken::Begun(n) => {
                self.read = self.read.saturating_add(n as u64);
                Ok(n)
            }
            Taken::Line(line, feed) => {
                let len = line.len;
                let end = self.read.saturating_add(len as u64);
                numbers::push_line(self.alloc, self.request, &mut self.numbering, line, triples)?;
                self.last = end;
                self.read = end.saturating_add(feed as u64);
                Ok(len + feed)
            }
        }
    }

    /// What stands at the front of a piece and `take_line` does not take: a run, an object with its dot, or one
    /// byte.
    fn take_part(&mut self, piece: &[u8], triples: &mut TripleList) -> Result<usize, Refusal>
        requires { 0 < length piece.now }
        ensures bound { IfOk result (λ n. (0 < n) × (n ≤ length piece.now)) }
        ensures ok { TakesFront self.old self.new triples.old.items triples.new.items piece.now result }
        ensures err { OnErr result (triples.new.items ≡ triples.old.items) }
        ensures request { self.new.request ≡ self.old.request }
        ensures refused { IfErr result (λ e. e ≡ Refusal.NoMemory) }
    {
        let count = self.take_run(piece)?;
        if count > 0 {
            return Ok(count);
        }
        match self.take_object(piece)? {
            None => {
                self.step(piece[0], triples)?;
                Ok(1)
            }
            Some((parts, n)) => {
                self.give(parts, triples)?;
                Ok(n)
            }
        }
    }

    /// What stands at the front of a piece: a statement and the end of its line, or a part of one.
    fn take_some(&mut self, piece: &[u8], triples: &mut TripleList) -> Result<usize, Refusal>
        requires { 0 < length piece.now }
        ensures bound { IfOk result (λ n. (0 < n) × (n ≤ length piece.now)) }
        ensures ok { TakesFront self.old self.new triples.old.items triples.new.items piece.now result }
        ensures err { OnErr result (triples.new.items ≡ triples.old.items) }
        ensures request { self.new.request ≡ self.old.request }
        ensures refused { IfErr result (λ e. e ≡ Refusal.NoMemory) }
    {
        let count = self.take_line(piece, triples)?;
        if count > 0 {
            return Ok(count);
        }
        self.take_part(piece, triples)
    }

    /// The next bytes.
    fn take_all(&mut self, piece: &[u8], triples: &mut TripleList) -> Result<(), Refusal>
        ensures ok { OnOk result (TakesEach self.old self.new triples.old.items triples.new.items piece.now) }
        ensures err { OnErr result (Begins triples.new.items triples.old.items) }
        ensures request { self.new.request ≡ self.old.request }
        ensures refused { IfErr result (λ e. e ≡ Refusal.NoMemory) }
    {
        let mut at = 0;
        while at < piece.len() {
            at += self.take_some(&piece[at..], triples)?;
        }
        Ok(())
    }

    /// The refusal of a fault after the statements so far.
    fn refusal(&self, fault: Fault) -> Refusal
        ensures value { result ≡ refusal_after self.now.last fault }
        ensures reported { result ≢ Refusal.Closed }
    {
        match fault {
            Fault::Syntax => Refusal::Syntax(self.last),
            Fault::TermTooLong => Refusal::TermTooLong,
        }
    }

    /// The fault at which nothing more is read.
    fn fault(&self) -> Option<Refusal>
        ensures some { IfSome result (λ e. FaultsAs e self.now.last (cursor_state self.now.cursor)) }
        ensures none { IfNone result (¬ (IsStopped (cursor_state self.now.cursor))) }
        ensures reported { IfSome result (λ e. e ≢ Refusal.Closed) }
    {
        match self.cursor.within {
            Within::Faulty(fault) => Some(self.refusal(fault)),
            _ => None,
        }
    }

    /// The next piece, and its fault.
    fn take_piece(&mut self, piece: &[u8], triples: &mut TripleList) -> Result<(), Refusal>
        ensures ok { OnOk result (TakesEach self.old self.new triples.old.items triples.new.items piece.now) }
        ensures err { OnErr result (Begins triples.new.items triples.old.items) }
        ensures fault { IfErr result (λ e. FaultsAfter self.old piece.now e) }
        ensures request { self.new.request ≡ self.old.request }
        ensures unbroken { OnOk result (¬ (IsStopped (cursor_state self.new.cursor))) }
    {
        self.take_all(piece, triples)?;
        match self.fault() {
            None => Ok(()),
            Some(refusal) => Err(refusal),
        }
    }

    /// What the end of a text answers.
    fn conclude(&self, end: Ending) -> Result<(), Refusal>
        ensures ok { OnOk result (ending_of end ≡ Whole) }
        ensures reported { IfErr result (λ e. e ≢ Refusal.Closed) }
        ensures fault { IfErr result (λ e. ConcludesAs e self.now.last (ending_of end)) }
    {
        match end {
            Ok(()) => Ok(()),
            Err(fault) => Err(self.refusal(fault)),
        }
    }

    /// The text ends between two characters.
    fn end_between(&mut self, triples: &mut TripleList) -> Result<(), Refusal>
        ensures ok { OnOk result (EndsWell triples.old.items triples.new.items (text_end self.old)) }
        ensures err { OnErr result (Begins triples.new.items triples.old.items) }
        ensures reported { IfErr result (λ e. e ≢ Refusal.Closed) }
        ensures fault { IfErr result (λ e. FaultyEnd e self.old.last (text_end self.old)) }
    {
        let (parts, end) = self.cursor.end()?;
        match parts {
            None => self.conclude(end),
            Some(parts) => {
                self.give(parts, triples)?;
                self.conclude(end)
            }
        }
    }

    /// The text ends within a character.
    fn end_within(&mut self, triples: &mut TripleList) -> Result<(), Refusal>
        requires { is_ready_of self.old.decoder ≡ false }
        ensures failed { IsErr result }
        ensures err { OnErr result (Begins triples.new.items triples.old.items) }
        ensures reported { IfErr result (λ e. e ≢ Refusal.Closed) }
        ensures fault { IfErr result (λ e. FaultsAtEnd self.old e) }
    {
        match self.fault() {
            Some(refusal) => return Err(refusal),
            None => {}
        }
        self.character(BAD, triples)?;
        match self.fault() {
            Some(refusal) => Err(refusal),
            None => Err(Refusal::NoMemory),
        }
    }

    /// The text ends.
    fn take_end(&mut self, triples: &mut TripleList) -> Result<(), Refusal>
        ensures ok { OnOk result (EndsWell triples.old.items triples.new.items (body_end self.old)) }
        ensures err { OnErr result (Begins triples.new.items triples.old.items) }
        ensures reported { IfErr result (λ e. e ≢ Refusal.Closed) }
        ensures fault { IfErr result (λ e. FaultsAtEnd self.old e) }
    {
        if self.decoder.is_ready() {
            self.end_between(triples)
        } else {
            self.end_within(triples)
        }
    }
}

impl BodyReader for NTriplesReader {
    ghost use Rattle.gs_ntread.specs.Documents.{meaning_by};
    ghost use Rattle.gs_ntread.specs.Readers.{LeadsToNTriples};

    ghost meaning_of = { λ r x. meaning_by r.request x };

    ghost Leads = { λ r x ts. LeadsToNTriples r x ts };

    ghost is_closed = { λ r. r.is_closed };

    fn feed(&mut self, piece: &[u8], triples: &mut TripleList) -> Result<(), Refusal> {
        if self.is_closed {
            return Err(Refusal::Closed);
        }
        let before = triples.len();
        match self.take_piece(piece, triples) {
            Ok(()) => Ok(()),
            Err(refusal) => {
                self.is_closed = true;
                triples.truncate(before);
                Err(refusal)
            }
        }
    }

    fn finish(&mut self, triples: &mut TripleList) -> Result<(), Refusal> {
        if self.is_closed {
            return Err(Refusal::Closed);
        }
        let before = triples.len();
        let ended = self.take_end(triples);
        self.is_closed = true;
        match ended {
            Ok(()) => Ok(()),
            Err(refusal) => {
                triples.truncate(before);
                Err(refusal)
            }
        }
    }
}
