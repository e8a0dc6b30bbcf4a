//! A text that is read in pieces, and the fault that it has.
ghost use Rattle.std.specs.Prelude.{◌≡◌, ◌↔◌, [], ℕ, List, Bool, false, true, is_some, None, Some, OnOk, OnErr, IfOk, IsErr};
ghost use Rattle.gs_machine.specs.Machines.{Begins};
ghost use Rattle.gs_model.specs.Iris.{is_absolute};
ghost use Rattle.gs_model.specs.declared.refusals.Refusal.{Refusal as ARefusal};
ghost use Rattle.gs_upload.specs.Faults.{ReportsFault, IsRefusedMemory};
ghost use Rattle.gs_upload.specs.Readings.{kept_fault, IsFedReading, FeedsPiece, FeedsReading, FeedsPieces, EndsReading, IsClosedReading};

use crate::languages::Language;
use crate::readers::TextReader;
use gs_body::BodyReader;
use gs_model::Refusal;
use gs_triple_lists::TripleList;
use std::alloc::{AllocError, Global};

/// A text that is read in pieces, cut anywhere. A fault is kept until the text ends.
///
/// A call that wants memory and gets none closes the reading: every later call is refused as well.
#[derive(Drop)]
pub struct Reading<R> {
    reader: R,
    /// The first fault of the text, however it goes on.
    fault: Option<Refusal>,
}

/// The fault that a reader's call reports, if it reports one. A reader is closed where it wanted
/// memory and got none.
fn fault_in(outcome: Result<(), Refusal>) -> Result<Option<Refusal>, AllocError>
    ensures fault { IfOk result (ReportsFault outcome) }
    ensures memory { IsErr result ↔ IsRefusedMemory outcome }
{
    match outcome {
        Ok(()) => Ok(None),
        Err(Refusal::NoMemory) => Err(AllocError),
        Err(Refusal::Closed) => Err(AllocError),
        Err(fault) => Ok(Some(fault)),
    }
}

impl<R: BodyReader + Drop> Reading<R> {
    /// The reading of a text of which nothing was fed.
    pub fn of(reader: R) -> Reading<R>
        requires fresh { R.Leads reader [] [] }
        requires unread { R.is_closed reader ≡ false }
        ensures fed { IsFedReading R.meaning_of R.Leads R.is_closed result (R.meaning_of reader) [] [] }
        ensures no_fault { kept_fault result ≡ None }
    {
        Reading {
            reader,
            fault: None,
        }
    }

    /// Whether the text has a fault, however it goes on.
    pub fn has_fault(&self) -> bool
        ensures { result ≡ is_some (kept_fault self.now) }
    {
        self.fault.is_some()
    }

    /// Feeds the next piece, and appends the triples of the statements that are complete now. A
    /// fault is kept, and from that piece on nothing is given.
    pub fn feed(&mut self, piece: &[u8], triples: &mut TripleList) -> Result<(), AllocError>
        ensures given { OnOk result (FeedsPiece R.meaning_of R.Leads R.is_closed self.old self.new
            piece.now triples.old.items triples.new.items) }
        ensures kept { OnErr result (triples.new.items ≡ triples.old.items) }
        ensures refused { OnErr result (IsClosedReading R.is_closed self.new) }
        ensures closed { IsClosedReading R.is_closed self.old → IsErr result }
    {
        if self.fault.is_some() {
            return Ok(());
        }
        self.fault = fault_in(self.reader.feed(piece, triples))?;
        Ok(())
    }

    /// Feeds a text in pieces of so many bytes; 0 is whole.
    fn feed_each(
        &mut self,
        text: &[u8],
        length: usize,
        triples: &mut TripleList,
    ) -> Result<(), AllocError>
        ensures pieces { OnOk result (FeedsPieces R.meaning_of R.Leads R.is_closed length self.old self.new
            text.now triples.old.items triples.new.items) }
        ensures kept { OnErr result (Begins triples.new.items triples.old.items) }
        ensures refused { OnErr result (IsClosedReading R.is_closed self.new) }
        ensures closed { IsClosedReading R.is_closed self.old → IsErr result }
    {
        let mut rest = text;
        while 0 < length && length < rest.len() {
            let (piece, after) = rest.split_at(length);
            self.feed(piece, triples)?;
            rest = after;
        }
        self.feed(rest, triples)
    }

    /// Feeds a text in pieces of so many bytes, of which the last may be shorter; 0 is whole.
    pub fn feed_pieces(
        &mut self,
        text: &[u8],
        length: usize,
        triples: &mut TripleList,
    ) -> Result<(), AllocError>
        ensures pieces { OnOk result (FeedsPieces R.meaning_of R.Leads R.is_closed length self.old self.new
            text.now triples.old.items triples.new.items) }
        ensures given { OnOk result (FeedsReading R.meaning_of R.Leads R.is_closed self.old self.new
            text.now triples.old.items triples.new.items) }
        ensures kept { OnErr result (triples.new.items ≡ triples.old.items) }
        ensures refused { OnErr result (IsClosedReading R.is_closed self.new) }
        ensures closed { IsClosedReading R.is_closed self.old → IsErr result }
    {
        let before = triples.len();
        match self.feed_each(text, length, triples) {
            Ok(()) => Ok(()),
            Err(error) => {
                triples.truncate(before);
                Err(error)
            }
        }
    }

    /// The text ends: appends the triples that are complete by that, or gives its first fault, with
    /// its kind and its place.
    pub fn finish(mut self, triples: &mut TripleList) -> Result<Option<Refusal>, AllocError>
        ensures ended { IfOk result (λ fault. EndsReading R.meaning_of R.Leads R.is_closed self fault
            triples.old.items triples.new.items) }
        ensures kept { OnErr result (triples.new.items ≡ triples.old.items) }
        ensures latched { (e : ARefusal) → kept_fault self ≡ Some e → result ≡ Ok (Some e) }
        ensures closed { IsClosedReading R.is_closed self → IsErr result }
    {
        if let Some(fault) = self.fault {
            return Ok(Some(fault));
        }
        fault_in(self.reader.finish(triples))
    }
}

impl Reading<TextReader> {
    ghost use Rattle.gs_upload.specs.Languages.{meaning_in};
    ghost use Rattle.gs_upload.specs.Readers.{IsFedText};

    /// The reading of the text of the request of this number, in a language and under a first base.
    /// `gs_iri::is_absolute` tests a base. The seed spreads the labels of blank nodes
    /// (`gs_blank::Numbering::new`).
    pub fn new(
        alloc: Global,
        language: Language,
        request: u64,
        base: &str,
        seed: u64,
    ) -> Result<Reading<TextReader>, AllocError>
        requires { is_absolute base.now ≡ true }
        ensures fed { IfOk result (λ k. IsFedText k (meaning_in language base.now request) [] []) }
        ensures no_fault { IfOk result (λ k. kept_fault k ≡ None) }
    {
        let reader = TextReader::new(alloc, language, request, base, seed)?;
        Ok(Reading::of(reader))
    }
}
