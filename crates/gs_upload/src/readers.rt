//! A reader of either language.
ghost use Rattle.std.specs.Prelude.{◌≡◌, [], ℕ, List, false, true, IfOk};
ghost use Rattle.gs_model.specs.Iris.{is_absolute};
ghost use Rattle.gs_upload.specs.Languages.{meaning_in};

use crate::languages::Language;
use gs_body::BodyReader;
use gs_model::Refusal;
use gs_ntread::NTriplesReader;
use gs_triple_lists::TripleList;
use gs_turtle::TurtleReader;
use std::alloc::{AllocError, Global};

/// A reader of a body in one of the languages. It stands in a box, so that a session, whose value is moved at
/// each step, stays small.
#[derive(Drop)]
pub enum TextReader {
    /// A reader of N-Triples.
    NTriples(Box<NTriplesReader>),
    /// A reader of Turtle.
    Turtle(Box<TurtleReader>),
}

impl TextReader {
    /// A reader at the start of the body of the request of this number. `gs_iri::is_absolute` tests
    /// a base. The seed spreads the labels of blank nodes (`gs_blank::Numbering::new`).
    pub fn new(
        alloc: Global,
        language: Language,
        request: u64,
        base: &str,
        seed: u64,
    ) -> Result<TextReader, AllocError>
        requires { is_absolute base.now ≡ true }
        ensures fresh { IfOk result (λ r. ⟦<TextReader as BodyReader>⟧.Leads r [] []) }
        ensures unread { IfOk result (λ r. ⟦<TextReader as BodyReader>⟧.is_closed r ≡ false) }
        ensures meaning_of { IfOk result (λ r. (x : List ℕ)
            → ⟦<TextReader as BodyReader>⟧.meaning_of r x ≡ meaning_in language base.now request x) }
    {
        match language {
            Language::NTriples => {
                let reader = NTriplesReader::seeded(alloc, request, seed);
                Ok(TextReader::NTriples(Box::new(alloc, reader)?))
            }
            Language::Turtle => {
                let reader = TurtleReader::seeded(alloc, request, base, seed)?;
                Ok(TextReader::Turtle(Box::new(alloc, reader)?))
            }
        }
    }
}

impl BodyReader for TextReader {
    ghost use Rattle.gs_upload.specs.Readers.{meaning_of_text, LeadsText, is_closed_text};

    ghost meaning_of = { λ r x. meaning_of_text r x };

    ghost Leads = { λ r x ts. LeadsText r x ts };

    ghost is_closed = { λ r. is_closed_text r };

    fn feed(&mut self, piece: &[u8], triples: &mut TripleList) -> Result<(), Refusal> {
        match self {
            TextReader::NTriples(reader) => reader.feed(piece, triples),
            TextReader::Turtle(reader) => reader.feed(piece, triples),
        }
    }

    fn finish(&mut self, triples: &mut TripleList) -> Result<(), Refusal> {
        match self {
            TextReader::NTriples(reader) => reader.finish(triples),
            TextReader::Turtle(reader) => reader.finish(triples),
        }
    }
}
