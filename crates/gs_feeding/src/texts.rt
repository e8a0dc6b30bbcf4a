//! The text that is fed to the upload of a seat.
ghost use Rattle.std.specs.Prelude.{◌≡◌, [], Option, option_map, IfOk};
ghost use Rattle.gs_feeding.specs.Receiving.{Fed};
ghost use Rattle.gs_feeding.specs.SeatTexts.{WasFed, FeedsText, GoesOnText, EndsText, FedInPieces, Ended, first_context, fed_language};

use crate::openings::Opening;
use gs_triple_lists::TripleList;
use gs_upload::{Language, Reading, TextReader};
use std::alloc::{AllocError, Global};

/// The text that was fed to the upload of a seat.
#[derive(Drop)]
pub enum SeatText {
    /// Nothing, or there is no upload.
    Unfed,
    /// A text that may go on. Where it has a fault, what is fed after that is dropped.
    Fed(Language, Reading<TextReader>),
    /// A text that ended with a fault. What is fed after it is dropped.
    Faulted(Language),
    /// A whole text. What is fed after it is dropped.
    Finished(Language),
}

/// Feeds a text: what that gives, which is nothing where the text has a fault.
fn feed_reading(
    alloc: Global,
    reading: &mut Reading<TextReader>,
    text: &[u8],
    cut: u64,
) -> Result<TripleList, AllocError>
    ensures { IfOk result (λ given. FedInPieces reading.old reading.new text.now cut given.items) }
{
    let mut triples = TripleList::new(alloc);
    reading.feed_pieces(text, cut as usize, &mut triples)?;
    if reading.has_fault() {
        return Ok(TripleList::new(alloc));
    }
    Ok(triples)
}

/// Ends a text: where it then stands, and what that gives, which is nothing where it has a fault.
fn finish_reading(
    alloc: Global,
    language: Language,
    reading: Reading<TextReader>,
) -> Result<(SeatText, Option<TripleList>), AllocError>
    ensures { IfOk result (λ p. Ended language reading p.0 (option_map (λ ts. ts.items) p.1)) }
{
    let mut triples = TripleList::new(alloc);
    match reading.finish(&mut triples)? {
        None => Ok((SeatText::Finished(language), Some(triples))),
        Some(_) => Ok((SeatText::Faulted(language), None)),
    }
}

impl SeatText {
    /// A text that begins, in the language of its first feed.
    fn begin(alloc: Global, language: Language, opening: &Opening) -> Result<SeatText, AllocError>
        ensures { IfOk result (λ begun. WasFed begun
            (Fed.InPart (first_context language opening.now) [] [] [])) }
    {
        let reading = Reading::new(alloc, language, opening.request, opening.base(), 0)?;
        Ok(SeatText::Fed(language, reading))
    }

    /// Feeds to a text that began: what that gives, and where the text then stands.
    fn go_on(
        self,
        alloc: Global,
        text: &[u8],
        cut: u64,
    ) -> Result<(SeatText, TripleList), AllocError>
        ensures { IfOk result (λ p. GoesOnText cut self text.now p.1.items p.0) }
    {
        match self {
            SeatText::Fed(language, mut reading) => {
                match feed_reading(alloc, &mut reading, text, cut) {
                    Ok(given) => Ok((SeatText::Fed(language, reading), given)),
                    Err(refused) => {
                        drop(reading);
                        Err(refused)
                    }
                }
            }
            other => Ok((other, TripleList::new(alloc))),
        }
    }

    /// Feeds to the text of an upload: what that gives, and where the text then stands.
    pub fn feed(
        self,
        alloc: Global,
        language: Language,
        opening: &Opening,
        text: &[u8],
        cut: u64,
    ) -> Result<(SeatText, TripleList), AllocError>
        ensures { IfOk result (λ p. FeedsText cut (first_context language opening.now) self text.now
            p.1.items p.0) }
    {
        match self {
            SeatText::Unfed => SeatText::begin(alloc, language, opening)?.go_on(alloc, text, cut),
            begun => begun.go_on(alloc, text, cut),
        }
    }

    /// The text ends: what that gives, which is nothing where it has a fault, and where it then stands.
    pub fn finish(self, alloc: Global) -> Result<(SeatText, Option<TripleList>), AllocError>
        ensures { IfOk result (λ p. EndsText self (option_map (λ ts. ts.items) p.1) p.0) }
    {
        match self {
            SeatText::Fed(language, reading) => finish_reading(alloc, language, reading),
            SeatText::Unfed => Ok((SeatText::Unfed, Some(TripleList::new(alloc)))),
            SeatText::Faulted(language) => Ok((SeatText::Faulted(language), None)),
            SeatText::Finished(language) => {
                Ok((SeatText::Finished(language), Some(TripleList::new(alloc))))
            }
        }
    }

    /// The language of what was fed, if anything was.
    pub fn language(&self) -> Option<Language>
        ensures { result ≡ fed_language self.now }
    {
        match self {
            SeatText::Unfed => None,
            SeatText::Fed(language, _) => Some(*language),
            SeatText::Faulted(language) => Some(*language),
            SeatText::Finished(language) => Some(*language),
        }
    }
}
