//! Texts that are read in each language of bodies, in pieces.
use gs_iri::is_absolute;
use gs_model::Refusal;
use gs_ntread::NTriplesReader;
use gs_test_readings::{feed, lines_of};
use gs_triple_lists::TripleList;
use gs_turtle::TurtleReader;
use std::alloc::Global;

/// A language of bodies.
#[derive(Clone, Copy, Debug, Drop)]
pub enum Language {
    NTriples,
    Turtle,
}

/// Reads a text of request 1 in pieces of so many bytes.
pub fn read(
    alloc: Global,
    language: Language,
    text: &[u8],
    size: usize,
    triples: &mut TripleList,
) -> Result<(), Refusal> {
    match language {
        Language::NTriples => {
            let mut reader = NTriplesReader::new(alloc, 1);
            let fed = feed(&mut reader, text, size, triples);
            drop(reader);
            fed
        }
        Language::Turtle => {
            let base = "http://e/";
            if !is_absolute(base) {
                return Err(Refusal::Syntax(0));
            }
            let mut reader = TurtleReader::new(alloc, 1, base)?;
            let fed = feed(&mut reader, text, size, triples);
            drop(reader);
            fed
        }
    }
}

/// The lines of a text's triples, or its fault.
pub fn lines_as_read(
    alloc: Global,
    language: Language,
    text: &[u8],
    size: usize,
) -> Result<Vec<u8>, Refusal> {
    let mut triples = TripleList::new(alloc);
    let read = read(alloc, language, text, size, &mut triples);
    let lines = lines_of(alloc, &triples);
    drop(triples);
    read?;
    lines
}
