//! A case: a document, its language, and the pieces in which it comes.
use hex::{FromHexError, decode};
use std::alloc::{AllocError, Global};

/// The language of a document.
#[derive(Clone, Copy, Drop)]
pub enum Language {
    NTriples,
    Turtle,
}

/// A document that comes in pieces.
#[derive(Drop)]
pub struct Case {
    pub language: Language,
    /// The bytes of a piece; 0 where the document comes whole.
    pub size: usize,
    pub text: Vec<u8>,
}

/// The language that a word of the input names.
fn language_of(word: &str) -> Option<Language> {
    match word {
        "nt" => Some(Language::NTriples),
        "ttl" => Some(Language::Turtle),
        _ => None,
    }
}

/// The bytes that hexadecimal digits stand for, if each has two.
fn bytes_of(alloc: Global, digits: &str) -> Result<Option<Vec<u8>>, AllocError> {
    match decode(alloc, digits) {
        Ok(bytes) => Ok(Some(bytes)),
        Err(FromHexError::OutOfMemory) => Err(AllocError),
        Err(_) => Ok(None),
    }
}

impl Case {
    /// The case that a line says, if it says one: the language, the size of the pieces and the bytes of
    /// the document, with one space between two of them.
    pub fn read(alloc: Global, line: &str) -> Result<Option<Case>, AllocError> {
        let Some((word, rest)) = line.split_once(' ') else {
            return Ok(None);
        };
        let Some((number, digits)) = rest.split_once(' ') else {
            return Ok(None);
        };
        let (Some(language), Ok(size)) = (language_of(word), number.parse::<usize>()) else {
            return Ok(None);
        };
        let text = bytes_of(alloc, digits)?;
        Ok(text.map(|text| Case {
            language,
            size,
            text,
        }))
    }
}
