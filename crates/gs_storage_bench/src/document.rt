//! A document whose triples are made by their places, the same in each run: one new term for two
//! triples, and some 47 bytes a term.
use gs_model::Refusal;
use gs_term::TermText;
use std::alloc::{AllocError, Global};

/// The triples of a group, which have one subject.
const GROUP: u64 = 6;

/// Words of literals.
const WORDS: [&str; 16] = [
    "amber", "basil", "cedar", "delta", "ember", "fable", "grove", "haven", "ivory", "jolly",
    "karst", "lumen", "maple", "north", "ocean", "pearl",
];

/// The three terms of a triple.
#[derive(Drop)]
pub struct Terms {
    pub subject: TermText,
    pub predicate: TermText,
    pub object: TermText,
}

/// How the triples follow one another.
#[derive(Clone, Copy, PartialEq, Eq, Drop)]
pub enum Way {
    /// By their subjects, but for a group in 25, which has changed places with a near one.
    NearlySorted,
    /// At places that are drawn.
    Shuffled,
}

/// A number that looks drawn at random, for each number.
pub fn mixed(number: u64) -> u64 {
    let first = number.wrapping_add(0x9E37_79B9_7F4A_7C15);
    let second = (first ^ (first >> 30)).wrapping_mul(0xBF58_476D_1CE4_E5B9);
    let third = (second ^ (second >> 27)).wrapping_mul(0x94D0_49BB_1331_11EB);
    third ^ (third >> 31)
}

/// The subject of a group.
fn subject_of(group: u64) -> u64 {
    let near = group ^ (mixed(group >> 5) % 31 + 1);
    if mixed(group.min(near)) % 25 == 0 {
        near
    } else {
        group
    }
}

/// The place that each place gets, in a row that is shuffled.
fn shuffled(alloc: Global, count: u32) -> Result<Vec<u32>, AllocError> {
    let mut places = Vec::with_capacity(alloc, count as usize)?;
    for place in 0..count {
        places.push(place)?;
    }
    for last in 1..places.len() {
        let other = (mixed(last as u64) % (last as u64 + 1)) as usize;
        places.swap(last, other);
    }
    Ok(places)
}

/// A document of so many triples.
#[derive(Drop)]
pub struct Document {
    alloc: Global,
    count: u32,
    // Empty where the triples are nearly sorted.
    places: Vec<u32>,
}

impl Document {
    /// A document of so many triples, made this way.
    pub fn new(alloc: Global, way: Way, count: u32) -> Result<Document, AllocError> {
        let places = match way {
            Way::NearlySorted => Vec::new(alloc),
            Way::Shuffled => shuffled(alloc, count)?,
        };
        Ok(Document {
            alloc,
            count,
            places,
        })
    }

    /// How many triples there are.
    pub fn count(&self) -> u32 {
        self.count
    }

    fn subject(&self, number: u64) -> Result<TermText, Refusal> {
        let text = format!(in self.alloc; "http://example.org/resource/item{number:013}")?;
        TermText::iri(self.alloc, text.as_str())
    }

    fn predicate(&self, number: u64) -> Result<TermText, Refusal> {
        let text = format!(in self.alloc;
            "http://xmlns.example.org/words/0.1/predicate{number:02}"
        )?;
        TermText::iri(self.alloc, text.as_str())
    }

    /// A literal of a language, whose first word is drawn.
    fn literal(&self, number: u64) -> Result<TermText, Refusal> {
        let first = WORDS[(mixed(number) % 16) as usize];
        let second = WORDS[(mixed(number) / 16 % 16) as usize];
        let text = format!(in self.alloc; "{first} {second} is the title of {number:013}")?;
        TermText::literal(self.alloc, text.as_str(), None, Some("en"))
    }

    /// The object of a place: two new literals for a group, and else a literal of few or a subject.
    fn object(&self, place: u64) -> Result<TermText, Refusal> {
        let drawn = mixed(place ^ 0x5555_0000);
        match place % GROUP {
            0 | 3 => self.literal(place),
            1 | 4 => self.literal(u64::MAX / 2 + drawn % 1_000),
            _ => self.subject(drawn % (u64::from(self.count) / GROUP + 1)),
        }
    }

    /// The terms of the triple at a place.
    pub fn terms(&self, at: u32) -> Result<Terms, Refusal> {
        let place = match self.places.get(at as usize) {
            Some(other) => u64::from(*other),
            None => u64::from(at),
        };
        let group = place / GROUP;
        Ok(Terms {
            subject: self.subject(subject_of(group))?,
            predicate: self.predicate(mixed(place) % 31)?,
            object: self.object(place)?,
        })
    }
}
