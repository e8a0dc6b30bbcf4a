//! The triples that schedules speak of, and sets of them.
use crate::draws::Draws;

/// A triple: its bit in a set, its canonical line without the line feed, and how Turtle writes it with
/// a prefix `e:` for `http://e/`.
pub type Entry = (u16, &'static str, &'static str);

/// How many triples there are.
pub const POOL_SIZE: usize = 12;

/// In the order of their lines.
pub const POOL: [Entry; POOL_SIZE] = [
    (1, "<http://e/a> <http://e/p> \"1\" .", "e:a e:p \"1\" ."),
    (
        2,
        "<http://e/a> <http://e/p> \"a\\\"b\\\\c\\n\" .",
        "e:a e:p 'a\"b\\\\c\\u000A' .",
    ),
    (
        4,
        "<http://e/a> <http://e/p> \"two\"@en .",
        "e:a e:p \"two\"@EN .",
    ),
    (
        8,
        "<http://e/a> <http://e/p> <http://e/b> .",
        "e:a e:p e:b .",
    ),
    (
        16,
        "<http://e/a> <http://e/q> \"7\"^^<http://www.w3.org/2001/XMLSchema#integer> .",
        "e:a e:q 7 .",
    ),
    (
        32,
        "<http://e/a> <http://www.w3.org/1999/02/22-rdf-syntax-ns#type> <http://e/C> .",
        "e:a a e:C .",
    ),
    (64, "<http://e/b> <http://e/p> \"1\" .", "e:b e:p '1' ."),
    (
        128,
        "<http://e/b> <http://e/p> \"true\"^^<http://www.w3.org/2001/XMLSchema#boolean> .",
        "e:b e:p true .",
    ),
    (
        256,
        "<http://e/b> <http://e/p> <http://e/a> .",
        "<http://e/b> e:p <http://e/a> .",
    ),
    (
        512,
        "<http://e/c> <http://e/p> \"1.5\"^^<http://www.w3.org/2001/XMLSchema#decimal> .",
        "e:c e:p 1.5 .",
    ),
    (
        1_024,
        "<http://e/c> <http://e/p> \"é\" .",
        "e:c e:p \"\\u00E9\" .",
    ),
    (
        2_048,
        "<http://e/c> <http://e/q> <http://e/c> .",
        "e:c e:q e:c .",
    ),
];

/// A set of these triples.
#[derive(Clone, Copy, Drop, PartialEq)]
pub struct Triples {
    bits: u16,
}

impl Triples {
    /// No triples.
    pub fn none() -> Triples {
        Triples { bits: 0 }
    }

    /// At most so many triples.
    pub fn drawn(draws: &mut Draws, most: usize) -> Triples {
        let mut bits = 0u16;
        for _ in 0..draws.below(most.saturating_add(1)) {
            if let Some((bit, _, _)) = POOL.get(draws.below(POOL_SIZE)) {
                bits |= *bit;
            }
        }
        Triples { bits }
    }

    /// These and the others.
    pub fn with(self, others: Triples) -> Triples {
        Triples {
            bits: self.bits | others.bits,
        }
    }

    /// These without the others.
    pub fn without(self, others: Triples) -> Triples {
        Triples {
            bits: self.bits & !others.bits,
        }
    }

    /// Whether this triple is among them.
    pub fn has(self, entry: &Entry) -> bool {
        let (bit, _, _) = entry;
        self.bits & *bit != 0
    }

    /// How many there are.
    pub fn count(self) -> usize {
        let mut count = 0usize;
        for entry in &POOL {
            count = count.saturating_add(usize::from(self.has(entry)));
        }
        count
    }
}
