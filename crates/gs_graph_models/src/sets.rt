//! Sets of triples by number.
use gs_drawn_events::TRIPLES;

const BITS: [u16; TRIPLES] = [
    1, 2, 4, 8, 16, 32, 64, 128, 256, 512, 1_024, 2_048, 4_096, 8_192, 16_384, 32_768,
];

/// A set of these triples.
#[derive(Clone, Copy, Drop, PartialEq)]
pub struct Set {
    bits: u16,
}

fn bit(number: usize) -> u16 {
    BITS.get(number).copied().unwrap_or_default()
}

impl Set {
    /// No triple.
    pub fn none() -> Set {
        Set { bits: 0 }
    }

    /// The triples of a list, each once.
    pub fn of(numbers: &[usize]) -> Set {
        let mut bits = 0u16;
        for number in numbers {
            bits |= bit(*number);
        }
        Set { bits }
    }

    /// These and one more.
    pub fn and(self, number: usize) -> Set {
        Set {
            bits: self.bits | bit(number),
        }
    }

    /// These and the others.
    pub fn with(self, others: Set) -> Set {
        Set {
            bits: self.bits | others.bits,
        }
    }

    /// These without the others.
    pub fn without(self, others: Set) -> Set {
        Set {
            bits: self.bits & !others.bits,
        }
    }

    /// Those that are among the others too.
    pub fn within(self, others: Set) -> Set {
        Set {
            bits: self.bits & others.bits,
        }
    }

    /// Whether this triple is among them.
    pub fn has(self, number: usize) -> bool {
        self.bits & bit(number) != 0
    }

    /// How many there are.
    pub fn count(self) -> u64 {
        u64::from(self.bits.count_ones())
    }

    /// Without the first of them, so many.
    pub fn after(self, skipped: u64) -> Set {
        let mut left = self;
        let mut seen = 0u64;
        for number in 0..TRIPLES {
            if seen < skipped && self.has(number) {
                left = left.without(Set::none().and(number));
                seen = seen.saturating_add(1);
            }
        }
        left
    }

    /// The first of them, so many.
    pub fn first(self, count: u64) -> Set {
        self.without(self.after(count))
    }
}
