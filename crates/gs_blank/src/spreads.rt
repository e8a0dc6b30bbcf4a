//! How labels are hashed.
use std::hash::{BuildHasher, DefaultHasher, Hasher};

/// Begins each hash with a seed.
#[derive(Drop)]
pub struct Spread {
    seeded: DefaultHasher,
}

impl Spread {
    /// Its hashes begin with this seed.
    pub fn new(seed: u64) -> Spread {
        let mut seeded = DefaultHasher::new();
        seeded.write_u64(seed);
        Spread { seeded }
    }
}

impl BuildHasher for Spread {
    type Hasher = DefaultHasher;

    ghost build_hasher = { λ s. s.seeded };

    fn build_hasher(&self) -> DefaultHasher {
        self.seeded
    }
}
