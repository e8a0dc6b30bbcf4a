//! What the storage of a store begins with.
ghost use Rattle.std.specs.Prelude.{◌≡◌};

/// How a store spreads its terms, and how many nodes and terms it may have.
#[derive(Clone, Copy, Debug, PartialEq, Eq)]
pub struct Storage {
    /// Spreads the terms over the buckets of their table. It shows in nothing but time. Where strangers
    /// choose the terms, it is random and kept from them.
    pub seed: u64,
    /// The last number that a node may have, and at most 4,294,967,294.
    pub last_node: u32,
    /// The last number that a term may have, and at most 4,294,967,294.
    pub last_term: u32,
}

impl Storage {
    /// As many nodes and terms as there are numbers, and this seed.
    pub fn of_seed(seed: u64) -> Storage
        ensures seed { result.seed ≡ seed }
        ensures last_node { result.last_node ≡ 4294967294 }
        ensures last_term { result.last_term ≡ 4294967294 }
    {
        Storage {
            seed,
            last_node: u32::MAX - 1,
            last_term: u32::MAX - 1,
        }
    }
}
