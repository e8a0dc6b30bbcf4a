//! What is stored under a number.
ghost use Rattle.std.specs.Prelude.{◌≡◌, true, false};

/// What a tree is ordered by: a triple, each of its terms by number.
#[derive(Clone, Copy)]
pub struct Key {
    pub subject: u32,
    pub predicate: u32,
    pub object: u32,
}

/// A node of a tree. Its birth is the number of the commit that it was made for.
#[derive(Clone, Copy)]
pub struct Node {
    pub key: Key,
    pub left: Option<u32>,
    pub right: Option<u32>,
    pub height: u16,
    pub birth: u64,
}

/// A node that was retired, or that is set aside to be: its number, the commit that it died at, and
/// whether all nodes below it go with it.
#[derive(Clone, Copy)]
pub struct Retired {
    pub id: u32,
    pub death: u64,
    pub whole: bool,
}

impl Retired {
    /// A node alone.
    pub fn alone(id: u32, death: u64) -> Retired
        ensures { result ≡ record { id = id; death = death; whole = false } }
    {
        Retired {
            id,
            death,
            whole: false,
        }
    }

    /// A node with all nodes below it.
    pub fn tree(id: u32, death: u64) -> Retired
        ensures { result ≡ record { id = id; death = death; whole = true } }
    {
        Retired {
            id,
            death,
            whole: true,
        }
    }
}
