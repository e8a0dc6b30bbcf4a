//! What may stand in triples.

/// What may stand in triples, beside terms.
#[derive(Clone, Copy)]
pub struct Allowed {
    /// Labels, brackets, and collections with an object.
    pub nodes: bool,
    /// A collection with an object, alone.
    pub lone_lists: bool,
}
