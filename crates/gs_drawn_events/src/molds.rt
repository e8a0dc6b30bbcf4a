//! Patterns as the generator and a model have them.

/// What stands at one place of a pattern: a term, or a variable.
#[derive(Clone, Copy, Drop)]
pub enum Slot {
    Term(u8),
    Variable(usize),
}

/// A pattern: its subject, its predicate and its object.
#[derive(Clone, Copy, Drop)]
pub struct Mold {
    pub slots: [Slot; 3],
}

/// How many variables there are.
pub const VARIABLES: usize = 3;
