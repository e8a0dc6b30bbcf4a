//! Patterns by number.
use gs_term::VariableName;

/// What stands at one place of a pattern: the number of a term, or a variable.
#[derive(Clone, Copy)]
pub enum Item<'a> {
    Number(u32),
    Variable(&'a VariableName),
}

/// A pattern whose terms all have numbers.
#[derive(Clone, Copy)]
pub struct Sought<'a> {
    pub subject: Item<'a>,
    pub predicate: Item<'a>,
    pub object: Item<'a>,
}
