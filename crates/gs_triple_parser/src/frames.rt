//! The stack of the machine.

use gs_triple_values::Language;
/// What stands next within a statement, in so many brackets.
#[derive(Drop)]
pub enum Goal<L: Language> {
    /// An object of this subject and verb.
    Object(usize, L::Subject, L::Verb),
    /// After the `[` of a blank node of this number.
    Inside(usize, u64),
    /// A verb of this subject.
    Verbs(usize, L::Subject),
    /// After an object of this subject and verb: the symbol decides which of them stay, so that the
    /// others go into their triple and are not copied.
    After(usize, L::Subject, L::Verb, L::Value),
    /// After a `;`.
    Semis(usize, L::Subject),
    /// After the `(` of a collection.
    Begun(usize),
    /// After an object of a collection, with the numbers of its first cell and of this one.
    Items(usize, u64, u64),
}

/// What is done with an object, which may be any value, once it is read.
#[derive(Drop)]
pub enum Slot<L: Language> {
    /// The object of this subject and verb.
    ToObject(usize, L::Subject, L::Verb),
    /// The object of the first cell of a collection, which has this number.
    ToFirst(usize, u64),
    /// The object of a further cell: the numbers of the first cell, of the one before, and of
    /// this one.
    ToItem(usize, u64, u64, u64),
}

/// What is done with a blank node or a collection, or with a list of verbs, once it ends.
#[derive(Drop)]
pub enum Frame<L: Language> {
    /// An object that is written in brackets or parentheses.
    ToSlot(Slot<L>),
    /// The properties of a blank node that is an object.
    ToClose(u64),
    /// A collection that is a subject.
    ToVerbs,
    /// The properties of a blank node that opens a statement.
    ToMore(u64),
}
