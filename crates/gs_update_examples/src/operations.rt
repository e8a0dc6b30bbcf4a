//! Operations as they are compared: their forms, and their triples or patterns as lines.

/// The form of an operation.
#[derive(Clone, Copy, PartialEq, Eq)]
pub enum Form {
    InsertData,
    DeleteData,
    DeleteWhere,
}

/// An operation, with its lines without their line feeds, sorted: a triple once, and a pattern as
/// often as it stands there.
#[derive(Drop)]
pub struct Operation {
    pub form: Form,
    pub lines: Vec<Vec<u8>>,
    /// In a case, so many lines are wanted, and these are not listed.
    pub count: Option<usize>,
}

impl Operation {
    fn is_as_wanted(&self, wanted: &Operation) -> bool {
        let is_same = match wanted.count {
            Some(count) => self.lines.len() == count,
            None => self.lines.as_slice() == wanted.lines.as_slice(),
        };
        self.form == wanted.form && is_same
    }
}

/// Whether these are the operations of a case.
pub fn are_as_wanted(found: &[Operation], wanted: &[Operation]) -> bool {
    found.len() == wanted.len()
        && found
            .iter()
            .zip(wanted)
            .all(|(one, other)| one.is_as_wanted(other))
}
