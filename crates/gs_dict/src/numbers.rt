//! The number of a term.

/// The number of a term in one dictionary. Numbers begin at 0. No two terms have one number at once; one
/// whose term was swept may be given to another term.
#[derive(Clone, Copy, Debug, PartialEq, Eq, PartialOrd, Ord, Hash, Drop)]
pub struct TermId {
    pub number: u32,
}

/// What stands where a number is wanted and there is none. It is no term's number: numbers end at
/// 4,294,967,294.
pub const NO_TERM: TermId = TermId { number: u32::MAX };
