//! Tables of rows, as text: what is said of a text, an arrow, and the text. A name may stand before,
//! with § after it.
use crate::meanings::{Form, is_meant, is_parted};
use crate::readings::{has_dotted, has_settled, has_tokens};
use std::alloc::Global;

/// What the rows of a table say of their texts.
#[derive(Clone, Copy)]
pub enum Of {
    /// Which tokens a text has, or its fault.
    Tokens { updates: bool },
    /// Which tokens a text has before a dot.
    Dotted { updates: bool },
    /// How many of a text's tokens no more text can change.
    Settled { updates: bool },
    /// What a token's text means, or that it means nothing.
    Meaning(Form),
    /// The parts of a name, with / between, or that there are none.
    Parts,
}

/// Whether it is so.
fn is_so(alloc: Global, of: Of, said: &str, text: &str) -> bool {
    match of {
        Of::Tokens { updates } => has_tokens(alloc, updates, text.as_bytes(), said, ""),
        Of::Dotted { updates } => has_dotted(alloc, updates, text, said),
        Of::Settled { updates } => has_settled(alloc, updates, text.as_bytes(), said),
        Of::Meaning(form) => is_meant(alloc, form, text.as_bytes(), said),
        Of::Parts => is_parted(text.as_bytes(), said),
    }
}

/// What follows the name, if there is one.
fn after_name(said: &str) -> &str {
    match said.split_once('§') {
        Some((_name, said)) => said,
        None => said,
    }
}

/// The first row of a table that is wrong, or what is said where the table has not so many rows. This
/// character stands between two.
pub fn wrong_row(
    alloc: Global,
    of: Of,
    table: &'static str,
    between: char,
    rows: usize,
) -> Option<&'static str> {
    let mut count = 0usize;
    for row in table.split(between) {
        if let Some((said, text)) = row.split_once('→') {
            if !is_so(alloc, of, after_name(said), text) {
                return Some(row);
            }
            count = count.saturating_add(1);
        }
    }
    if count == rows {
        None
    } else {
        Some("a table without all its rows")
    }
}
