//! The tokens of N-Triples: their characters, what is held of one, and the term that it is.
#![tactic(auto)]

mod classes;
mod escapes;
mod forms;
mod labels;
mod laws;
mod names;
mod runs;
mod terms;
mod tokens;
mod wholes;

pub use classes::{begins_label, is_label_char, is_space, is_tag_char, may_stand_in_comment};
pub use escapes::{char_of, with_digit};
pub use labels::Label;
pub use laws::digits_make_the_number;
pub use names::Name;
pub use runs::{Between, Class, InComment, InIri, InLabel, InString, Wide, run_len, short_run_len};
pub use terms::{iri, plain, tagged, typed};
pub use tokens::Token;
pub use wholes::{iri_front, iri_len, label_front, literal_front, literal_len};
