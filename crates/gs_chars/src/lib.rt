//! The classes of characters of Turtle, N-Triples and IRIs, and what their escapes mean.
#![tactic(auto)]

mod classes;
mod escapes;
pub mod marks;

pub use classes::{is_iri_char, is_pn_chars, is_pn_chars_base, is_pn_chars_u};
pub use escapes::{echar_meaning, hex_value, is_line_end};
