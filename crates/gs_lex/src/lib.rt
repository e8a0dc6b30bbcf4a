//! The tokens of Turtle and of SPARQL Update, from a text that comes in any pieces, or that is at
//! hand whole.
#![tactic(auto)]

mod kinds;
mod laws;
mod lexers;
mod pieces;
mod plains;
mod readings;
mod runs;
mod steps;
mod texts;
mod tokens;
mod words;

pub use kinds::TokenKind;
pub use laws::{a_text_may_end, text_has_a_cut, text_has_one_cut, tokens_are_spans};
pub use lexers::Lexer;
pub use pieces::{Advance, PieceLexer};
pub use texts::{Next, TextLexer};
pub use tokens::{BorrowedToken, Token};
