//! The body of a request, out of its transfer: by length, or in chunks, in pieces that are cut anywhere.
#![tactic(auto)]

mod laws;
mod places;
mod trailers;
mod transfers;

pub use laws::{chunked_is_the_grammar, settled_stays, sized_is_the_front};
pub use places::Transfer;
pub use transfers::{Part, first_line_feed};
