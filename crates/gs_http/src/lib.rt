//! Messages of HTTP/1.1: what the bytes of a head and of a chunk's size line say. No event is made here.
#![tactic(auto)]

mod chunks;
mod conditions;
mod connections;
mod fields;
mod framing;
mod heads;
mod laws;
mod spans;
mod trimming;
mod values;

pub use chunks::read_chunk_size;
pub use conditions::{Since, read_since};
pub use connections::{closes, expects_continue, has_one_host};
pub use framing::{Framing, body_framing};
pub use heads::{Head, read_head};
pub use laws::{chunk_line_of_is_the_grammar, head_of_is_the_grammar};
pub use trimming::{is_same_word, trim};
pub use values::{Only, one_value};
