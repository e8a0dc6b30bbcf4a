//! The texts of replies.
#![tactic(auto)]

mod replies;

pub use replies::{
    ReplyNote, chunk_after, continue_text, push_last_chunk, push_lines_head, push_reply,
};
