//! What a turn is to write.
use crate::replies::{CONTINUE, push_reply};
use std::alloc::{AllocError, Global};

/// A reply, as the model says it.
#[derive(Drop)]
pub struct Reply {
    pub status: u16,
    pub text: Vec<u8>,
    /// It is a read, and since its pin another connection has changed a graph.
    pub spans_write: bool,
    /// That graph was the one that it reads, or it reads all.
    pub is_stale: bool,
}

impl Reply {
    /// A reply that is no read.
    pub fn of(status: u16, text: Vec<u8>) -> Reply {
        Reply {
            status,
            text,
            spans_write: false,
            is_stale: false,
        }
    }

    /// A reply without a body, with a commit number where the store has decided it.
    pub fn plain(
        alloc: Global,
        status: u16,
        allow: &str,
        commit: Option<u64>,
        closes: bool,
    ) -> Result<Reply, AllocError> {
        let mut text = Vec::new(alloc);
        push_reply(&mut text, status, allow, commit, closes)?;
        Ok(Reply::of(status, text))
    }

    /// `100 Continue`.
    pub fn greeting(alloc: Global) -> Result<Reply, AllocError> {
        let mut text = Vec::new(alloc);
        text.extend_from_slice(CONTINUE)?;
        Ok(Reply::of(100, text))
    }

    /// Whether it is `100 Continue`.
    pub fn is_greeting(&self) -> bool {
        self.status == 100
    }
}

/// What a turn is to write.
#[derive(Drop)]
pub enum Due {
    Nothing,
    /// This or nothing: the turn may also be one that makes an event.
    May(Reply),
    Must(Reply),
}

impl Due {
    /// The reply, if one may be written.
    pub fn reply(&self) -> Option<&Reply> {
        match self {
            Due::Nothing => None,
            Due::May(reply) | Due::Must(reply) => Some(reply),
        }
    }

    /// Its text, which is empty where there is none.
    pub fn text(&self) -> &[u8] {
        match self.reply() {
            None => b"",
            Some(reply) => reply.text.as_slice(),
        }
    }
}
