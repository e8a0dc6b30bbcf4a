//! What a session does next.
use crate::uploads::Upload;
use gs_transfer::Transfer;
use gs_verdict::Asked;

/// Of what there was no more.
#[derive(Clone, Copy, Debug, PartialEq)]
pub enum Want {
    Memory,
    Numbers,
}

/// Where the serving of a request stands.
#[derive(Drop)]
pub enum Work {
    /// The Open is due.
    Opening,
    /// A body that says nothing is dropped; then comes the Delete, the Head or the Pin.
    Skipping(Transfer),
    /// The body of an upload is read.
    Uploading(Upload, Transfer),
    /// It was read and staged whole: the Commit is due.
    Committing,
    /// The body of a patch is kept, up to its end; the number of its request stands first.
    Patching(u64, Vec<u8>, Transfer),
    /// What was opened is to be cancelled, and then the reply says why.
    Failing(Want),
    /// A read: the next piece is due.
    Sending,
    /// A read is to be cancelled, and nothing more is said than what is due.
    Cutting,
}

impl Work {
    /// Gives back what it owns.
    pub fn give_back(self) {
        drop(self);
    }
}

/// What a session does next.
#[derive(Drop)]
pub enum Phase {
    /// It waits for a head.
    Between,
    /// It serves a request.
    Serving(Asked, Work),
    /// The connection has ended.
    Over,
}
