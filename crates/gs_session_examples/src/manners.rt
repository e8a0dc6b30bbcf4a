//! How a conversation is held.

/// What a client and the line do.
#[derive(Clone, Copy, Debug, Drop)]
pub enum Manner {
    /// All of the input comes at once.
    Whole,
    /// It comes in pieces of so many bytes.
    Pieces(usize),
    /// The client sends each request once all was said to the one before.
    Waits,
    /// A write takes one byte.
    SlowWrites,
    /// Each read and each write is interrupted twice before it is made; a read gives 7 bytes, and a
    /// write takes one.
    Interrupted,
    /// The input ends after so many bytes.
    EndsAfter(usize),
    /// The input comes in pieces of 7 bytes, and the read after so many fails.
    ReadFailsAfter(usize),
    /// A write takes one byte, and the one after so many bytes fails.
    WriteFailsAfter(usize),
    /// A write takes one byte, and the one after so many bytes takes none.
    WriteStopsAfter(usize),
}

impl Manner {
    /// The most bytes of a read.
    pub fn piece(self) -> usize {
        match self {
            Manner::Pieces(size) => size,
            Manner::Interrupted | Manner::ReadFailsAfter(_) => 7,
            _ => usize::MAX,
        }
    }

    /// How many reads there are before the one that fails.
    pub fn reads(self) -> usize {
        match self {
            Manner::ReadFailsAfter(reads) => reads,
            _ => usize::MAX,
        }
    }

    /// How many bytes of the input come at most.
    pub fn sent(self) -> usize {
        match self {
            Manner::EndsAfter(count) => count,
            _ => usize::MAX,
        }
    }

    /// The client waits for replies.
    pub fn waits(self) -> bool {
        matches!(self, Manner::Waits)
    }

    /// How often a read or a write is interrupted before it is made.
    pub fn interruptions(self) -> usize {
        match self {
            Manner::Interrupted => 2,
            _ => 0,
        }
    }

    /// The most bytes of a write.
    pub fn taken(self) -> usize {
        match self {
            Manner::SlowWrites
            | Manner::Interrupted
            | Manner::WriteFailsAfter(_)
            | Manner::WriteStopsAfter(_) => 1,
            _ => usize::MAX,
        }
    }

    /// How many bytes are written before the write that fails or takes none.
    pub fn written(self) -> Option<usize> {
        match self {
            Manner::WriteFailsAfter(count) | Manner::WriteStopsAfter(count) => Some(count),
            _ => None,
        }
    }

    /// The writes are counted, as each takes all that it is given.
    pub fn counts_writes(self) -> bool {
        matches!(self, Manner::Whole)
    }

    /// Not all of the input comes.
    pub fn is_cut(self) -> bool {
        matches!(self, Manner::EndsAfter(_) | Manner::ReadFailsAfter(_))
    }
}
