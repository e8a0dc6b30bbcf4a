//! Why a run does not end well.

/// Why a run ends with another status than 0.
#[derive(Clone, Copy, Debug, PartialEq)]
pub enum Stop {
    /// The words ask for nothing that the program does.
    BadArguments,
    /// The address cannot be listened at.
    CannotListen,
    /// Memory was wanted and not given.
    NoMemory,
    /// A read failed, or there were 2^64 - 1 turns and reads.
    ReadFailed,
    /// A write or a flush failed, or a write took nothing.
    WriteFailed,
}
