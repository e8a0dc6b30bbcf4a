//! What may happen in a world.

/// What may happen in a world. A connection is named by its number, from 0 on.
#[derive(Debug, Drop)]
pub enum WorldStep {
    /// The connection's next bytes come. After its end they are dropped.
    Bytes(u16, Vec<u8>),
    /// The connection takes its next turn.
    Turn(u16),
    /// No more bytes come to the connection.
    End(u16),
    /// The connection is given up: what it has open is cancelled, and nothing more is done for it.
    Drop(u16),
    /// The store frees so many nodes and records that nothing needs any more, or as many as there are.
    Reclaim(u64),
}
