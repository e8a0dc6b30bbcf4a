//! By what a schedule is judged.
use std::alloc::Global;

/// What the model is told that is not so, to show that it tells.
#[derive(Clone, Copy, Drop, PartialEq)]
pub enum Lie {
    Nothing,
    PostReplaces,
    /// A read has the lines of its end, and not of its pin.
    ReadsMoveOn,
    /// An upload whose connection is dropped counts as committed.
    DroppedUploadsCount,
    /// An upload with a fault counts as a DELETE of its graph.
    FaultsRemove,
    /// A line has no name where all graphs are read.
    LinesHaveNoName,
    /// What one connection writes is taken for what the next one writes.
    NeighboursAnswer,
    /// No write comes too late.
    NeverLate,
    /// A condition that is none is not read.
    FaultyConditionsHold,
}

impl Lie {
    /// What the model is told, in words.
    pub fn text(self) -> &'static str {
        match self {
            Lie::Nothing => "nothing",
            Lie::PostReplaces => "a POST replaces",
            Lie::ReadsMoveOn => "a read shows the state at its end",
            Lie::DroppedUploadsCount => "an upload that is dropped counts",
            Lie::FaultsRemove => "an upload with a fault removes its graph",
            Lie::LinesHaveNoName => "a read of all graphs names none",
            Lie::NeighboursAnswer => "a reply goes to the next connection",
            Lie::NeverLate => "no write comes too late",
            Lie::FaultyConditionsHold => "a condition that is none is not read",
        }
    }
}

/// By what a schedule is judged.
#[derive(Clone, Copy, Drop)]
pub struct Rules {
    pub alloc: Global,
    /// How many lines a piece of a read has.
    pub piece: u32,
    pub lie: Lie,
}
