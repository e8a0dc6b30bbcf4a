//! What the model is told that is not so.

/// What the model is told that is not so, to show that it tells.
#[derive(Clone, Copy, Drop, PartialEq)]
pub enum Lie {
    Nothing,
    /// Of the pinned versions the newest alone has nodes and records.
    NewestPinAlone,
    /// The tree and the record that a PUT replaces are never wasted.
    PutLosesTree,
    /// A read has the lines of its graph, or of all, as they are now.
    ReadsMoveOn,
    /// A triple that comes again in a list takes a node of its own.
    RepeatsTakeNodes,
    /// A version still has its nodes and its record at the commit that ended it.
    EndsLate,
    /// A version does not have its nodes and its record at its own commit.
    BeginsLate,
    /// A read of all graphs needs no version.
    AllNeedNothing,
    /// Names stand in order without their closing brackets.
    BareNames,
    /// No write comes too late.
    NeverLate,
    /// A condition that holds at the Open is not asked again.
    LateByOpen,
    /// A name that is missing was never written.
    DeletesForgotten,
    /// A write that comes too late takes a commit number.
    LateCounts,
}

impl Lie {
    /// What the model is told, in words.
    pub fn text(self) -> &'static str {
        match self {
            Lie::Nothing => "nothing",
            Lie::NewestPinAlone => "the newest pin alone counts",
            Lie::PutLosesTree => "what a PUT replaces is lost",
            Lie::ReadsMoveOn => "a read follows the newest graph",
            Lie::RepeatsTakeNodes => "a repeat takes a node",
            Lie::EndsLate => "a version ends after its last commit",
            Lie::BeginsLate => "a version begins after its first commit",
            Lie::AllNeedNothing => "a read of all graphs needs no version",
            Lie::BareNames => "names are in order without brackets",
            Lie::NeverLate => "no write comes too late",
            Lie::LateByOpen => "a condition is asked at the Open alone",
            Lie::DeletesForgotten => "a name that is missing was never written",
            Lie::LateCounts => "a write that comes too late takes a commit number",
        }
    }
}
