//! What the model says of an event: the answer, how many more or fewer nodes and records are in use then, and
//! how many become waste that no version reached.
use gs_graph_models::{Section, Set};
use gs_model::Refusal;

/// The most nodes that a triple takes where it comes to a graph or goes from it.
pub const MOST_FOR_TRIPLE: u64 = 260;

/// The most nodes that a triple takes which is new to a graph: its own, and eight copies for each of 32 binary digits.
pub const MOST_FOR_NEW: u64 = 257;

/// An answer, as the model has it.
#[derive(Drop)]
pub enum Said {
    Opened(u64),
    Staged,
    /// The number is that of the write's own commit, with 412 that of the last write on its graph, and else that
    /// of the last commit.
    Status(u16, u64),
    /// A graph was made under the name that is made up of this request and this number, by this commit.
    Made(u64, u64, u64),
    /// The last commit has this number.
    Pinned(u16, u64),
    /// The lines of these triples, and whether none are left after them.
    Lines(Set, bool),
    /// The lines of these sections, and the same.
    Quads(Vec<Section>, bool),
    Cancelled,
    Refused(Refusal),
}

/// How many nodes and records more, or fewer, are in use.
#[derive(Clone, Copy, Drop)]
pub enum Growth {
    Exactly(u64),
    AtMost(u64),
    Fewer(u64),
    /// So many are given back, and at most so many taken.
    Exchanged(u64, u64),
}

/// What is said of an event.
#[derive(Drop)]
pub struct Outcome {
    pub said: Said,
    pub growth: Growth,
    /// So many nodes and records become waste that no version reached.
    pub unreached: u64,
}

impl Outcome {
    /// An answer after which the number in use has grown so.
    fn grown(said: Said, growth: Growth) -> Outcome {
        Outcome {
            said,
            growth,
            unreached: 0,
        }
    }

    /// An answer after which as many nodes and records are in use as before.
    pub fn of(said: Said) -> Outcome {
        Outcome::grown(said, Growth::Exactly(0))
    }

    /// An Open with this request number, which takes a record.
    pub fn opened(request: u64) -> Outcome {
        Outcome::grown(Said::Opened(request), Growth::Exactly(1))
    }

    /// A list of which so many triples are new to its upload.
    pub fn staged(new: u64) -> Outcome {
        Outcome::grown(Said::Staged, Growth::Exactly(new))
    }

    /// The same of a refusal.
    pub fn refused(refusal: Refusal) -> Outcome {
        Outcome::of(Said::Refused(refusal))
    }

    /// An answer after which so many nodes are given back.
    pub fn given_back(said: Said, nodes: u64) -> Outcome {
        Outcome::grown(said, Growth::Fewer(nodes))
    }

    /// An answer after which so many nodes are given back, and so many triples are new to a graph.
    pub fn exchanged(said: Said, nodes: u64, new: u64) -> Outcome {
        let most = new.saturating_mul(MOST_FOR_NEW);
        Outcome::grown(said, Growth::Exchanged(nodes, most))
    }

    /// An answer after a change of so many triples.
    pub fn after_change(said: Said, triples: u64) -> Outcome {
        let most = triples.saturating_mul(MOST_FOR_TRIPLE);
        Outcome::grown(said, Growth::AtMost(most))
    }

    /// The same, after which so many nodes and records are waste that no version reached.
    pub fn with_unreached(self, unreached: u64) -> Outcome {
        let mut outcome = self;
        outcome.unreached = unreached;
        outcome
    }
}
