//! Versions that ended, and how many of their nodes and records a Reclaim frees.
use crate::rules::Lie;
use std::alloc::{AllocError, Global};

/// How many seats there are.
pub const SEATS: usize = 4;

/// The commit number at the pin of each seat's read.
pub type Pins = [Option<u64>; SEATS];

/// A version of a graph: the commits that made it and that ended it, and how many of its nodes and its record
/// are not freed.
#[derive(Clone, Copy, Drop)]
struct Ended {
    birth: u64,
    death: u64,
    size: u64,
}

/// The versions that ended, where each commit gives a graph a tree of its own.
#[derive(Drop)]
pub struct Versions {
    ended: Vec<Ended>,
    /// Nodes and records that no pinned version has, and none will.
    loose: u64,
}

/// The newest of these pins alone.
fn newest_alone(pins: &Pins) -> Pins {
    let mut newest = None;
    for pin in pins {
        if let Some(version) = *pin {
            newest = match newest {
                Some(other) if version < other => Some(other),
                _ => Some(version),
            };
        }
    }
    [newest, None, None, None]
}

/// Whether a version was current at this commit.
fn was_current(version: &Ended, commit: u64, lie: Lie) -> bool {
    let has_begun = if lie == Lie::BeginsLate {
        version.birth < commit
    } else {
        version.birth <= commit
    };
    let goes_on = if lie == Lie::EndsLate {
        commit <= version.death
    } else {
        commit < version.death
    };
    has_begun && goes_on
}

fn is_held(version: &Ended, pins: &Pins, lie: Lie) -> bool {
    pins.iter().any(|pin| match pin {
        None => false,
        Some(commit) => was_current(version, *commit, lie),
    })
}

impl Versions {
    /// None yet.
    pub fn new(alloc: Global) -> Versions {
        Versions {
            ended: Vec::new(alloc),
            loose: 0,
        }
    }

    /// A version of so many nodes, with its record, was made by a commit, and ended by another.
    pub fn end(&mut self, birth: u64, death: u64, size: u64) -> Result<(), AllocError> {
        let ended = Ended { birth, death, size };
        self.ended.push(ended).map_err(AllocError::from)
    }

    /// So many nodes and records are of no version.
    pub fn add_loose(&mut self, size: u64) {
        self.loose = self.loose.saturating_add(size);
    }

    /// How many nodes and records a Reclaim frees that may free so many, under these pins. What no pin has is
    /// never had by a later one.
    pub fn free(&mut self, most: u64, pins: &Pins, lie: Lie) -> u64 {
        let counted = if lie == Lie::NewestPinAlone {
            newest_alone(pins)
        } else {
            *pins
        };
        for version in &mut self.ended {
            if version.size > 0 && !is_held(version, &counted, lie) {
                self.loose = self.loose.saturating_add(version.size);
                version.size = 0;
            }
        }
        let freed = most.min(self.loose);
        self.loose = self.loose.saturating_sub(freed);
        freed
    }
}
