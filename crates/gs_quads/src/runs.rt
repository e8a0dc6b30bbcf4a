//! Keys of several graphs: what is read, and what was found.
ghost use Rattle.std.specs.Prelude.{◌≡◌, take, drop};

use gs_dict::Dict;
use gs_pool::{Key, Pool};
use gs_records::Records;

/// What is read: the texts of numbers, the nodes of trees, and the records of graphs.
#[derive(Clone, Copy)]
pub struct Source<'a> {
    pub dict: &'a Dict,
    pub pool: &'a Pool,
    pub records: &'a Records,
}

/// So many keys of one record's graph, one after another.
#[derive(Clone, Copy)]
pub struct Run {
    pub number: u32,
    pub keys: usize,
}

/// Keys of several graphs, and the runs that they make.
#[derive(Drop)]
pub struct Found {
    pub runs: Vec<Run>,
    pub keys: Vec<Key>,
}

/// The first keys, and those after them.
#[tactic(auto, using(crate::proofs::Lists::take_least, crate::proofs::Lists::drop_least))]
pub fn cut(keys: &[Key], n: usize) -> (&[Key], &[Key])
    ensures front { result.0.now ≡ take n keys.now }
    ensures back { result.1.now ≡ drop n keys.now }
{
    keys.split_at(n.min(keys.len()))
}
