//! The records.
ghost use Rattle.std.specs.Prelude.{◌≡◌, ◌+◌, ◌<◌, ◌≤◌, false, [], min, length, take, filter, IfOk, IfErr, IfSome, OnErr, MatchResult};
ghost use Rattle.gs_model.specs.Limits.{last_node, last_number};
ghost use Rattle.gs_catalogue.specs.Catalogues.{version_at};
ghost use Rattle.gs_index.specs.Indexes.{is_listed, numbers_after};
ghost use Rattle.gs_records.specs.Records.{opened, kept, Recorded, record_at};
ghost use Rattle.gs_records.specs.Graphs.{current};
ghost use Rattle.gs_records.specs.Births.{birth_at, births_of};
ghost use Rattle.gs_records.specs.Kept.{HasNoCurrent};
ghost use Rattle.gs_records.specs.Calls.{is_nothing, Opens, GivesUp, RemovesVersion, Places, MakesCurrent, FindsCurrent};
ghost use Rattle.gs_records.specs.Reclaims.{ReclaimsRecords};

use crate::places::{grow, is_nothing_of, missing_version, name_of, node_of};
use crate::reclaiming::{Reclaimed, reclaim};
use gs_catalogue::GraphVersion;
use gs_index::{Entry, Index};
use gs_model::Refusal;
use gs_pool::Pool;
use gs_term::Target;
use gs_versions::Versions;
use std::alloc::Global;
use std::marker::Model;

/// Records of versions of graphs, each under a number. A record is open, from when an upload or a patch
/// begins until it is committed or given up; then it is that of a version of a graph, from the commit that
/// made it until the one that ended it. A version v of the dataset has the records where
/// birth ≤ v < death. What has ended stays under its number while a pinned version needs it.
#[derive(Drop)]
pub struct Records {
    pub(crate) index: Index,
    // A node for each number in use, with its birth. It is retired where its record has ended, or was
    // given up. The pool refuses a number past the last one.
    pub(crate) pool: Pool,
    // How many records are open.
    opened: usize,
    // The number of the last commit.
    pub(crate) latest: u64,
    // How many names there are now, and how many triples all graphs have. A `u64` holds that of any store,
    // but a caller may give any counts.
    pub(crate) names: usize,
    pub(crate) triples: u128,
}

impl Model for Records {
    ghost use Rattle.gs_records.specs.Records.{Recorded};

    ghost Value = { Recorded };

    ghost use Rattle.gs_records.specs.Stored.{records_by};
    ghost use Rattle.gs_records.specs.Counts.{IsKept};

    ghost view = { λ r. record {
      records = records_by r.index r.pool;
      listed = r.index.listed;
      latest = r.latest;
      limit = r.pool.limit;
    } };

    ghost invariant = { λ r. IsKept r.index r.pool r.opened r.latest r.names r.triples };
}

impl Records {
    /// No records, after so many commits, with numbers from 0 to `last` or to the greatest number of a node,
    /// and with a list of ended records for each of so many seats.
    pub fn new(alloc: Global, seats: u16, last: u32, commit: u64) -> Result<Records, Refusal>
        ensures { MatchResult result
            (λ r. r ≡ record {
              records = [];
              listed = [];
              latest = commit;
              limit = min last last_node + 1;
            })
            (λ e. e ≡ Refusal.NoMemory) }
    {
        let pool = Pool::with_lists(alloc, last, usize::from(seats))?;
        Ok(Records {
            index: Index::new(alloc),
            pool,
            opened: 0,
            latest: commit,
            names: 0,
            triples: 0,
        })
    }

    /// Opens a record, under a number that was free, and makes room for all open ones to be committed.
    /// That no number is left counts as want of memory.
    pub fn open(&mut self) -> Result<u32, Refusal>
        ensures ok { IfOk result (λ n. Opens self.old self.new n) }
        ensures refused { IfErr result (λ e. e ≡ Refusal.NoMemory) }
        ensures kept { OnErr result (self.new ≡ self.old) }
    {
        self.index.reserve(self.opened + 1)?;
        self.pool.reserve(1)?;
        grow(&mut self.index, &self.pool)?;
        let number = self.pool.alloc_reserved(node_of(0));
        self.opened += 1;
        Ok(number)
    }

    /// Gives an open record up. Takes no memory.
    pub fn give_up(&mut self, number: u32)
        requires { record_at self.old.records number ≡ opened }
        ensures { GivesUp self.old self.new number }
    {
        self.pool.retire_one(number, 0);
        self.opened -= 1;
    }

    /// The number of the current record of a graph. An empty default graph has none, as a graph that is
    /// missing.
    pub fn current(&self, target: &Target) -> Option<u32>
        ensures { FindsCurrent self.now.records target.now result }
    {
        // The length says of the listed numbers that they are in order, so the youngest is found first.
        if self.index.len() == 0 {
            return None;
        }
        let Some(number) = self.index.find(target, self.latest) else {
            return None;
        };
        if self.index.entry(number).death.is_some() {
            return None;
        }
        Some(number)
    }

    /// The current version of a target's graph, where it is not missing.
    pub fn get(&self, target: &Target) -> Option<GraphVersion>
        ensures { result ≡ version_at (current self.now.records) target.now }
    {
        match self.current(target) {
            Some(number) => Some(self.index.entry(number).version),
            None => missing_version(target),
        }
    }

    /// The number of the commit that made the current record of a target's graph, if it has one.
    pub fn birth(&self, target: &Target) -> Option<u64>
        ensures { result ≡ birth_at (births_of self.now.records) target.now }
    {
        let number = self.current(target)?;
        Some(self.index.entry(number).birth)
    }

    /// Ends the current record of a graph at a commit, where there is one. Takes no memory.
    pub fn remove(&mut self, target: &Target, commit: u64)
        requires { self.old.latest < commit }
        ensures { RemovesVersion self.old self.new target.now commit }
    {
        let Some(number) = self.current(target) else {
            self.latest = commit;
            return;
        };
        let gone = self.index.entry(number).version.triples;
        self.names -= name_of(target);
        self.triples -= u128::from(gone);
        self.index.end(number, commit);
        self.pool.retire_one(number, commit);
        self.latest = commit;
    }

    // An open record is that of a graph, made by the last commit, and not of an empty default graph.
    fn place(&mut self, number: u32, target: Target, version: GraphVersion)
        requires opened { record_at self.old.records number ≡ opened }
        requires none { HasNoCurrent self.old.records target }
        requires something { is_nothing target version ≡ false }
        requires after { 0 < self.old.latest }
        ensures { Places self.old self.new number target version }
    {
        self.names += name_of(&target);
        self.triples += u128::from(version.triples);
        self.pool.set(number, node_of(self.latest));
        let entry = Entry {
            target,
            version,
            birth: self.latest,
            death: None,
        };
        self.index.list(number, entry);
        self.opened -= 1;
    }

    /// Commits an open record: it is that of a graph, whose current record ends. No record is kept of an
    /// empty default graph: the open one is left as if it had been given up. Takes no memory.
    pub fn put(&mut self, number: u32, target: Target, version: GraphVersion, commit: u64)
        requires opened { record_at self.old.records number ≡ opened }
        requires later { self.old.latest < commit }
        ensures { MakesCurrent self.old self.new number target version commit }
    {
        self.remove(&target, commit);
        if is_nothing_of(&target, version) {
            self.give_up(number);
        } else {
            self.place(number, target, version);
        }
    }
    /// Frees as many of the records that ended or were given up as no pinned version needs, at most n.
    /// Their numbers are free, and the bytes of their names are given back. Takes no memory.
    pub fn reclaim(&mut self, versions: &Versions, n: u64) -> Reclaimed
        ensures { ReclaimsRecords versions.now.seats n result.freed result.left self.old self.new }
    {
        reclaim(&mut self.index, &mut self.pool, versions, n)
    }
}
