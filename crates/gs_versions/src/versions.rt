//! The number of commits, and a pin for each seat.
ghost use Rattle.std.specs.Prelude.{◌≡◌, ◌+◌, ◌<◌, length, take, slice_get, slice_index_or, Some, None, MatchResult};
ghost use Rattle.std.specs.Bool.{Decides};
ghost use Rattle.gs_versions.specs.Pins.{LiesIn, IsNeeded, FindsPin, FindsSeat, unpinned, with_pin, at_commit};
ghost use Rattle.gs_model.specs.Limits.{last_number};

use gs_model::Refusal;
use std::alloc::Global;
use std::marker::Model;

/// The number of the last commit, which is the current version, and for each seat the version that
/// it has pinned.
#[derive(Drop)]
pub struct Versions {
    commit: u64,
    pins: Vec<Option<u64>>,
}

impl Model for Versions {
    ghost use Rattle.gs_versions.specs.Pins.{Pins};

    ghost Value = { Pins };

    ghost view = { λ v. record { commit = v.commit; seats = v.pins.items } };
}

/// Whether a version has what was born at `birth` and died at `death`.
pub fn lies_in(version: u64, birth: u64, death: u64) -> bool
    ensures { Decides result (LiesIn version birth death) }
{
    birth <= version && version < death
}

impl Versions {
    /// So many seats, none of which has pinned, after so many commits.
    pub fn new(alloc: Global, seats: u16, commit: u64) -> Result<Versions, Refusal>
        ensures { MatchResult result (λ v. v ≡ unpinned commit seats) (λ e. e ≡ Refusal.NoMemory) }
    {
        let pins = vec![in alloc; None; seats as usize]?;
        Ok(Versions { commit, pins })
    }

    /// The number of the last commit.
    pub fn commit(&self) -> u64
        ensures { result ≡ self.now.commit }
    {
        self.commit
    }

    /// How many seats there are.
    pub fn seats(&self) -> usize
        ensures { result ≡ length self.now.seats }
    {
        self.pins.len()
    }

    /// The version that a seat has pinned.
    pub fn pinned(&self, seat: u16) -> Option<u64>
        requires { seat < length self.now.seats }
        ensures { slice_get self.now.seats seat ≡ Some result }
    {
        self.pins[usize::from(seat)]
    }

    /// The version that a seat of this number has pinned, where there is such a seat.
    pub fn pin_at(&self, seat: usize) -> Option<u64>
        ensures { result ≡ slice_index_or self.now.seats seat None }
    {
        match self.pins.get(seat) {
            Some(pin) => *pin,
            None => None,
        }
    }

    /// Pins the current version for a seat, in place of what it had pinned.
    pub fn pin(&mut self, seat: u16)
        requires { seat < length self.old.seats }
        ensures { self.new ≡ with_pin self.old seat (Some self.old.commit) }
    {
        self.pins[seat as usize] = Some(self.commit);
    }

    /// Lets go what a seat has pinned.
    pub fn unpin(&mut self, seat: u16)
        requires { seat < length self.old.seats }
        ensures { self.new ≡ with_pin self.old seat None }
    {
        self.pins[seat as usize] = None;
    }

    /// The next commit. The last number of a commit is `gs_model::LAST_NUMBER`, which the caller
    /// tests.
    pub fn advance(&mut self)
        requires { self.old.commit < last_number }
        ensures { self.new ≡ at_commit self.old (self.old.commit + 1) }
    {
        self.commit += 1;
    }

    /// A seat whose pinned version has what was born at `birth` and died at `death`. `None` says that none
    /// has; so a death of 0 is needed by nobody. Linear in the seats.
    pub fn needing(&self, birth: u64, death: u64) -> Option<usize>
        ensures { FindsPin self.now.seats birth death result }
    {
        for seat in 0..self.pins.len() {
            if let Some(version) = self.pins[seat]
                && lies_in(version, birth, death)
            {
                return Some(seat);
            }
        }
        None
    }

    /// Whether the current version or a pinned one has what was born at `birth` and died at `death`.
    /// Linear in the seats.
    pub fn is_needed(&self, birth: u64, death: u64) -> bool
        ensures { Decides result (IsNeeded self.now birth death) }
    {
        lies_in(self.commit, birth, death) || self.needing(birth, death).is_some()
    }

    /// A seat that has this version pinned, among the first so many seats. `None` says that none of these
    /// has. Linear in the seats.
    pub fn seat_of(&self, version: u64, seats: usize) -> Option<usize>
        ensures { FindsSeat (take seats self.now.seats) version result }
    {
        for found in 0..self.pins.len().min(seats) {
            if self.pins[found] == Some(version) {
                return Some(found);
            }
        }
        None
    }
}
