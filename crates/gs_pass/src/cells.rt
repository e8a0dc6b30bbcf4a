//! The cell that ties receipts to the history page. Its four words are the last stamp. They are
//! written under a lock alone, and read by nobody: the cell is there for the proof.
ghost use Rattle.std.specs.Prelude.{◌≡◌, [], IfOk};
ghost use Rattle.crossbeam_utils.specs.Seq.{cell_view};
ghost use Rattle.gs_pass.specs.Stamps.{keeper};

use crate::knowledge::Knowledge;
use atomic_table::{Join, Split};
use crossbeam_utils::atomic::seq_cell::{Pass, RuledSeqCell};
use crossbeam_utils::rule::{Outcome, Protocol};
use std::alloc::{AllocError, Global};

// The rule: one token at most knows all stamps, and what any token claims stands among them.
pub struct Stamped;

impl Protocol<[u64; 4], Knowledge> for Stamped {
    ghost use Rattle.std.specs.Prelude.{[]};
    ghost use Rattle.gs_pass.specs.Stamps.{keeper, KnowOneList};

    ghost holds = { KnowOneList };

    ghost first = { keeper [] [] };
}

// The keeper sets the next stamp, and claims it.
pub struct Appends;

impl Outcome<[u64; 4], Knowledge> for Appends {
    ghost use Rattle.gs_pass.specs.Stamps.{Appended};

    ghost then = { Appended };
}

// The keeper's claims stand.
pub struct Compares;

impl Outcome<[u64; 4], Knowledge> for Compares {
    ghost use Rattle.gs_pass.specs.Stamps.{Compared};

    ghost then = { Compared };
}

// The claims go from one token to the other.
pub struct Hands;

impl Split<Knowledge> for Hands {
    ghost use Rattle.gs_pass.specs.Stamps.{without_claims, claims_alone};

    ghost left = { without_claims };

    ghost right = { claims_alone };
}

impl Join<Knowledge> for Hands {
    ghost use Rattle.std.specs.Prelude.{[]};
    ghost use Rattle.gs_pass.specs.Stamps.{with_claims_of, claimant};

    ghost both = { with_claims_of };

    ghost spent = { claimant [] };
}

/// The cell.
pub type StampCell = RuledSeqCell<[u64; 4], Knowledge, Stamped, 4>;

/// A token of the cell: the keeper's, or one with claims.
pub type Token = Pass<[u64; 4], Knowledge>;

/// A cell with no stamp yet, and the token of its keeper.
pub fn stamp_cell(alloc: Global) -> Result<(StampCell, Token), AllocError>
    ensures { IfOk result (λ r. (r.1.table_id ≡ r.0.table.shared.table_id) × (cell_view r.1 ≡ keeper [] [])) }
{
    StampCell::ruled(alloc, [0, 0, 0, 0])
}
