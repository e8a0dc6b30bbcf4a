//! What the lock and the passes of a new store are made of.
ghost use Rattle.std.specs.Prelude.{◌≡◌, []};
ghost use Rattle.crossbeam_utils.specs.Seq.{cell_view};
ghost use Rattle.gs_pass.specs.Stamps.{keeper as keeper_of};

use gs_pass::{StampCell, Token};
use std::sync::ledger::Blank;

/// A cell with no stamp yet, with the token of its keeper, and two ledgers that no type stands for yet:
/// of calls, and of triples.
#[derive(Drop)]
pub struct SharedParts {
    pub(crate) cell: StampCell,
    pub(crate) keeper: Token,
    pub(crate) calls: Blank,
    pub(crate) triples: Blank,
    ghost of_cell: { keeper.table_id ≡ cell.table.shared.table_id },
    ghost unstamped: { cell_view keeper ≡ keeper_of [] [] },
}
