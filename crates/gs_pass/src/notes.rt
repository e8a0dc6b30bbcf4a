//! What is done to the cell, under the lock.
ghost use Rattle.std.specs.Prelude.{◌≡◌, [], ◌∷◌, ◌++◌, length};
ghost use Rattle.crossbeam_utils.specs.Seq.{cell_view};
ghost use Rattle.gs_pass.specs.Stamps.{keeper as keeper_of, claimant, stamp_of, StandIn};

use crate::cells::{Appends, Compares, Hands, StampCell, Token};
use std::mem;
use std::sync::Wait;

/// Adds a stamp to all that the keeper knows, and to what the token claims. What the token claimed
/// before stands.
pub(crate) fn note<R: Wait>(
    rt: &R,
    cell: &StampCell,
    keeper: &mut Token,
    token: &mut Token,
    words: [u64; 4],
)
    requires keeper { (keeper.old.table_id ≡ cell.now.table.shared.table_id)
        × (cell_view keeper.old ≡ keeper_of (cell_view keeper.old).all []) }
    requires token { (token.old.table_id ≡ cell.now.table.shared.table_id) × (token.old.me.1 ≡ []) }
    ensures keeper { (keeper.new.table_id ≡ keeper.old.table_id)
        × (cell_view keeper.new ≡ keeper_of ((cell_view keeper.old).all ++ stamp_of words ∷ []) []) }
    ensures token { (token.new.table_id ≡ token.old.table_id)
        × (token.new.me.1 ≡ [])
        × (cell_view token.new
        ≡ claimant ((cell_view token.old).claims ++ (length (cell_view keeper.old).all, stamp_of words) ∷ [])) }
    ensures stand { StandIn (cell_view keeper.old).all (cell_view token.old).claims }
{
    let spare = cell.split_pass::<Hands>(keeper);
    let old = mem::replace(token, spare);
    cell.join_pass::<Hands>(keeper, old);
    cell.swap_as::<Appends, R>(rt, keeper, words);
    *token = cell.split_pass::<Hands>(keeper);
}

/// What the token claims stands.
pub(crate) fn compare<R: Wait>(rt: &R, cell: &StampCell, keeper: &mut Token, token: &mut Token)
    requires keeper { (keeper.old.table_id ≡ cell.now.table.shared.table_id)
        × (cell_view keeper.old ≡ keeper_of (cell_view keeper.old).all []) }
    requires token { (token.old.table_id ≡ cell.now.table.shared.table_id) × (token.old.me.1 ≡ []) }
    ensures keeper { (keeper.new.table_id ≡ keeper.old.table_id)
        × (cell_view keeper.new ≡ cell_view keeper.old) }
    ensures token { (token.new.table_id ≡ token.old.table_id)
        × (token.new.me.1 ≡ [])
        × (cell_view token.new ≡ claimant (cell_view token.old).claims) }
    ensures stand { StandIn (cell_view keeper.old).all (cell_view token.old).claims }
{
    let spare = cell.split_pass::<Hands>(keeper);
    let old = mem::replace(token, spare);
    cell.join_pass::<Hands>(keeper, old);
    cell.load_as::<Compares, R>(rt, keeper);
    *token = cell.split_pass::<Hands>(keeper);
}
