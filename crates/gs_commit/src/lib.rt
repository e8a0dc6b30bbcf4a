//! How a commit ends in the pool: what it replaced dies, and every ledger goes on.
#![tactic(auto)]

mod commits;
mod laws;

pub use commits::{drop_tree, end_tree, keep_draft};
pub use laws::{
    a_leaf_is_no_upload, an_empty_pool_has_an_empty_ledger, ledgers_say_what_is_dead,
    restored_pools_keep_ledgers, roots_of_ledgers_can_be_retired, staging_keeps_ledgers,
};
