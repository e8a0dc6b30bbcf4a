//! Where a parser of updates stands, and where a symbol leads from there.
#![tactic(auto)]

mod blocks;
mod operations;
mod passages;
mod places;
mod prologues;
mod rejections;

pub use blocks::{Block, BlockTurn};
pub use places::{Form, Place};
pub use rejections::Rejection;
