//! Passes: the right to act for a seat of a shared store, with receipts of what was decided.
#![tactic(auto)]

mod cells;
mod counted_ledgers;
mod knowledge;
mod notes;
mod passes;
mod receipt_rooms;
mod receipts;
mod records;
mod rooms;
mod stamp_logs;
mod stamps;
mod wholes;

pub use cells::{StampCell, Token, stamp_cell};
pub use counted_ledgers::CountedLedger;
pub use knowledge::Knowledge;
pub use passes::Pass;
pub use receipt_rooms::ReceiptRoom;
pub use receipts::Receipt;
pub use records::Record;
pub use rooms::Room;
pub use stamp_logs::StampLog;
pub use stamps::Stamp;
pub use wholes::Whole;
