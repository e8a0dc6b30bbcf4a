//! Worked schedules for tests, and whether the run of a schedule prints what it must.
#![tactic(auto)]

mod conditions;
mod datasets;
mod patches;
mod replays;
mod rows;

pub use conditions::CONDITIONS;
pub use datasets::DATASETS;
pub use patches::PATCHES;
pub use replays::{Stop, prints, unstopped_line, wrong_row};
pub use rows::{ROWS, Row};
