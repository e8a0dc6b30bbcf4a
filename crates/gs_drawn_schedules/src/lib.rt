//! Schedules for tests, whose events are drawn one by one, what is found of them, and what is counted.
#![tactic(auto)]

mod effects;
mod findings;
mod judging;
mod plays;
mod scripts;
mod totals;

pub use effects::{Counts, Effect, Effects};
pub use findings::{Kind, Moment, Stop};
pub use judging::Judge;
pub use plays::{Play, Subject, effect, on_both, start_of};
pub use totals::Totals;
