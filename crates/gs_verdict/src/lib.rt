//! What the head of a request asks for, or how it is denied: the checks of a head in their order. No event is made here.
#![tactic(auto)]

mod checks;
mod judging;
mod methods;
mod reading;
mod verdicts;

pub use checks::limit_of;
pub use judging::judge_head;
pub use methods::{Allow, Method};
pub use reading::read_verdict;
pub use verdicts::{Asked, Denial, Verdict};
