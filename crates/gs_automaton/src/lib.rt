//! The automaton that finds the tokens of Turtle and of SPARQL Update, and how far it reads a text.
#![tactic(auto)]

mod classes;
mod fronts;
mod moves;
mod numbers;
mod quotes;
mod runs;
mod scans;
mod states;
mod symbols;
mod terminals;
mod ways;

pub use classes::is_line_end;
pub use fronts::over_front;
pub use runs::{InIri, Run, run_end};
pub use scans::{Scan, read_on};
pub use states::{Left, Mark, State, Text};
pub use symbols::{Symbol, front_at};
pub use terminals::Terminal;
