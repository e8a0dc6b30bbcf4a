//! Answers that are kept: whether two lists have keys that go together.
ghost use Rattle.std.specs.Prelude.{◌≡◌, List, OnOk};
ghost use Rattle.gs_joins.specs.Answers.{kept_answer, AreRight, IsAnswer, KeepsAnswer};
ghost use Rattle.gs_joins.specs.declared.lots.Lot.{Lot};

use crate::questions::Question;
use std::alloc::{AllocError, Global};
use std::collections::BTreeMap;

/// How many answers are kept at most. With the nodes of their map they take some 6 MB.
const MAX_ANSWERS: usize = 65_536;

/// Answers to questions, and how many keys were looked at.
#[derive(Drop)]
pub struct Answers {
    kept: BTreeMap<Question, bool>,
    /// Keys that were tried, up to the greatest number of 64 bits. No clause speaks of it.
    pub looked: u64,
}

impl Answers {
    /// No answer yet. Takes no memory.
    pub fn new(alloc: Global) -> Answers
        ensures { (ls : List Lot) → AreRight ls result }
    {
        Answers {
            kept: BTreeMap::new(alloc),
            looked: 0,
        }
    }

    /// The answer that is kept, if one is. Logarithmic in their number.
    pub fn find(&self, question: &Question) -> Option<bool>
        ensures { result ≡ kept_answer self.now question.now }
    {
        self.kept.get(question).copied()
    }

    /// Keeps an answer. Where there are as many as may be, all others are let go.
    pub fn keep(&mut self, question: Question, found: bool) -> Result<(), AllocError>
        ensures { OnOk result (KeepsAnswer self.old self.new question found) }
    {
        if self.kept.len() >= MAX_ANSWERS {
            self.kept.clear();
        }
        self.kept.insert(question, found)?;
        Ok(())
    }
}
