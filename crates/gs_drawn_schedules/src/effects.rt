//! What an event did on a store that is judged, and on a plain store.
use crate::findings::{Kind, Moment, Stop};
use gs_event::Answer;
use gs_version_models::{Growth, Said, answer_words, is_said, is_same, said_words};

/// What a store counts.
#[derive(Clone, Copy, Drop)]
pub struct Counts {
    /// Nodes and records in use.
    pub nodes: u64,
    /// Triples of the current graphs.
    pub triples: u64,
}

/// What an event did on a store.
#[derive(Drop)]
pub struct Effect {
    pub answer: Answer,
    pub before: Counts,
    pub after: Counts,
}

impl Effect {
    /// As many nodes and records are in use as may be after this.
    pub fn check_growth(&self, moment: Moment, growth: Growth) -> Result<(), Stop> {
        let before = self.before.nodes;
        let after = self.after.nodes;
        match growth {
            Growth::Exactly(new) => {
                moment.same_numbers(Kind::Growth, after, before.saturating_add(new))
            }
            Growth::AtMost(new) => moment.no_more(Kind::Growth, after, before.saturating_add(new)),
            Growth::Fewer(gone) => {
                moment.same_numbers(Kind::Growth, after.saturating_add(gone), before)
            }
            Growth::Exchanged(gone, new) => {
                let given_back = after.saturating_add(gone);
                moment.no_more(Kind::Growth, given_back, before.saturating_add(new))
            }
        }
    }

    /// How many nodes and records a Reclaim freed, which are exactly those that are no more in use, and whether
    /// waste is left.
    pub fn freed(&self, moment: Moment) -> Result<(u64, bool), Stop> {
        let Answer::Reclaimed(freed, left) = self.answer else {
            let got = answer_words(moment.alloc, &self.answer)?;
            return Err(moment.other_texts(Kind::Freed, got, "reclaimed")?);
        };
        let both = self.after.nodes.saturating_add(freed);
        moment.same_numbers(Kind::Freed, both, self.before.nodes)?;
        Ok((freed, left))
    }
}

/// What an event did on both stores.
#[derive(Drop)]
pub struct Effects {
    pub judged: Effect,
    pub plain: Effect,
}

impl Effects {
    /// Nodes and records that were in use before the event, beyond those of graphs and of open uploads and
    /// patches.
    pub fn waste_before(&self) -> u64 {
        let judged = self.judged.before.nodes;
        judged.saturating_sub(self.plain.before.nodes)
    }

    /// The same after the event.
    pub fn waste(&self) -> u64 {
        let judged = self.judged.after.nodes;
        judged.saturating_sub(self.plain.after.nodes)
    }

    /// The two stores answer alike, and as the model says.
    pub fn check_answers(&self, moment: Moment, said: &Said) -> Result<(), Stop> {
        let answer = &self.judged.answer;
        if !is_same(answer, &self.plain.answer) {
            let by_plain = answer_words(moment.alloc, &self.plain.answer)?;
            return self.other_answer(moment, Kind::PlainAnswer, by_plain);
        }
        if !is_said(moment.alloc, answer, said)? {
            let by_model = said_words(moment.alloc, said)?;
            return self.other_answer(moment, Kind::Answer, by_model);
        }
        Ok(())
    }

    /// The store answers in the place of what is wanted.
    fn other_answer(&self, moment: Moment, kind: Kind, wanted: String) -> Result<(), Stop> {
        let got = answer_words(moment.alloc, &self.judged.answer)?;
        Err(moment.found(kind, got, wanted))
    }

    /// The plain store has nothing to free.
    pub fn check_plain_reclaim(&self, moment: Moment) -> Result<(), Stop> {
        if is_same(&self.plain.answer, &Answer::Reclaimed(0, false)) {
            return Ok(());
        }
        let got = answer_words(moment.alloc, &self.plain.answer)?;
        moment.same_texts(Kind::PlainAnswer, got, "reclaimed 0 done")
    }
}
