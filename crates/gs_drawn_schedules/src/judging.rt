//! What the store and the plain store answer and count, judged by the model, one event after another.
use crate::effects::{Counts, Effects};
use crate::findings::{Kind, Moment, Stop};
use crate::scripts::seats;
use crate::totals::Totals;
use gs_drawn_events::{Ask, SORT_NAMES, sort_of};
use gs_event::Limits;
use gs_version_models::{Lie, Model};
use std::alloc::Global;

/// What is known of the store that is judged.
#[derive(Drop)]
pub struct Judge {
    alloc: Global,
    pub model: Model,
    /// Each commit gives a graph a tree of its own, so the model knows how many nodes and records can be
    /// freed.
    is_exact: bool,
    /// The number of the event at hand.
    pub step: usize,
    /// At least so many nodes and records of the waste are needed by no pinned version.
    sure: u64,
}

impl Judge {
    /// The judge of a new store, which begins after the commit of this number.
    pub fn new(alloc: Global, is_exact: bool, start: u64, limits: Limits, lie: Lie) -> Judge {
        Judge {
            alloc,
            model: Model::new(alloc, start, limits, lie),
            is_exact,
            step: 0,
            sure: 0,
        }
    }

    fn moment(&self, seat: u16, ask: &'static str) -> Moment {
        Moment {
            alloc: self.alloc,
            step: self.step,
            seat,
            ask,
        }
    }

    /// A seat was asked this.
    pub fn take(
        &mut self,
        seat: u16,
        ask: &Ask,
        effects: &Effects,
        totals: &mut Totals,
    ) -> Result<(), Stop> {
        let name = SORT_NAMES.get(sort_of(ask)).copied().unwrap_or_default();
        let moment = self.moment(seat, name);
        let is_stale = self.model.is_stale(seat);
        let outcome = self.model.step(seat, ask)?;
        effects.check_answers(moment, &outcome.said)?;
        totals.note(ask, &outcome.said, is_stale);
        effects.judged.check_growth(moment, outcome.growth)?;
        self.check_counts(moment, effects)?;
        self.note_waste(effects.waste(), outcome.unreached);
        Ok(())
    }

    /// So many nodes and records are waste, and so many of them are new and reached no version.
    fn note_waste(&mut self, waste: u64, unreached: u64) {
        self.sure = if self.model.has_pin() {
            self.sure.saturating_add(unreached)
        } else {
            waste
        };
    }

    /// The counts are those of the plain store and of the model, besides the waste.
    fn check_counts(&self, moment: Moment, effects: &Effects) -> Result<(), Stop> {
        let Counts { nodes, triples } = effects.judged.after;
        let plain = effects.plain.after;
        moment.same_numbers(Kind::Triples, triples, plain.triples)?;
        moment.same_numbers(Kind::Triples, triples, self.model.triples())?;
        moment.same_numbers(Kind::PlainNodes, plain.nodes, self.model.nodes())?;
        moment.no_less(Kind::FewNodes, nodes, plain.nodes)
    }

    /// A Reclaim might free so many nodes and records.
    pub fn reclaim(
        &mut self,
        most: u64,
        effects: &Effects,
        totals: &mut Totals,
    ) -> Result<(), Stop> {
        let moment = self.moment(seats(), "Reclaim");
        self.reclaim_at(moment, most, effects, totals)
    }

    fn reclaim_at(
        &mut self,
        moment: Moment,
        most: u64,
        effects: &Effects,
        totals: &mut Totals,
    ) -> Result<(), Stop> {
        effects.check_plain_reclaim(moment)?;
        let (freed, left) = effects.judged.freed(moment)?;
        let is_waste_left = effects.waste() > 0;
        moment.no_more(Kind::Freed, freed, most)?;
        moment.same_numbers(Kind::Left, u64::from(left), u64::from(is_waste_left))?;
        let free = most.min(effects.waste_before());
        self.check_freed(moment, most, free, freed)?;
        self.sure = self.sure.saturating_sub(freed);
        self.check_counts(moment, effects)?;
        totals.note_reclaim(freed, free, self.is_exact);
        Ok(())
    }

    /// A Reclaim has freed all that it may, which is all waste where there is no pin. In an exact schedule
    /// it is known how many nodes and records these are.
    fn check_freed(
        &mut self,
        moment: Moment,
        most: u64,
        free: u64,
        freed: u64,
    ) -> Result<(), Stop> {
        moment.no_less(Kind::TooFewFreed, freed, most.min(self.sure))?;
        if !self.model.has_pin() {
            moment.same_numbers(Kind::Freed, freed, free)?;
        }
        let by_versions = self.model.reclaim(most);
        if self.is_exact {
            moment.same_numbers(Kind::VersionsFreed, freed, by_versions)?;
        }
        Ok(())
    }

    /// All seats are cancelled, and all waste was freed: a node is left for each triple, and the records of
    /// graphs.
    pub fn finish(&mut self, effects: &Effects, totals: &mut Totals) -> Result<(), Stop> {
        let moment = self.moment(seats(), "the last Reclaim");
        self.reclaim_at(moment, u64::MAX, effects, totals)?;
        moment.same_numbers(Kind::Waste, effects.judged.after.nodes, self.model.nodes())
    }
}
