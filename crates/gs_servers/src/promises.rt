//! What is known of a pass that a thread gives back.
use gs_shared::{Pass, Room};
use gs_workers::ServicePlan;
use std::snapshot::Snapshot;
use std::sync::ledger::Ledger;
use std::thread::Promise;

/// Connections were served so, from this pass on.
#[derive(Drop)]
pub(crate) struct Served<'a, C: Ledger, T: Ledger, B: Room> {
    pub(crate) before: Snapshot<Pass<C, T, B>>,
    pub(crate) plan: ServicePlan<'a>,
}

impl<'a, C: Ledger, T: Ledger, B: Room> Promise<Pass<C, T, B>> for Served<'a, C, T, B> {
    ghost use Rattle.gs_workers.specs.Served.{ServedOn};

    ghost kept_by = { λ p r. ServedOn (record { base = p.plan.base.now; piece = p.plan.piece })
        p.before.value.record r.record };
}

/// It has the seat of this pass, and was told nothing more.
#[derive(Drop)]
pub(crate) struct AsBefore<C: Ledger, T: Ledger, B: Room> {
    pub(crate) before: Snapshot<Pass<C, T, B>>,
}

impl<C: Ledger, T: Ledger, B: Room> Promise<Pass<C, T, B>> for AsBefore<C, T, B> {
    ghost use Rattle.gs_gates.specs.Records.{IsAsBefore};

    ghost kept_by = { λ p r. IsAsBefore p.before.value.record r.record };
}
