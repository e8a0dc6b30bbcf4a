//! A pass with its lock and a runtime, as a door.
use crate::shared_stores::SharedStore;
use gs_door::Door;
use gs_event::{Answer, Event};
use gs_pass::{Pass, Room};
use std::sync::Wait;
use std::sync::ledger::Ledger;

/// A door to a store that threads share: a lent runtime and a lent lock, with a pass.
pub struct PassDoor<'a, C: Ledger, T: Ledger, B: Room, R: Wait> {
    rt: &'a R,
    store: &'a SharedStore<C, T, B>,
    pass: Pass<C, T, B>,
}

impl<'a, C: Ledger, T: Ledger, B: Room, R: Wait> PassDoor<'a, C, T, B, R> {
    ghost use Rattle.std.specs.Prelude.{◌≡◌};
    ghost use Rattle.gs_shared.specs.Doors.{pass_of};

    /// The door of this pass.
    pub fn new(
        rt: &'a R,
        store: &'a SharedStore<C, T, B>,
        pass: Pass<C, T, B>,
    ) -> PassDoor<'a, C, T, B, R>
        ensures { pass_of result ≡ pass }
    {
        PassDoor { rt, store, pass }
    }

    /// The pass.
    pub fn pass(&self) -> &Pass<C, T, B>
        ensures { result.now ≡ pass_of self.now }
    {
        &self.pass
    }

    /// Takes the pass out.
    pub fn into_pass(self) -> Pass<C, T, B>
        ensures { result ≡ pass_of self.entry }
    {
        let PassDoor {
            rt: _,
            store: _,
            pass,
        } = self;
        pass
    }
}

impl<'a, C: Ledger, T: Ledger, B: Room, R: Wait> Door for PassDoor<'a, C, T, B, R> {
    ghost use Rattle.gs_door.specs.Kinds.{IsOfKind};
    ghost use Rattle.gs_pass.specs.Passes.{record_of};
    ghost use Rattle.gs_shared.specs.Doors.{pass_of};
    ghost use Rattle.gs_shared.specs.Tells.{Tells};

    ghost Gives = { λ old e a new. IsOfKind e a
        × Tells e a (record_of (pass_of old)) (record_of (pass_of new)) };

    fn event(&mut self, event: Event) -> Answer {
        self.store.event(self.rt, &mut self.pass, event)
    }

    fn seed(&self) -> u64 {
        self.store.seed
    }
}
