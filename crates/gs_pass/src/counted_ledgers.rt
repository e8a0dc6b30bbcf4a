//! A ledger whose number of parts is known.
use std::marker::Brand;
use std::sync::ledger::Ledger;

/// A ledger, with its number of parts under a name that a ghost field may use.
pub trait CountedLedger: Ledger {
    ghost use Rattle.std.specs.Prelude.{ℕ};

    ghost all: { ℕ };
}

impl CountedLedger for Brand {
    ghost all = { 0 };
}
