//! That a ledger's parts are known.
ghost use Rattle.std.specs.Prelude.{◌≡◌};

use crate::counted_ledgers::CountedLedger;
use std::marker::PhantomData;

/// That a ledger has as many parts as its `CountedLedger` says.
#[derive(Drop)]
pub struct Whole<L: CountedLedger> {
    ledger: PhantomData<L>,
    ghost whole: { L.all ≡ L.parts },
}

impl<L: CountedLedger> Whole<L> {
    /// The fact, kept.
    pub fn new() -> Whole<L>
        requires { L.all ≡ L.parts }
    {
        Whole {
            ledger: PhantomData,
        }
    }
}
