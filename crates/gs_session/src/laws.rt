//! Laws of sessions, proved: each body is empty, and the contract is the law.
ghost use Rattle.gs_session.specs.Laws.{StoresFit, StoresRest, StoresAreLegal, SaysFrontAlways};

/// A store answers neither `BadSeat` nor `WrongPhase` in a conversation that begins at an idle seat,
/// where no other event comes between its own. A piece must have one line at least.
pub fn stores_fit()
    ensures { StoresFit }
{}

/// After such a conversation the store shows its seat as idle, where what was done says so: where no
/// request is left, and where the connection was given up.
pub fn stores_rest()
    ensures { StoresRest }
{}

/// What a seat does at a store goes on from what a legal history says, and makes a legal history. The
/// store shows what that one says.
pub fn stores_are_legal()
    ensures { StoresAreLegal }
{}

/// At any moment, what was written is a prefix of what is to be said.
pub fn fronts_at_any_time()
    ensures { SaysFrontAlways }
{}
