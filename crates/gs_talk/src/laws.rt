//! Laws of the definitions, proved: each body is empty, and the contract is the law.
ghost use Rattle.gs_talk.specs.Laws.{PointsAreAsks, RestsIdle};

/// What the abstract store is asked in a conversation is what its requests ask, on the conditions that
/// they have, in their order, each at most once: a graph or operations that a body means, under the
/// number that the store gave to it.
pub fn points_are_asks()
    ensures { PointsAreAsks }
{}

/// Where no request is left the seat is idle, unless the door gave an answer that no store gives to
/// a session that has a seat for itself.
pub fn seat_rests_idle()
    ensures { RestsIdle }
{}
