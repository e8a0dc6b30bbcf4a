//! Laws of worlds, proved: the body is empty, and the contract is the law.
ghost use Rattle.gs_world.specs.Happenings.{NothingFollowsADrop};
ghost use Rattle.gs_world.specs.Nodes.{RequestsShareNoNode};
ghost use Rattle.gs_world.specs.Resting.{TurnsRestWhereAllIsSaid};

/// Once a connection is dropped nothing more is done at its seat, by whichever steps.
pub fn nothing_follows_a_drop()
    ensures { NothingFollowsADrop }
{}

/// No two requests share a blank node, whichever connections bring them.
pub fn requests_share_no_node()
    ensures { RequestsShareNoNode }
{}

/// A turn that makes no event and writes nothing has nothing left to say: all that is to be said to what
/// came is written, and up to the first reply that closes or stops each settled request has its outcome.
pub fn turns_rest_where_all_is_said()
    ensures { TurnsRestWhereAllIsSaid }
{}
