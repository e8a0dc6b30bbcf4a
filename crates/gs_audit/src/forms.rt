//! What a page will store of an event, made before the event is taken.
ghost use Rattle.std.specs.Prelude.{◌≡◌, IfSome};
ghost use Rattle.gs_audit.specs.Forms.{IsFormOf, action_counts, counts};

use gs_chronicle::{KeptOp, forms_of, list_size, ops_size};
use gs_event::{Action, Event};
use gs_small_triples::SmallTriples;
use std::alloc::Global;

/// How a page keeps what an event brings.
#[derive(Debug, Drop)]
pub enum Form {
    /// The small form of a list that is staged.
    List(SmallTriples),
    /// How the operations of a patch are kept.
    Ops(Vec<KeptOp>),
}

impl Form {
    ghost use Rattle.std.specs.Prelude.{IfSome};
    ghost use Rattle.gs_audit.specs.Forms.{IsFormOf};

    /// The form of what an event brings. `None` for one that brings neither a list nor operations, for more
    /// than 1,024 operations, and where memory is refused: then a list is packed as it is staged, and
    /// operations are kept as they came. Linear in what the event brings.
    pub fn of(alloc: Global, event: &Event) -> Option<Form>
        ensures { IfSome result (IsFormOf event.now) }
    {
        match event {
            Event::Seat(_, Action::Stage(list)) => {
                Some(Form::List(SmallTriples::of(alloc, list).ok()?))
            }
            Event::Seat(_, Action::CommitPatch(ops)) => Some(Form::Ops(forms_of(alloc, ops)?)),
            _ => None,
        }
    }
}

/// As how many triples counts what an action brings.
fn count_in(action: &Action) -> usize
    ensures { result ≡ action_counts action.now }
{
    match action {
        Action::Stage(list) => list_size(list),
        Action::CommitPatch(ops) => ops_size(ops),
        _ => 0,
    }
}

/// As how many triples an event counts that stages a list or commits operations. 0 for another event. Linear in
/// its triples and patterns.
pub fn count_of(event: &Event) -> usize
    ensures { result ≡ counts event.now }
{
    match event {
        Event::Seat(_, action) => count_in(action),
        Event::Reclaim(_) => 0,
    }
}
