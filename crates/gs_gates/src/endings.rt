//! Which answers end an upload, a patch, a Delete or a read, so that something may be left to reclaim.
ghost use Rattle.std.specs.Prelude.{◌≡◌};
ghost use Rattle.gs_event.specs.declared.events.Event.{Event as AnEvent};
ghost use Rattle.gs_gates.specs.Endings.{awaited_of, comes_with, is_ending};

use gs_event::{Action, Answer, Event};

/// The answer that ends what an event is about: it is read off the event before that is taken.
#[derive(Clone, Copy)]
pub(crate) enum Awaited {
    /// A status.
    Status,
    /// That it is cancelled.
    Cancelled,
    /// The last lines.
    LastLines,
    /// None does.
    Nothing,
}

impl Awaited {
    /// The answer that ends what this event is about.
    pub(crate) fn by(event: &Event) -> Awaited
        ensures value { result ≡ awaited_of event.now }
    {
        let Event::Seat(_, action) = event else {
            return Awaited::Nothing;
        };
        match action {
            Action::Commit | Action::CommitPatch(_) | Action::Delete(_, _) => Awaited::Status,
            Action::Cancel => Awaited::Cancelled,
            Action::Piece(_) => Awaited::LastLines,
            Action::Open(_, _)
            | Action::OpenPatch(_, _)
            | Action::Stage(_)
            | Action::Head(_)
            | Action::Pin(_) => Awaited::Nothing,
        }
    }

    /// Whether this answer to the event ends what that is about.
    pub(crate) fn ends_by(self, answer: &Answer) -> bool
        ensures { (e : AnEvent) → self ≡ awaited_of e → result ≡ is_ending e answer.now }
    {
        self.comes_with(answer)
    }

    /// Whether this is the answer.
    fn comes_with(self, answer: &Answer) -> bool
        ensures value { result ≡ comes_with self answer.now }
    {
        match self {
            Awaited::Status => matches!(answer, Answer::Status(_, _, _)),
            Awaited::Cancelled => matches!(answer, Answer::Cancelled),
            Awaited::LastLines => matches!(answer, Answer::Lines(_, true)),
            Awaited::Nothing => false,
        }
    }
}
