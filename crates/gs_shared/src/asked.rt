//! What an event asks, as far as the tally of its pass is concerned: it is read off the event before
//! the store takes it.
ghost use Rattle.std.specs.Prelude.{◌≡◌};
ghost use Rattle.gs_shared.specs.Asked.{ask_of_action, ask_of_event, decided_of, brought_of, counted_in};

use gs_chronicle::{ActionKind, list_size, ops_size};
use gs_event::{Action, Answer, Event};

/// What an event asks.
#[derive(Clone, Copy)]
pub enum EventAsk {
    /// To stage a list that counts as so many triples.
    Stage(u64),
    /// What a status decides, by an action of this kind. What it brings counts as so many triples.
    Status(ActionKind, u64),
    /// To begin a read.
    Pin,
    /// Nothing that a tally counts.
    Nothing,
}

impl EventAsk {
    /// What an event asks.
    pub(crate) fn by(event: &Event) -> EventAsk
        ensures { result ≡ ask_of_event event.now }
    {
        match event {
            Event::Seat(_, action) => EventAsk::within(action),
            Event::Reclaim(_) => EventAsk::Nothing,
        }
    }

    fn within(action: &Action) -> EventAsk
        ensures { result ≡ ask_of_action action.now }
    {
        match action {
            Action::Stage(list) => EventAsk::Stage(list_size(list) as u64),
            Action::Commit => EventAsk::Status(ActionKind::Commit, 0),
            Action::CommitPatch(ops) => {
                EventAsk::Status(ActionKind::CommitPatch, ops_size(ops) as u64)
            }
            Action::Delete(_, _) => EventAsk::Status(ActionKind::Delete, 0),
            Action::Head(_) => EventAsk::Status(ActionKind::Head, 0),
            Action::Pin(_) => EventAsk::Pin,
            Action::Open(_, _) | Action::OpenPatch(_, _) | Action::Piece(_) | Action::Cancel => {
                EventAsk::Nothing
            }
        }
    }

    /// As how many triples counts what the event brings.
    pub(crate) fn counted(self) -> u64
        ensures { result ≡ counted_in self }
    {
        match self {
            EventAsk::Stage(triples) | EventAsk::Status(_, triples) => triples,
            EventAsk::Pin | EventAsk::Nothing => 0,
        }
    }

    /// The kind and status of a deciding call with this answer.
    pub(crate) fn decided(self, answer: &Answer) -> Option<(ActionKind, u16)>
        ensures { result ≡ decided_of self answer.now }
    {
        match self {
            EventAsk::Status(kind, _) => match answer {
                Answer::Status(status, _, _) => Some((kind, *status)),
                _ => None,
            },
            EventAsk::Pin => match answer {
                Answer::Pinned(status, _) => Some((ActionKind::Pin, *status)),
                _ => None,
            },
            EventAsk::Stage(_) | EventAsk::Nothing => None,
        }
    }

    /// As how many triples counts what came with this answer.
    pub(crate) fn brought(self, answer: &Answer) -> u64
        ensures { result ≡ brought_of self answer.now }
    {
        match self {
            EventAsk::Stage(triples) => match answer {
                Answer::Staged => triples,
                _ => 0,
            },
            EventAsk::Status(_, triples) => match answer {
                Answer::Status(_, _, _) => triples,
                _ => 0,
            },
            EventAsk::Pin | EventAsk::Nothing => 0,
        }
    }
}
