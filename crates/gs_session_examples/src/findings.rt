//! How a conversation is to end, and what is found of how it did.
use crate::cases::Case;
use crate::endings::Ending;
use crate::manners::Manner;
use crate::probes::State;
use gs_session::ServeFault;

/// What is found first.
#[derive(Clone, Copy, Debug, Drop)]
pub enum Finding {
    Right,
    /// It ended with another fault, or with one, or with none.
    OtherResult,
    OtherText,
    /// Not all that was written was flushed.
    NotFlushed,
    /// A small reply is more than one write.
    ManyWrites,
    /// The store is otherwise, or its seat is not idle.
    OtherState,
}

/// What is to be: a conversation, and the states of its store before the first exchange and after
/// each.
#[derive(Drop)]
pub struct Prospect<'a> {
    pub case: &'a Case<'a>,
    pub states: Vec<Option<State>>,
}

impl Prospect<'_> {
    /// What is found where the text is right: the store is to be as it is after so many exchanges.
    fn found_state(&self, ending: &Ending, exchanges: usize) -> Finding {
        match self.states.get(exchanges) {
            Some(state) if ending.state.is_some() && ending.state == *state => Finding::Right,
            _ => Finding::OtherState,
        }
    }

    /// What is found where the write after so many bytes failed: the store is to be as it is after
    /// the exchange whose reply was broken off.
    fn found_at_write(&self, ending: &Ending, count: usize) -> Finding {
        if ending.result != Err(ServeFault::Write) {
            return Finding::OtherResult;
        }
        if ending.written.as_slice() != self.case.output.get(..count).unwrap_or_default() {
            return Finding::OtherText;
        }
        self.found_state(ending, self.case.said_within(count).saturating_add(1))
    }

    /// What is found where the input was broken off: all is to be said to the exchanges that came
    /// whole, no more than to the one after, and the store is to be as it is after the former.
    fn found_at_cut(&self, ending: &Ending) -> Finding {
        let wanted = if ending.has_failed {
            Err(ServeFault::Read)
        } else {
            Ok(())
        };
        if ending.result != wanted {
            return Finding::OtherResult;
        }
        let exchanges = self.case.sent_within(ending.sent);
        let count = ending.written.len();
        if !self.case.output.starts_with(ending.written.as_slice())
            || count < self.case.said_by(exchanges)
            || self.case.said_by(exchanges.saturating_add(1)) < count
        {
            return Finding::OtherText;
        }
        self.found_state(ending, exchanges)
    }

    /// What is found where the whole input came.
    fn found_whole(&self, manner: Manner, ending: &Ending) -> Finding {
        if ending.result != Ok(()) {
            return Finding::OtherResult;
        }
        if ending.written.as_slice() != self.case.output.as_slice() {
            return Finding::OtherText;
        }
        if ending.flushed != ending.written.len() {
            return Finding::NotFlushed;
        }
        if manner.counts_writes() && self.case.most_writes() < ending.writes {
            return Finding::ManyWrites;
        }
        self.found_state(ending, self.case.exchanges.len().saturating_add(1))
    }

    /// What is found of a conversation that was held in this manner.
    pub fn found(&self, manner: Manner, ending: &Ending) -> Finding {
        match manner.written() {
            Some(count) => self.found_at_write(ending, count),
            None if manner.is_cut() => self.found_at_cut(ending),
            None => self.found_whole(manner, ending),
        }
    }
}
