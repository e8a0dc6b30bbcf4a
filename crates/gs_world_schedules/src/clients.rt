//! What the model knows of a connection: its requests, how much of them came, and what its turns have
//! seen since its last text.
use crate::findings::Kind;
use gs_drawn_requests::{Deed, Request, Write};
use gs_world_models::{
    Asked, Due, Lie, Reply, Rules, Showing, State, push_look, push_read, read_status, read_turns,
};
use std::alloc::{AllocError, Global};

/// What was seen about a turn that wrote nothing.
#[derive(Clone, Copy, Drop)]
pub struct Look {
    /// How many bytes of the connection had come.
    came: usize,
    /// The graphs before the turn.
    before: State,
    after: State,
}

/// A connection.
#[derive(Drop)]
pub struct Client {
    requests: Vec<Asked>,
    /// How many of them were answered.
    answered: usize,
    /// How many bytes came to it.
    came: usize,
    /// What it wrote.
    pub said: Vec<u8>,
    /// Its turns since its last text.
    looks: Vec<Look>,
    /// `100 Continue` was written to the request that is next.
    is_greeted: bool,
    /// No more bytes come.
    has_ended: bool,
    /// It was dropped, or a reply has closed it.
    is_over: bool,
}

impl Client {
    /// A connection to which nothing came.
    pub fn new(alloc: Global) -> Client {
        Client {
            requests: Vec::new(alloc),
            answered: 0,
            came: 0,
            said: Vec::new(alloc),
            looks: Vec::new(alloc),
            is_greeted: false,
            has_ended: false,
            is_over: false,
        }
    }

    /// A request is sent from now on.
    pub fn send(&mut self, asked: Asked) -> Result<(), AllocError> {
        self.requests.push(asked).map_err(AllocError::from)
    }

    /// So many bytes were given to it.
    pub fn receive(&mut self, count: usize) {
        if !self.has_ended {
            self.came = self.came.saturating_add(count);
        }
    }

    /// No more bytes come.
    pub fn end(&mut self) {
        self.has_ended = true;
    }

    /// The connection is dropped.
    pub fn leave(&mut self) {
        self.is_over = true;
    }

    /// The request that is next, once its head came.
    fn pending(&self) -> Option<Asked> {
        if self.is_over {
            return None;
        }
        match self.requests.get(self.answered) {
            Some(asked) if asked.request.head_end <= self.came => Some(*asked),
            _ => None,
        }
    }

    fn awaits_greeting(&self, request: &Request) -> bool {
        request.awaits && !self.is_greeted
    }

    /// The turns since its last text at which so many bytes had come.
    fn looks_after(&self, end: usize) -> &[Look] {
        let mut start = 0usize;
        for look in &self.looks {
            if look.came < end {
                start = start.saturating_add(1);
            }
        }
        self.looks.as_slice().get(start..).unwrap_or_default()
    }

    /// Nothing is to be said before more bytes come.
    pub fn is_quiet(&self) -> bool {
        match self.pending() {
            None => true,
            Some(Asked { request, .. }) => match request.deed {
                Deed::Denied(_, _) => false,
                _ => !self.awaits_greeting(&request) && self.came < request.end,
            },
        }
    }

    /// The body of an upload is open at the store and has not come whole.
    pub fn is_uploading(&self) -> bool {
        match self.pending() {
            None => false,
            Some(Asked { request, .. }) => {
                let was_opened = self.is_greeted || !self.looks_after(request.head_end).is_empty();
                request.opens() && was_opened && self.came < request.end
            }
        }
    }

    /// What the write of the request that is next would make of these graphs, where it has not come
    /// whole.
    pub fn effect_of_cut(&self, rules: &Rules, now: &State) -> Option<State> {
        let asked = self.pending()?;
        match asked.request.deed {
            Deed::Write(write) => Some(now.after(rules, &asked, write).state),
            _ => None,
        }
    }

    /// What the graphs may be after its next turn, besides what they are.
    pub fn effect(&self, rules: &Rules, now: &State) -> Option<State> {
        let asked = self.pending()?;
        let request = asked.request;
        if self.awaits_greeting(&request) || self.came < request.end {
            return None;
        }
        match request.deed {
            Deed::Write(write) => Some(now.after(rules, &asked, write).state),
            _ => None,
        }
    }

    /// What its next turn writes.
    pub fn due(&self, rules: &Rules, now: &State) -> Result<Due, AllocError> {
        let Some(asked) = self.pending() else {
            return Ok(Due::Nothing);
        };
        let request = asked.request;
        if let Deed::Denied(status, allow) = request.deed {
            let reply = Reply::plain(rules.alloc, status, allow, None, request.closes)?;
            return Ok(Due::Must(reply));
        }
        if self.awaits_greeting(&request) {
            return self.due_greeting(rules, &request);
        }
        let looks = self.looks_after(request.end);
        let Some(first) = looks.get(0) else {
            return Ok(Due::Nothing);
        };
        let last = looks.get(looks.len().saturating_sub(1)).unwrap_or(first);
        match request.deed {
            Deed::Read => due_read(rules, &request, first, last, looks.len(), now),
            Deed::Look => due_look(rules, &request, first),
            Deed::Write(write) => due_write(rules, &asked, write, last),
            Deed::Fault(status) => Ok(Due::May(Reply::plain(
                rules.alloc,
                status,
                "",
                None,
                request.closes,
            )?)),
            Deed::Denied(_, _) => Ok(Due::Nothing),
        }
    }

    /// It is said in the turn after the Open, or at once where nothing is opened.
    fn due_greeting(&self, rules: &Rules, request: &Request) -> Result<Due, AllocError> {
        if request.opens() && self.looks_after(request.head_end).is_empty() {
            return Ok(Due::Nothing);
        }
        Ok(Due::Must(Reply::greeting(rules.alloc)?))
    }

    /// A turn wrote nothing.
    pub fn rest(&mut self, before: State, after: State) -> Result<(), AllocError> {
        let look = Look {
            came: self.came,
            before,
            after,
        };
        self.looks.push(look).map_err(AllocError::from)
    }

    /// A turn wrote what was due. Answers the request that it answers.
    pub fn take(&mut self, reply: &Reply) -> Result<Option<Asked>, AllocError> {
        self.said.extend_from_slice(reply.text.as_slice())?;
        self.looks.clear();
        if reply.is_greeting() {
            self.is_greeted = true;
            return Ok(None);
        }
        let asked = self.requests.get(self.answered).copied();
        self.answered = self.answered.saturating_add(1);
        self.is_greeted = false;
        if let Some(answered) = asked {
            self.is_over = answered.request.closes;
        }
        Ok(asked)
    }
}

/// A GET writes at once, in the turn after its last piece, the lines that its graph, or all graphs, had at
/// the first turn, and the number of the last commit then.
fn due_read(
    rules: &Rules,
    request: &Request,
    first: &Look,
    last: &Look,
    turns: usize,
    now: &State,
) -> Result<Due, AllocError> {
    let pinned = first.before.dataset.shown(request);
    if turns < read_turns(rules, pinned) {
        return Ok(Due::Nothing);
    }
    let shown = match rules.lie {
        Lie::ReadsMoveOn => last.after.dataset.shown(request),
        _ => pinned,
    };
    let mut text = Vec::new(rules.alloc);
    let showing = Showing {
        shown,
        commit: first.before.commit,
        is_turtle: request.is_turtle,
        closes: request.closes,
    };
    push_read(&mut text, rules, &showing)?;
    Ok(Due::Must(Reply {
        status: read_status(shown),
        text,
        spans_write: first.before.dataset != now.dataset,
        is_stale: pinned != now.dataset.shown(request),
    }))
}

fn due_look(rules: &Rules, request: &Request, first: &Look) -> Result<Due, AllocError> {
    let shown = first.before.dataset.shown(request);
    let mut text = Vec::new(rules.alloc);
    let showing = Showing {
        shown,
        commit: first.before.commit,
        is_turtle: request.is_turtle,
        closes: request.closes,
    };
    push_look(&mut text, &showing)?;
    Ok(Due::Must(Reply::of(read_status(shown), text)))
}

/// The reply to a write comes in the turn after the one that took effect, which took a commit number though it may have left all
/// graphs as they were. One that is refused may have been refused in any turn.
fn due_write(rules: &Rules, asked: &Asked, write: Write, last: &Look) -> Result<Due, AllocError> {
    let effect = last.before.after(rules, asked, write);
    if effect.state != last.after {
        return Ok(Due::Nothing);
    }
    let closes = asked.request.closes;
    let reply = Reply::plain(rules.alloc, effect.status, "", Some(effect.number), closes)?;
    if matches!(write, Write::Remove) || last.before != last.after {
        Ok(Due::Must(reply))
    } else {
        Ok(Due::May(reply))
    }
}

/// What is wrong with what a turn wrote, where this was due.
pub fn found(due: &Due, text: &[u8], has_changed: bool) -> Option<Kind> {
    if has_changed && !text.is_empty() {
        return Some(Kind::ChangesAndWrites);
    }
    match due {
        Due::Nothing if text.is_empty() => None,
        Due::Nothing => Some(Kind::Undue),
        Due::May(_) if text.is_empty() => None,
        Due::Must(_) if text.is_empty() => Some(Kind::Missing),
        Due::May(reply) | Due::Must(reply) => {
            if text == reply.text.as_slice() {
                None
            } else {
                Some(Kind::OtherText)
            }
        }
    }
}
