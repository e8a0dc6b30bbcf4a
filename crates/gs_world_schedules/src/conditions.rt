//! Conditions in the heads of requests: which requests have one, and what it is.
use gs_drawn_requests::{Deed, Draws, Request};
use gs_world_models::{Asked, Lie};
use std::alloc::{AllocError, Global};
use std::io::Write;

/// Values that are none: no number of 1 to 18 digits, or two fields.
const FAULTS: [&str; 7] = [
    "x",
    "-1",
    "+1",
    "1 2",
    "1234567890123456789",
    "1\r\nIf-Store-Commit: 1",
    "",
];

/// A number that no commit has. With two zeros before it, it has 18 digits.
const LAST: u64 = 9_999_999_999_999_999;

/// What stands before the number, in which names are of any case, and zeros may lead.
const FRONTS: [&str; 4] = [
    "If-Store-Commit: ",
    "if-store-commit:",
    "IF-STORE-COMMIT: \t00",
    "If-store-commit: 0",
];

/// What the head of a request says of a condition.
#[derive(Clone, Copy, Drop)]
enum Said {
    Commit(u64),
    /// No condition, but such a field.
    Fault(&'static str),
}

/// A request with its bytes.
#[derive(Drop)]
pub struct Sent {
    pub asked: Asked,
    pub bytes: Vec<u8>,
}

impl Sent {
    /// A request without a condition.
    fn plain(alloc: Global, request: Request, bytes: &[u8]) -> Result<Sent, AllocError> {
        Ok(Sent {
            asked: Asked {
                request,
                since: None,
            },
            bytes: Vec::from_slice(alloc, bytes)?,
        })
    }
}

/// A number near that of the last commit.
fn drawn_near(draws: &mut Draws, commit: u64) -> u64 {
    match draws.below(8) {
        0 => 0,
        1 => LAST,
        2 => commit.saturating_add(1),
        _ => commit.saturating_sub(draws.below(3) as u64),
    }
}

fn drawn_said(draws: &mut Draws, commit: u64) -> Said {
    if draws.is_one_in(12) {
        return Said::Fault(draws.pick(&FAULTS));
    }
    Said::Commit(drawn_near(draws, commit))
}

/// Adds a field, and ends it.
fn push_field(bytes: &mut Vec<u8>, draws: &mut Draws, said: Said) -> Result<(), AllocError> {
    match said {
        Said::Fault(value) => write!(bytes, "If-Store-Commit: {value}\r\n").map_err(|_| AllocError),
        Said::Commit(number) => {
            let front = draws.pick(&FRONTS);
            write!(bytes, "{front}{number}\r\n").map_err(|_| AllocError)
        }
    }
}

/// The request whose head, of so many bytes before, says this. A write with such a field that is no condition is denied,
/// and that ends the connection where a body is announced.
fn asked_with(request: &Request, said: Said, more: usize, lie: Lie) -> Asked {
    let mut with = *request;
    with.head_end = request.head_end.saturating_add(more);
    with.end = request.end.saturating_add(more);
    let since = match said {
        Said::Commit(number) => Some(number),
        Said::Fault(_) => None,
    };
    let is_write = matches!(request.deed, Deed::Write(_) | Deed::Fault(_));
    if is_write && since.is_none() && lie != Lie::FaultyConditionsHold {
        with.deed = Deed::Denied(400, "");
        with.awaits = false;
        with.closes = request.closes || request.head_end < request.end;
    }
    Asked {
        request: with,
        since,
    }
}

/// The bytes of a request, the first so many of which are its head, with a field that says this.
fn with_field(
    alloc: Global,
    draws: &mut Draws,
    bytes: &[u8],
    head_length: usize,
    said: Said,
) -> Result<Vec<u8>, AllocError> {
    let (head, body) = bytes.split_at(head_length.min(bytes.len()));
    let mut with = Vec::new(alloc);
    with.extend_from_slice(head.strip_suffix(b"\r\n").unwrap_or(head))?;
    push_field(&mut with, draws, said)?;
    with.extend_from_slice(b"\r\n")?;
    with.extend_from_slice(body)?;
    Ok(with)
}

/// What conditions are drawn by.
#[derive(Drop)]
pub struct Conditions {
    /// Where requests have conditions at all. These draws are others, so that all else is drawn as without them.
    draws: Option<Draws>,
    lie: Lie,
    /// The number of the last commit.
    pub commit: u64,
}

impl Conditions {
    /// None, or those of this seed.
    pub fn new(seed: Option<u64>, lie: Lie) -> Conditions {
        Conditions {
            draws: seed.map(Draws::new),
            lie,
            commit: 0,
        }
    }

    /// The request of these bytes, before which there are so many others on its connection. At one chance of three its
    /// head says something of a condition. A head that is denied is left as it is.
    pub fn sent(
        &mut self,
        alloc: Global,
        request: Request,
        bytes: &[u8],
        start: usize,
    ) -> Result<Sent, AllocError> {
        let Some(draws) = &mut self.draws else {
            return Sent::plain(alloc, request, bytes);
        };
        if matches!(request.deed, Deed::Denied(_, _)) || !draws.is_one_in(3) {
            return Sent::plain(alloc, request, bytes);
        }
        let said = drawn_said(draws, self.commit);
        let head_length = request.head_end.saturating_sub(start);
        let with = with_field(alloc, draws, bytes, head_length, said)?;
        let more = with.len().saturating_sub(bytes.len());
        Ok(Sent {
            asked: asked_with(&request, said, more, self.lie),
            bytes: with,
        })
    }
}
