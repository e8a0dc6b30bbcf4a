//! Threads that count together: each reads a graph, and writes the next number where nobody wrote the graph
//! since. No number is lost, and none comes twice.
use crate::rounds::say;
use gs_chronicle::{Entry, Request};
use gs_core::{Answer, Refusal};
use gs_shared::{Pass, Room, SharedStore};
use gs_test_events::event;
use std::alloc::Global;
use std::sync::Wait;
use std::sync::ledger::Ledger;

/// How many numbers each thread writes.
const COUNT: u32 = 1_000;

/// How often a thread tries at most. Each try that comes too late is one for which another thread wrote a
/// number between this thread's read and its write, and three others write 3,000 in all.
const TRIES: u32 = 4_000;

/// The graph that all threads count in.
pub const COUNTED: &str = "http://e/count";

/// What the graph is once all threads have counted.
pub const LAST: &[u8] = b"<http://e/s> <http://e/p> \"4000\" .\n";

/// What a try was.
#[derive(Clone, Copy, PartialEq, Eq)]
enum Try {
    Written,
    Late,
    Wrong(&'static str),
}

/// Makes the event of a line by the pass.
fn ask<C: Ledger, T: Ledger, B: Room, R: Wait>(
    rt: &R,
    alloc: Global,
    store: &SharedStore<C, T, B>,
    pass: &mut Pass<C, T, B>,
    line: &str,
) -> Result<Answer, Refusal> {
    let seat = pass.seat();
    let line = format!(in alloc; "{seat} {line}")?;
    Ok(store.event(rt, pass, event(alloc, line.as_str())?))
}

/// The status and the number of an answer to a write or a read, none of another answer.
fn numbers(answer: &Answer) -> (u16, u64) {
    match answer {
        Answer::Status(status, None, number) => (*status, *number),
        Answer::Pinned(status, number) => (*status, *number),
        _ => (0, 0),
    }
}

/// The status and the number of what a line is answered.
fn told<C: Ledger, T: Ledger, B: Room, R: Wait>(
    rt: &R,
    alloc: Global,
    store: &SharedStore<C, T, B>,
    pass: &mut Pass<C, T, B>,
    line: &str,
) -> Result<(u16, u64), Refusal> {
    let answer = ask(rt, alloc, store, pass, line)?;
    let numbers = numbers(&answer);
    drop(answer);
    Ok(numbers)
}

/// The number in the one line of the graph.
fn number_in(text: &str) -> Option<u64> {
    let word = text.strip_prefix("<http://e/s> <http://e/p> \"")?;
    word.strip_suffix("\" .\nend\n")?.parse::<u64>().ok()
}

/// The number in the graph, 0 where it is missing, and that of the last commit.
fn seen<C: Ledger, T: Ledger, B: Room, R: Wait>(
    rt: &R,
    alloc: Global,
    store: &SharedStore<C, T, B>,
    pass: &mut Pass<C, T, B>,
) -> Result<Option<(u64, u64)>, Refusal> {
    let (status, commit) = told(rt, alloc, store, pass, "pin <http://e/count>")?;
    if status == 404 {
        return Ok(Some((0, commit)));
    }
    let lines = say(rt, alloc, store, pass, "piece 9")?;
    Ok(match number_in(lines.as_str()) {
        Some(number) if status == 200 => Some((number, commit)),
        _ => None,
    })
}

/// Puts a number into the graph, where nobody wrote it since the commit of another.
fn put<C: Ledger, T: Ledger, B: Room, R: Wait>(
    rt: &R,
    alloc: Global,
    store: &SharedStore<C, T, B>,
    pass: &mut Pass<C, T, B>,
    number: u64,
    since: u64,
) -> Result<(u16, u64), Refusal> {
    let opens = format!(in alloc; "open put <http://e/count> since {since}")?;
    drop(ask(rt, alloc, store, pass, opens.as_str())?);
    let stages = format!(in alloc; "stage <s> <p> \"{number}\"")?;
    drop(ask(rt, alloc, store, pass, stages.as_str())?);
    told(rt, alloc, store, pass, "commit")
}

/// Reads a number, and writes the next one. Each write that takes effect is one number more, so each has
/// the number that it wrote as its commit.
fn count_once<C: Ledger, T: Ledger, B: Room, R: Wait>(
    rt: &R,
    alloc: Global,
    store: &SharedStore<C, T, B>,
    pass: &mut Pass<C, T, B>,
) -> Result<Try, Refusal> {
    let Some((number, commit)) = seen(rt, alloc, store, pass)? else {
        return Ok(Try::Wrong("what is read"));
    };
    if number != commit {
        return Ok(Try::Wrong("the number of the last commit"));
    }
    let next = number.saturating_add(1);
    let wanted = if number == 0 { 201 } else { 204 };
    let (status, last) = put(rt, alloc, store, pass, next, commit)?;
    Ok(if status == wanted && last == next {
        Try::Written
    } else if status == 412 && last > commit {
        Try::Late
    } else {
        Try::Wrong("what is written")
    })
}

/// Whether a write comes too late whose condition is older than any number.
fn is_late<C: Ledger, T: Ledger, B: Room, R: Wait>(
    rt: &R,
    alloc: Global,
    store: &SharedStore<C, T, B>,
    pass: &mut Pass<C, T, B>,
) -> Result<bool, Refusal> {
    let (status, last) = put(rt, alloc, store, pass, 0, 0)?;
    Ok(status == 412 && last >= u64::from(COUNT))
}

/// Writes as many numbers as a thread must, and then one that is too late: what was wrong.
pub fn count<C: Ledger, T: Ledger, B: Room, R: Wait>(
    rt: &R,
    alloc: Global,
    store: &SharedStore<C, T, B>,
    pass: &mut Pass<C, T, B>,
) -> Result<Option<&'static str>, Refusal> {
    let mut written = 0u32;
    for _ in 0..TRIES {
        if written < COUNT {
            match count_once(rt, alloc, store, pass)? {
                Try::Written => written = written.saturating_add(1),
                Try::Late => {}
                Try::Wrong(part) => return Ok(Some(part)),
            }
        }
    }
    if written != COUNT {
        return Ok(Some("how often it wrote"));
    }
    let is_late = is_late(rt, alloc, store, pass)?;
    Ok(if is_late { None } else { Some("a late write") })
}

/// The condition of a PUT that came too late.
fn late_since(entry: &Entry) -> Option<u64> {
    match entry.request() {
        Request::Upload(upload) if entry.status() == 412 => upload.since(),
        _ => None,
    }
}

/// How many entries are PUTs that took effect, and how many are PUTs since the beginning that came too
/// late.
pub fn counts_of_puts(entries: &[Entry]) -> (u32, u32) {
    let (mut written, mut late) = (0u32, 0u32);
    for entry in entries {
        if entry.status() == 201 || entry.status() == 204 {
            written = written.saturating_add(1);
        }
        if late_since(entry) == Some(0) {
            late = late.saturating_add(1);
        }
    }
    (written, late)
}
