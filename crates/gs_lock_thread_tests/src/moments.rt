//! What a thread reads of all graphs after a round, a few lines at a time while others write: each graph is
//! whole, its own is as it left it, and all are as they were at one moment.
use crate::rounds::{is_deleting, say};
use gs_core::Refusal;
use gs_shared::{Pass, Room, SharedStore};
use std::alloc::Global;
use std::str::Lines;
use std::sync::Wait;
use std::sync::ledger::Ledger;

/// How the lines of each graph end, in the order in which a read of all gives them.
const ENDS: [&str; 5] = [
    "<http://e/own0> .",
    "<http://e/own1> .",
    "<http://e/own2> .",
    "<http://e/own3> .",
    "<http://e/z> .",
];

/// Which thread wrote a graph, in which round, and whether it patched it then.
#[derive(Clone, Copy, PartialEq, Eq)]
struct Mark {
    seat: u16,
    round: u32,
    is_patched: bool,
}

/// The marks of each thread's own graph and then of the graph that all write, of those that are there. A
/// thread writes its own graph first: a read that took each graph as it came to it would see the other one
/// newer.
type Marks = [Option<Mark>; 5];

/// What a question about all graphs and a read of all of them print, the lines in pieces of three. Five
/// graphs have ten lines at most.
pub fn read_all<C: Ledger, T: Ledger, B: Room, R: Wait>(
    rt: &R,
    alloc: Global,
    store: &SharedStore<C, T, B>,
    pass: &mut Pass<C, T, B>,
) -> Result<String, Refusal> {
    let mut text = say(rt, alloc, store, pass, "head all")?;
    let pinned = say(rt, alloc, store, pass, "pin all")?;
    text.push_str(pinned.as_str())?;
    for _ in 0..4 {
        let said = say(rt, alloc, store, pass, "piece 3")?;
        match said.as_str().strip_suffix("more\n") {
            Some(lines) => text.push_str(lines)?,
            None => {
                text.push_str(said.as_str())?;
                return Ok(text);
            }
        }
    }
    Ok(text)
}

/// The mark of a literal.
fn mark_of(word: &str) -> Option<Mark> {
    let text = word.strip_prefix('"')?.strip_suffix('"')?;
    let front = text.strip_suffix('+');
    let (seat, round) = front.unwrap_or(text).split_once('-')?;
    Some(Mark {
        seat: seat.parse::<u16>().ok()?,
        round: round.parse::<u32>().ok()?,
        is_patched: front.is_some(),
    })
}

/// The place of the graph whose lines end so.
fn place_of(end: &str) -> Option<usize> {
    for (place, one) in ENDS.iter().enumerate() {
        if *one == end {
            return Some(place);
        }
    }
    None
}

/// The place and the mark of a graph with these two lines, which have one mark.
fn graph(first: &str, second: &str) -> Option<(usize, Mark)> {
    let rest = first.strip_prefix("<http://e/s> <http://e/p> ")?;
    if second.strip_prefix("<http://e/t> <http://e/p> ")? != rest {
        return None;
    }
    let (word, end) = rest.split_once(' ')?;
    Some((place_of(end)?, mark_of(word)?))
}

/// The marks of the graphs whose lines are left, to the end. `None` where a graph is not whole, or not in
/// its place.
fn marks_in(lines: &mut Lines<'_>) -> Option<Marks> {
    let mut marks: Marks = [None; 5];
    let mut least = 0usize;
    for _ in 0..6 {
        let first = lines.next()?;
        if first == "end" {
            return Some(marks);
        }
        let (place, mark) = graph(first, lines.next()?)?;
        if place < least {
            return None;
        }
        *marks.get_mut(place)? = Some(mark);
        least = place.saturating_add(1);
    }
    None
}

/// The marks of all graphs in what a question and a read of them printed.
fn marks_of(text: &str) -> Option<Marks> {
    let mut lines = text.lines();
    if lines.next()? != "200" || lines.next()? != "200" {
        return None;
    }
    let marks = marks_in(&mut lines)?;
    if lines.next().is_none() {
        Some(marks)
    } else {
        None
    }
}

/// The mark of the own graph of a seat.
fn own_of(marks: &Marks, seat: u16) -> Option<Mark> {
    *marks.get(usize::from(seat))?
}

/// Whether each thread alone wrote its own graph.
fn are_own(marks: &Marks) -> bool {
    for seat in 0..4u16 {
        if let Some(mark) = own_of(marks, seat) {
            if mark.seat != seat {
                return false;
            }
        }
    }
    true
}

/// Whether the own graph of a thread is there that last wrote the graph of all in this round, and has had
/// no turn there since: it was patched in the same round and not deleted, or written in the next one.
fn may_follow(own: Mark, round: u32) -> bool {
    let is_left = own.round == round && own.is_patched && !is_deleting(round);
    is_left || own.round == round.saturating_add(1)
}

/// Whether the graph of all, and the own graph of the thread that last wrote it, are of one moment.
fn are_of_one_moment(marks: &Marks) -> bool {
    let [_, _, _, _, all] = marks;
    let Some(all) = all else {
        return true;
    };
    match own_of(marks, all.seat) {
        Some(own) => may_follow(own, all.round),
        None => true,
    }
}

/// What a thread left of its own graph in a round.
fn left_in(seat: u16, round: u32) -> Option<Mark> {
    if is_deleting(round) {
        return None;
    }
    Some(Mark {
        seat,
        round,
        is_patched: true,
    })
}

/// Whether a thread may have read this of all graphs after its round.
pub fn is_moment(text: &str, seat: u16, round: u32) -> bool {
    match marks_of(text) {
        Some(marks) => {
            own_of(&marks, seat) == left_in(seat, round)
                && are_own(&marks)
                && are_of_one_moment(&marks)
        }
        None => false,
    }
}
