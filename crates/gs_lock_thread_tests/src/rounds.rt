//! What a thread does in a round: it puts a graph, reads it, patches it, and in three rounds of four
//! deletes it.
use gs_core::{Answer, Refusal};
use gs_shared::{Pass, Room, SharedStore};
use gs_test_events::{event, words};
use std::alloc::{AllocError, Global};
use std::sync::Wait;
use std::sync::ledger::Ledger;

/// Whether the graph is deleted in the round of this number.
pub fn is_deleting(round: u32) -> bool {
    round % 4 != 3
}

/// Makes the event of a line by the pass, and gives what the answer prints.
pub fn say<C: Ledger, T: Ledger, B: Room, R: Wait>(
    rt: &R,
    alloc: Global,
    store: &SharedStore<C, T, B>,
    pass: &mut Pass<C, T, B>,
    line: &str,
) -> Result<String, Refusal> {
    let seat = pass.seat();
    let line = format!(in alloc; "{seat} {line}")?;
    let event = event(alloc, line.as_str())?;
    let answer: Answer = store.event(rt, pass, event);
    Ok(words(alloc, answer)?)
}

/// How many lines a round has.
fn count_of_lines(round: u32) -> u32 {
    if is_deleting(round) { 8 } else { 7 }
}

/// The line at a place of a round on a graph, whose triples carry a mark.
fn line_at(alloc: Global, place: u32, graph: &str, mark: &str) -> Result<String, AllocError> {
    match place {
        0 => format!(in alloc; "open put <{graph}>"),
        1 => format!(in alloc; "stage <t> <p> \"{mark}\" . <s> <p> \"{mark}\" ."),
        2 => format!(in alloc; "commit"),
        3 => format!(in alloc; "pin <{graph}>"),
        4 => format!(in alloc; "piece 9"),
        5 => format!(in alloc; "open patch <{graph}>"),
        6 => format!(in alloc;
            "patch: where ?s <p> ?o ; insert <s> <p> \"{mark}+\" . <t> <p> \"{mark}+\""
        ),
        _ => format!(in alloc; "delete <{graph}>"),
    }
}

/// Makes the event of a line, and adds what it prints, but for what is answered to an open or a stage.
fn add_said<C: Ledger, T: Ledger, B: Room, R: Wait>(
    rt: &R,
    alloc: Global,
    store: &SharedStore<C, T, B>,
    pass: &mut Pass<C, T, B>,
    line: &str,
    text: &mut String,
) -> Result<(), Refusal> {
    let said = say(rt, alloc, store, pass, line)?;
    if !line.starts_with("open ") && !line.starts_with("stage ") {
        text.push_str(said.as_str())?;
    }
    Ok(())
}

/// What a round on a graph prints, but for what is answered to the opens and the stage.
pub fn hold<C: Ledger, T: Ledger, B: Room, R: Wait>(
    rt: &R,
    alloc: Global,
    store: &SharedStore<C, T, B>,
    pass: &mut Pass<C, T, B>,
    graph: &str,
    mark: &str,
    round: u32,
) -> Result<String, Refusal> {
    let mut text = String::new(alloc);
    for place in 0..count_of_lines(round) {
        let line = line_at(alloc, place, graph, mark)?;
        add_said(rt, alloc, store, pass, line.as_str(), &mut text)?;
    }
    Ok(text)
}

/// What a round on a graph prints that nobody else writes.
pub fn expected(alloc: Global, mark: &str, round: u32) -> Result<String, Refusal> {
    let was_there = round > 0 && !is_deleting(round - 1);
    let status = if was_there { "204" } else { "201" };
    let last = if is_deleting(round) { "204\n" } else { "" };
    Ok(format!(in alloc;
        "{status}\n200\n<http://e/s> <http://e/p> \"{mark}\" .\n<http://e/t> <http://e/p> \"{mark}\" .\nend\n204\n{last}"
    )?)
}

/// Whether the line is one of these.
fn is_one_of(line: Option<&str>, statuses: [&str; 2]) -> bool {
    line == Some(statuses[0]) || line == Some(statuses[1])
}

/// What stands after this text in a line, empty where the line has it not at its front.
fn after<'a>(line: Option<&'a str>, front: &str) -> &'a str {
    line.unwrap_or_default()
        .strip_prefix(front)
        .unwrap_or_default()
}

/// Whether a round on a graph that others write too prints what some order of all rounds allows: where
/// the graph is read, its two lines carry one mark.
pub fn is_whole(text: &str, round: u32) -> bool {
    let mut lines = text.lines();
    let put = is_one_of(lines.next(), ["201", "204"]);
    let read = match lines.next() {
        Some("200") => {
            let first = after(lines.next(), "<http://e/s> <http://e/p> ");
            let second = after(lines.next(), "<http://e/t> <http://e/p> ");
            !first.is_empty() && first == second && lines.next() == Some("end")
        }
        Some("404") => lines.next() == Some("refused WrongPhase"),
        _ => false,
    };
    let patched = is_one_of(lines.next(), ["204", "404"]);
    let deleted = !is_deleting(round) || is_one_of(lines.next(), ["204", "404"]);
    put && read && patched && deleted && lines.next().is_none()
}
