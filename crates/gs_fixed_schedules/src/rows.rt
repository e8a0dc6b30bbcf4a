//! Rows of worked schedules: what is asked, and what is to be answered and counted then.
use crate::deeds::ask_of;
use crate::lines::{Bounds, Lines};
use gs_drawn_events::{Ask, SORT_NAMES, event, sort_of};
use gs_model::Refusal;
use std::alloc::Global;

/// A row of a schedule. Its columns are, between bars:
///
/// 1. a seat, and what it is asked: `1 put a since 4`, `0 patch - 5 + 4`, where triples go by their numbers;
///    or how many nodes and records are freed, at most: `free 9`, with 99999 for all;
/// 2. what is to be answered, with ` / ` between its lines. Of what is freed, it may be `more` or `done` alone:
///    what is no more in use says how many these are;
/// 3. how many nodes and records are in use then, and how many more there may be: `15+256`, or `15`;
/// 4. how many triples there are in graphs.
#[derive(Clone, Copy, Drop)]
struct Row<'a> {
    deed: &'a str,
    words: &'a str,
    bounds: Bounds,
}

/// What is to be counted, by the last two columns.
fn bounds_of(columns: &str) -> Option<Bounds> {
    let (nodes, triples) = columns.split_once(" | ")?;
    let (least, more) = nodes.split_once('+').unwrap_or((nodes, "0"));
    let least = least.parse::<u64>().ok()?;
    Some(Bounds {
        least,
        most: least.saturating_add(more.parse::<u64>().ok()?),
        triples: triples.parse::<u64>().ok()?,
    })
}

/// The row that a text is, if it can be read.
fn row_of(text: &str) -> Option<Row<'_>> {
    let (deed, rest) = text.split_once(" | ")?;
    let (words, rest) = rest.split_once(" | ")?;
    Some(Row {
        deed,
        words,
        bounds: bounds_of(rest)?,
    })
}

/// Whether a line is a row: an empty one is none, nor is a comment, which begins with `#`.
fn is_row(line: &str) -> bool {
    !line.is_empty() && !line.starts_with('#')
}

/// Appends the line of a row by which a seat is asked this.
fn push_ask(
    alloc: Global,
    lines: &mut Lines,
    row: &Row<'_>,
    seat: u16,
    ask: Ask,
) -> Result<(), Refusal> {
    let name = SORT_NAMES.get(sort_of(&ask)).copied().unwrap_or_default();
    let event = event(alloc, seat, &ask)?;
    lines.push_asked(name, event, ask, row.words, row.bounds)?;
    Ok(())
}

/// The seat that a row names, and what it is asked.
fn seat_of<'a>(row: &Row<'a>) -> Option<(u16, &'a str)> {
    let (seat, rest) = row.deed.split_once(' ')?;
    Some((seat.parse::<u16>().ok()?, rest))
}

/// Appends the line of a row by which a seat is asked something, if that can be read.
fn push_seat(alloc: Global, lines: &mut Lines, row: &Row<'_>) -> Result<bool, Refusal> {
    let Some((seat, text)) = seat_of(row) else {
        return Ok(false);
    };
    let Some(ask) = ask_of(alloc, text)? else {
        return Ok(false);
    };
    push_ask(alloc, lines, row, seat, ask)?;
    Ok(true)
}

/// Appends the line of a row by which so many nodes and records are freed, if this is a number.
fn push_free(lines: &mut Lines, row: &Row<'_>, most: &str) -> Result<bool, Refusal> {
    let Ok(most) = most.parse::<u64>() else {
        return Ok(false);
    };
    lines.push_free(most, row.words, row.bounds)?;
    Ok(true)
}

/// Appends the line of a row, if that can be read.
fn push_read(alloc: Global, lines: &mut Lines, text: &str) -> Result<bool, Refusal> {
    let Some(row) = row_of(text) else {
        return Ok(false);
    };
    match row.deed.strip_prefix("free ") {
        Some(most) => push_free(lines, &row, most),
        None => push_seat(alloc, lines, &row),
    }
}

/// Appends the line of a row. One that can't be read is never right.
fn push_row(alloc: Global, lines: &mut Lines, text: &str) -> Result<(), Refusal> {
    if !push_read(alloc, lines, text)? {
        lines.push_unread(text)?;
    }
    Ok(())
}

/// Appends the lines of rows: how many rows there are.
fn push_rows(alloc: Global, lines: &mut Lines, rows: &str) -> Result<usize, Refusal> {
    let mut count = 0usize;
    for line in rows.lines() {
        if is_row(line) {
            push_row(alloc, lines, line)?;
            count = count.saturating_add(1);
        }
    }
    Ok(count)
}

/// The same of a schedule of so many rows. One that was cut is never right.
fn push_schedule(
    alloc: Global,
    lines: &mut Lines,
    rows: &str,
    count: usize,
) -> Result<(), Refusal> {
    if push_rows(alloc, lines, rows)? != count {
        lines.push_unread("a schedule without all its rows")?;
    }
    Ok(())
}

/// The lines of a schedule of so many rows.
pub fn lines_of(alloc: Global, rows: &str, count: usize) -> Result<Lines, Refusal> {
    let mut lines = Lines::new(alloc);
    push_schedule(alloc, &mut lines, rows, count)?;
    Ok(lines)
}

/// The same, but nothing is ever freed.
pub fn kept_lines_of(alloc: Global, rows: &str, count: usize) -> Result<Lines, Refusal> {
    let mut lines = Lines::kept(alloc);
    push_schedule(alloc, &mut lines, rows, count)?;
    Ok(lines)
}
