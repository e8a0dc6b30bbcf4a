//! The run of a schedule, and whether it prints what it must. These functions have no contract, so that the proof of a
//! test that calls them has little to carry.
use crate::rows::Row;
use gs_drill::drill;
use std::alloc::{AllocError, Global};

/// Whether a schedule prints this, says this of its end, and ends with this status.
pub fn prints(alloc: Global, input: &[u8], out: &str, err: &str, status: u8) -> bool {
    let mut reader = input;
    let mut printed = Vec::new(alloc);
    let mut said = Vec::new(alloc);
    let ended = drill(alloc, &mut reader, &mut printed, &mut said);
    ended == status && printed.as_slice() == out.as_bytes() && said.as_slice() == err.as_bytes()
}

/// The first of these rows whose schedule does not print what it must and end well.
pub fn wrong_row(alloc: Global, rows: &[Row]) -> Option<&'static str> {
    for (name, input, want) in rows {
        if !prints(alloc, input.as_bytes(), want, "", 0) {
            return Some(name);
        }
    }
    None
}

/// What stands before and after a line that is no command, what is printed then, and what is said of the end.
pub struct Stop {
    pub front: &'static str,
    pub back: &'static str,
    pub out: &'static str,
    pub err: &'static str,
}

/// Whether a schedule with this line stops there.
fn stops_at(alloc: Global, line: &str, stop: &Stop) -> Result<bool, AllocError> {
    let (front, back) = (stop.front, stop.back);
    let input = format!(in alloc; "{front}{line}{back}")?;
    Ok(prints(alloc, input.as_bytes(), stop.out, stop.err, 2))
}

/// The first of these lines at which a schedule does not stop.
pub fn unstopped_line(
    alloc: Global,
    lines: &[&'static str],
    stop: &Stop,
) -> Result<Option<&'static str>, AllocError> {
    for line in lines {
        if !stops_at(alloc, line, stop)? {
            return Ok(Some(line));
        }
    }
    Ok(None)
}
