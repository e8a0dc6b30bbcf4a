//! What a schedule prints under each of several lengths of pieces.
use gs_schedules::{Row, prints};
use std::alloc::{AllocError, Global};

/// Whether a schedule in pieces of this length prints this and ends well.
fn prints_in(alloc: Global, cut: u64, input: &str, want: &str) -> Result<bool, AllocError> {
    let input = format!(in alloc; "cut {cut}\n{input}")?;
    Ok(prints(alloc, input.as_bytes(), want, "", 0))
}

/// The first of these lengths of pieces under which a schedule does not print this.
pub fn wrong_cut(
    alloc: Global,
    cuts: &[u64],
    input: &str,
    want: &str,
) -> Result<Option<u64>, AllocError> {
    for cut in cuts {
        if !prints_in(alloc, *cut, input, want)? {
            return Ok(Some(*cut));
        }
    }
    Ok(None)
}

/// The first of these rows that does not print what it must under one of these lengths of pieces.
pub fn wrong_row_in(
    alloc: Global,
    cuts: &[u64],
    rows: &[Row],
) -> Result<Option<&'static str>, AllocError> {
    for (name, input, want) in rows {
        if wrong_cut(alloc, cuts, input, want)?.is_some() {
            return Ok(Some(name));
        }
    }
    Ok(None)
}
