//! Reads heads of requests and size lines of chunks from standard input, with what is said of each,
//! and prints of which it is not so, and how many there were.
#![tactic(auto)]

mod cases;
mod texts;

use crate::cases::Case;
use crate::texts::{size_text, text_of};
use gs_http::read_chunk_size;
use gs_names::Places;
use gs_verdict::read_verdict;
use std::alloc::{AllocError, Global};
use std::io::{self, Read, Write};

const BASE: &str = "http://localhost";

/// The most bytes of a head that is tried.
const MAX_HEAD_BYTES: usize = 65_535;

/// What a head asks for, as text.
fn reported(alloc: Global, places: &Places, head: &[u8]) -> Result<String, AllocError> {
    if head.len() > MAX_HEAD_BYTES {
        return String::from_str(alloc, "too long");
    }
    let verdict = read_verdict(alloc, places, BASE.as_bytes(), head)?;
    text_of(alloc, &verdict)
}

/// What is said of a case, as text.
fn said(alloc: Global, places: &Places, case: &Case<'_>) -> Result<String, AllocError> {
    let bytes = case.head.as_bytes();
    if case.is_size_line {
        return size_text(alloc, read_chunk_size(bytes));
    }
    reported(alloc, places, bytes)
}

/// Checks each case of the input.
fn check_all<W: Write>(alloc: Global, places: &Places, input: &str, out: &mut W) -> io::Result<()> {
    let mut case = Case::new(alloc);
    let mut cases = 0u64;
    for line in input.split('\n') {
        case.take(line)?;
        let Some(wanted) = case.wanted else {
            continue;
        };
        let is = said(alloc, places, &case)?;
        if is.as_str() != wanted {
            writeln!(out, "{}: {is}", case.name)?;
        }
        cases = cases.saturating_add(1);
        case = Case::new(alloc);
    }
    writeln!(out, "{cases} cases")
}

fn main(rt: HostRuntime) -> io::Result<()> {
    let input = io::read_to_string(rt.alloc(), rt.reader())?;
    let places = Places::new(rt.alloc())?;
    check_all(rt.alloc(), &places, input.as_str(), &mut io::writer(&rt))
}
