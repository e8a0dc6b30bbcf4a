//! Rows of bodies in their transfer, worked by hand from RFC 9112, sections 6.2 and 7.1.

use crate::replays::{End, is_read};
use gs_http::Framing;
use std::alloc::{AllocError, Global};
use std::test::Fail;

/// A name, the limit on the data of chunks, the text, the data in it, and how it ends.
type Row = (&'static str, u64, &'static [u8], &'static [u8], End);

/// Bodies by their length, or none: the framing, the text, the data in it, and how it ends.
const SIZED: [(Framing, &[u8], &[u8], End); 6] = [
    (Framing::Bytes(0), b"GET", b"", End::Before(3)),
    (Framing::Bytes(3), b"abc", b"abc", End::Before(0)),
    (Framing::Bytes(3), b"abcGET /", b"abc", End::Before(5)),
    (Framing::Bytes(4), b"abc", b"abc", End::Open),
    (Framing::Nothing, b"GET", b"", End::Before(3)),
    (Framing::Unknown, b"a", b"", End::Before(1)),
];

/// Bodies in chunks that are whole.
const WHOLE: [Row; 12] = [
    ("zero chunk at once", 0, b"0\r\n\r\n", b"", End::Before(0)),
    (
        "two chunks",
        99,
        b"4\r\nWiki\r\n6\r\npedia \r\n0\r\n\r\n",
        b"Wikipedia ",
        End::Before(0),
    ),
    (
        "extensions",
        99,
        b"3;a=b\r\nabc\r\n000 ;x\r\n\r\n",
        b"abc",
        End::Before(0),
    ),
    (
        "upper case",
        99,
        b"A\r\n0123456789\r\n0\r\n\r\n",
        b"0123456789",
        End::Before(0),
    ),
    (
        "lower case",
        99,
        b"0b\r\n0123456789x\r\n0\r\n\r\n",
        b"0123456789x",
        End::Before(0),
    ),
    (
        "16 digits",
        99,
        b"0000000000000003\r\nabc\r\n0\r\n\r\n",
        b"abc",
        End::Before(0),
    ),
    (
        "line ends as data",
        99,
        b"5\r\n\r\n0\r\n\r\n0\r\n\r\n",
        b"\r\n0\r\n",
        End::Before(0),
    ),
    (
        "trailers",
        99,
        b"1\r\na\r\n0\r\nA: b\r\nC: d\r\n\r\nGET",
        b"a",
        End::Before(3),
    ),
    (
        "CR, LF alone in a trailer",
        99,
        b"0\r\n\n\r\r\na\nb\rc\r\n\r\n",
        b"",
        End::Before(0),
    ),
    (
        "bytes after it",
        99,
        b"1\r\na\r\n0\r\n\r\nGET / HTTP/1.1\r\n",
        b"a",
        End::Before(16),
    ),
    (
        "another body after it",
        99,
        b"1\r\na\r\n0\r\n\r\n1\r\na\r\n0\r\n\r\n",
        b"a",
        End::Before(11),
    ),
    (
        "sum at the limit",
        5,
        b"2\r\nab\r\n3\r\ncde\r\n0\r\n\r\n",
        b"abcde",
        End::Before(0),
    ),
];

/// Bodies in chunks that have a fault.
const FAULTY: [Row; 14] = [
    (
        "17 digits",
        99,
        b"00000000000000003\r\nabc\r\n0\r\n\r\n",
        b"",
        End::Fault(400),
    ),
    ("no digit", 99, b"\r\n\r\n", b"", End::Fault(400)),
    ("another letter", 99, b"3g\r\nabc\r\n", b"", End::Fault(400)),
    ("a space before", 99, b" 3\r\nabc\r\n", b"", End::Fault(400)),
    (
        "LF alone after a size",
        99,
        b"3\nabc\r\n0\r\n\r\n",
        b"",
        End::Fault(400),
    ),
    (
        "CR within a size line",
        99,
        b"3;\r \r\nabc\r\n",
        b"",
        End::Fault(400),
    ),
    (
        "no CR LF after data",
        99,
        b"3\r\nabcd\r\n0\r\n\r\n",
        b"abc",
        End::Fault(400),
    ),
    (
        "LF alone after data",
        99,
        b"3\r\nabc\n0\r\n\r\n",
        b"abc",
        End::Fault(400),
    ),
    (
        "CR alone after data",
        99,
        b"3\r\nabc\r0\r\n\r\n",
        b"abc",
        End::Fault(400),
    ),
    (
        "too few bytes",
        99,
        b"4\r\nabc\r\n0\r\n\r\n",
        b"abc\r",
        End::Fault(400),
    ),
    (
        "sum over the limit",
        4,
        b"2\r\nab\r\n3\r\ncde\r\n0\r\n\r\n",
        b"ab",
        End::Fault(413),
    ),
    (
        "as soon as the size is read",
        4,
        b"5\r\n",
        b"",
        End::Fault(413),
    ),
    (
        "the greatest size",
        4,
        b"1\r\na\r\nffffffffffffffff\r\n",
        b"a",
        End::Fault(413),
    ),
    (
        "no chunk is allowed",
        0,
        b"1\r\na\r\n0\r\n\r\n",
        b"",
        End::Fault(413),
    ),
];

/// Bodies in chunks that are not whole yet.
const OPEN: [Row; 8] = [
    ("nothing", 99, b"", b"", End::Open),
    ("a size", 99, b"3", b"", End::Open),
    ("a CR", 99, b"3\r", b"", End::Open),
    ("some data", 99, b"3\r\nab", b"ab", End::Open),
    ("all data", 99, b"3\r\nabc\r", b"abc", End::Open),
    ("no last chunk", 99, b"3\r\nabc\r\n", b"abc", End::Open),
    ("no trailer section", 99, b"0\r\n", b"", End::Open),
    ("no empty line", 99, b"0\r\na\r\n\r", b"", End::Open),
];

/// Whether each body by its length is read so.
fn sized_are_read(alloc: Global) -> Result<bool, AllocError> {
    for row in &SIZED {
        let (framing, text, data, end) = *row;
        if !is_read(alloc, framing, 0, text, data, end)? {
            return Ok(false);
        }
    }
    Ok(true)
}

/// The first row whose body in chunks is read otherwise.
fn wrong_row(alloc: Global, rows: &[Row]) -> Result<Option<&'static str>, AllocError> {
    for (name, limit, text, data, end) in rows {
        if !is_read(alloc, Framing::Chunked, *limit, text, data, *end)? {
            return Ok(Some(name));
        }
    }
    Ok(None)
}

/// Whether the body ends so whose text is this front, so many letters, and this back.
fn ends_so(
    alloc: Global,
    front: &[u8],
    count: usize,
    back: &[u8],
    data: &[u8],
    end: End,
) -> Result<bool, AllocError> {
    let mut text = Vec::from_slice(alloc, front)?;
    for _ in 0..count {
        text.push(b'a')?;
    }
    text.extend_from_slice(back)?;
    is_read(alloc, Framing::Chunked, 99, text.as_slice(), data, end)
}

#[test]
fn bodies_by_their_length(rt: HostRuntime) -> Result<(), Fail> {
    assert!(&rt; sized_are_read(rt.alloc())?);
    Ok(())
}

#[test]
fn chunks_that_are_whole(rt: HostRuntime) -> Result<(), Fail> {
    assert_eq!(&rt; wrong_row(rt.alloc(), &WHOLE)?, None);
    Ok(())
}

#[test]
fn chunks_with_a_fault(rt: HostRuntime) -> Result<(), Fail> {
    assert_eq!(&rt; wrong_row(rt.alloc(), &FAULTY)?, None);
    Ok(())
}

#[test]
fn chunks_that_are_not_whole(rt: HostRuntime) -> Result<(), Fail> {
    assert_eq!(&rt; wrong_row(rt.alloc(), &OPEN)?, None);
    Ok(())
}

#[test]
fn a_size_line_has_at_most_256_bytes(rt: HostRuntime) -> Result<(), Fail> {
    let back = b"\r\nabc\r\n0\r\n\r\n";
    assert!(&rt; ends_so(rt.alloc(), b"3;", 252, back, b"abc", End::Before(0))?);
    assert!(&rt; ends_so(rt.alloc(), b"3;", 253, back, b"", End::Fault(400))?);
    Ok(())
}

#[test]
fn a_trailer_section_has_at_most_16384_bytes(rt: HostRuntime) -> Result<(), Fail> {
    let back = b"\r\n\r\n";
    assert!(&rt; ends_so(rt.alloc(), b"0\r\n", 16_380, back, b"", End::Before(0))?);
    assert!(&rt; ends_so(rt.alloc(), b"0\r\n", 16_381, back, b"", End::Fault(400))?);
    Ok(())
}
