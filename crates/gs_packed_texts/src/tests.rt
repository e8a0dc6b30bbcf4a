//! Texts packed and read back, with the number of their own bytes as counted by hand. Each text has the
//! memory of the third text before it: a row speaks of the first memory where its other texts are empty.
use crate::blocks::TextBlocks;
use crate::closed::ClosedTexts;
use crate::readers::Texts;
use crate::texts::PackedTexts;
use std::alloc::{AllocError, Global};
use std::test::Fail;

/// A name, the texts, and how many bytes of their own they have in all.
const ROWS: [(&str, &[&str], usize); 14] = [
    ("no text", &[], 0),
    ("empty texts", &["", "", "", ""], 0),
    (
        "triples of one subject",
        &["<e:a>", "<e:p>", "<e:b>", "<e:a>", "<e:p>", "<e:c>"],
        20,
    ),
    (
        "a text once more",
        &["<e:a>", "", "", "<e:a>", "", "", "<e:a>", "", ""],
        5,
    ),
    ("a literal once more", &["\"a\"", "", "", "\"a\""], 3),
    (
        "three quarters of an IRI from the anchor",
        &["<e:abcd>", "", "", "<e:abcx>"],
        10,
    ),
    (
        "less than three quarters of an IRI from the anchor",
        &["<e:abcd>", "", "", "<e:abxy>", "", "", "<e:abxz>"],
        18,
    ),
    (
        "eight of eleven bytes from the anchor",
        &["<e:abcdefg>", "", "", "<e:abcdexy>", "", "", "<e:abcdexz>"],
        24,
    ),
    (
        "two texts in turn",
        &["<e:a>", "", "", "<e:b>", "", "", "<e:a>", "", "", "<e:b>"],
        10,
    ),
    (
        "IRIs that begin alike",
        &[
            "<http://e.org/things/1>",
            "",
            "",
            "<http://e.org/things/2>",
            "",
            "",
            "<http://e.org/things/12>",
        ],
        27,
    ),
    (
        "a literal between IRIs",
        &[
            "<http://e.org/things/1>",
            "",
            "",
            "\"a\"",
            "",
            "",
            "<http://e.org/things/2>",
        ],
        28,
    ),
    (
        "a blank node between IRIs",
        &[
            "<http://e.org/things/1>",
            "",
            "",
            "_:b1",
            "",
            "",
            "<http://e.org/things/2>",
        ],
        29,
    ),
    (
        "an IRI that is the next anchor",
        &[
            "<http://e.org/things/1>",
            "",
            "",
            "<http://other.org/1>",
            "",
            "",
            "<http://other.org/2>",
        ],
        45,
    ),
    (
        "a text that is a front of the anchor",
        &["<http://e.org/things/1>", "", "", "<http://e.org/things/"],
        23,
    ),
];

/// A name, for how many texts and bytes room is made, the texts, and for how many marks, counts and bytes
/// there is room once they are closed.
const ROOMS: [(&str, [usize; 2], &[&str], [usize; 3]); 4] = [
    ("no text", [12, 100], &[], [0, 0, 0]),
    (
        "half of each is filled",
        [10, 50],
        &["<e:a>", "<e:p>", "<e:b>", "<e:c>", "<e:q>"],
        [5, 5, 25],
    ),
    (
        "all but one of each is filled",
        [6, 26],
        &["<e:a>", "<e:p>", "<e:b>", "<e:c>", "<e:q>"],
        [5, 5, 25],
    ),
    (
        "a text once more has no count",
        [8, 10],
        &["<e:a>", "", "", "<e:a>"],
        [4, 1, 5],
    ),
];

/// A name, of how many bytes two texts are that differ in the last one, and how many bytes of their own
/// they have.
const LONG: [(&str, usize, usize); 4] = [
    ("251 bytes in common", 252, 253),
    ("299 bytes in common", 300, 348),
    ("399 bytes in common", 400, 548),
    ("the longest texts", 65_535, 130_818),
];

/// Adds a text, after room was made for it.
fn add(packed: &mut PackedTexts, text: &[u8]) -> Result<(), AllocError> {
    packed.make_room(1, text.len())?;
    if text.len() <= 65_535 {
        packed.push(text);
    }
    Ok(())
}

/// Whether this text comes next.
fn comes(left: &mut Texts<'_>, text: &[u8]) -> bool {
    match left.next() {
        Some(read) => text.strip_prefix(read.front()) == Some(read.rest()),
        None => false,
    }
}

/// Whether these texts come next, and no others.
fn come_back(mut left: Texts<'_>, texts: &[&str]) -> bool {
    for text in texts {
        if !comes(&mut left, text.as_bytes()) {
            return false;
        }
    }
    left.next().is_none()
}

/// Whether these texts come back, and have so many bytes of their own.
fn is_right(alloc: Global, texts: &[&str], own: usize) -> Result<bool, AllocError> {
    let mut packed = PackedTexts::new(alloc);
    for text in texts {
        add(&mut packed, text.as_bytes())?;
    }
    Ok(come_back(packed.texts(), texts) && packed.own_bytes() == own)
}

/// The name of the first row that is wrong.
fn wrong_row(alloc: Global) -> Result<Option<&'static str>, AllocError> {
    for row in &ROWS {
        let (name, texts, own) = *row;
        if !is_right(alloc, texts, own)? {
            return Ok(Some(name));
        }
    }
    Ok(None)
}

/// Whether these texts come back after they were closed, with so much room.
fn is_room_right(
    alloc: Global,
    made: [usize; 2],
    texts: &[&str],
    left: [usize; 3],
) -> Result<bool, AllocError> {
    let mut packed = PackedTexts::new(alloc);
    packed.make_room(made[0], made[1])?;
    for text in texts {
        add(&mut packed, text.as_bytes())?;
    }
    let closed = packed.closed();
    Ok(come_back(closed.texts(), texts) && closed.rooms() == left && closed.capacity() == left[2])
}

/// The name of the first row of rooms that is wrong.
fn wrong_room(alloc: Global) -> Result<Option<&'static str>, AllocError> {
    for row in &ROOMS {
        let (name, made, texts, left) = *row;
        if !is_room_right(alloc, made, texts, left)? {
            return Ok(Some(name));
        }
    }
    Ok(None)
}

/// A text of so many bytes.
fn long_text(alloc: Global, count: usize, last: u8) -> Result<Vec<u8>, AllocError> {
    let mut text = Vec::from_slice(alloc, b"<")?;
    for _ in 2..count {
        text.push(b'a')?;
    }
    text.push(last)?;
    Ok(text)
}

/// Whether two texts of so many bytes come back, the second one from the first one's memory.
fn is_long_right(alloc: Global, count: usize, own: usize) -> Result<bool, AllocError> {
    let first = long_text(alloc, count, b'x')?;
    let second = long_text(alloc, count, b'y')?;
    let mut packed = PackedTexts::new(alloc);
    for text in [first.as_slice(), b"", b"", second.as_slice()] {
        add(&mut packed, text)?;
    }
    let mut left = packed.texts();
    for text in [first.as_slice(), b"", b"", second.as_slice()] {
        if !comes(&mut left, text) {
            return Ok(false);
        }
    }
    Ok(left.next().is_none() && packed.own_bytes() == own)
}

/// The name of the first row of long texts that is wrong.
fn wrong_long_row(alloc: Global) -> Result<Option<&'static str>, AllocError> {
    for row in &LONG {
        let (name, count, own) = *row;
        if !is_long_right(alloc, count, own)? {
            return Ok(Some(name));
        }
    }
    Ok(None)
}

#[test]
fn texts_come_back(rt: HostRuntime) -> Result<(), Fail> {
    assert_eq!(rt; wrong_row(rt.alloc())?, None);
    Ok(())
}

#[test]
fn closed_texts_give_their_room_back(rt: HostRuntime) -> Result<(), Fail> {
    assert_eq!(rt; wrong_room(rt.alloc())?, None);
    Ok(())
}

#[test]
fn long_texts_come_back(rt: HostRuntime) -> Result<(), Fail> {
    assert_eq!(rt; wrong_long_row(rt.alloc())?, None);
    Ok(())
}

/// So many different texts of five bytes each, closed.
fn closed(alloc: Global, count: usize) -> Result<ClosedTexts, AllocError> {
    let mut packed = PackedTexts::new(alloc);
    for number in 0..count {
        let text = format!(in alloc; "\"{number:03}\"")?;
        add(&mut packed, text.as_bytes())?;
    }
    Ok(packed.closed())
}

/// The rooms of 70 texts that are moved after 100 were left, and whether they are the same texts then. Where
/// it is so asked, the blocks are given back before.
fn moved(alloc: Global, cleared: bool) -> Result<([usize; 3], bool), AllocError> {
    let mut blocks = TextBlocks::new(alloc);
    closed(alloc, 100)?.leave_to(&mut blocks);
    if cleared {
        blocks.clear();
    }
    let mut kept = closed(alloc, 70)?;
    kept.move_into(&mut blocks);
    let mut left = kept.texts();
    for number in 0..70usize {
        let text = format!(in alloc; "\"{number:03}\"")?;
        if !comes(&mut left, text.as_bytes()) {
            return Ok((kept.rooms(), false));
        }
    }
    let is_over = left.next().is_none();
    Ok((kept.rooms(), is_over))
}

#[test]
fn texts_move_into_the_blocks_that_others_left(rt: HostRuntime) -> Result<(), Fail> {
    let own = closed(rt.alloc(), 70).expect(&rt, "memory").rooms();
    let others = closed(rt.alloc(), 100).expect(&rt, "memory").rooms();
    assert_eq!(rt;
        moved(rt.alloc(), false).expect(&rt, "memory"),
        (others, true)
    );
    assert_eq!(rt; moved(rt.alloc(), true).expect(&rt, "memory"), (own, true));
    Ok(())
}
