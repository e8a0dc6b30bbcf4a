//! Texts of N-Triples that are fed to uploads, whole and in pieces.
use crate::cuts::{wrong_cut, wrong_row_in};
use gs_schedules::{Row, Stop, prints, unstopped_line, wrong_row};
use std::alloc::{AllocError, Global};
use std::test::Fail;

/// Each is run in pieces of all these lengths in bytes; 0 is whole.
const CUTS: [u64; 6] = [0, 1, 2, 3, 7, 18_446_744_073_709_551_615];

const FEEDS: [Row; 23] = [
    (
        "blank nodes of different requests are different",
        "0 open post default\n0 feed nt _:x <http://e/p> _:x .\n0 commit\n0 open post default\n0 feed nt _:x <http://e/p> _:x .\n0 commit\n0 pin default\n0 piece 9\n",
        "opened 1\nfed\n204\nopened 2\nfed\n204\n200\n_:b1_1 <http://e/p> _:b1_1 .\n_:b2_1 <http://e/p> _:b2_1 .\nend\n",
    ),
    (
        "escapes, and a tag in upper case",
        "0 open put default\n0 feed nt <http://e/\\u00e9> <http://e/p> \"a\\tb\\u0041\\n\"@EN-us .\n0 commit\n0 pin default\n0 piece 1\n",
        "opened 1\nfed\n204\n200\n<http://e/\u{E9}> <http://e/p> \"a\tbA\\n\"@en-us .\nend\n",
    ),
    (
        "what two graphs were fed stands in the lines of all graphs",
        "0 open put default\n0 feed nt _:x <http://e/p> _:x .\n0 commit\n0 open put <http://e/g>\n0 feed nt _:x <http://e/p> \"a\\tb\\u0041\\n\"@EN-us .\n0 feed nt <http://e/\\u00e9> <http://e/p> \"1\"^^<http://www.w3.org/2001/XMLSchema#integer> .\n0 commit\n0 pin all\n0 piece 2\n0 piece 2\n",
        "opened 1\nfed\n204\nopened 2\nfed\nfed\n201\n200\n_:b1_1 <http://e/p> _:b1_1 .\n<http://e/\u{E9}> <http://e/p> \"1\"^^<http://www.w3.org/2001/XMLSchema#integer> <http://e/g> .\nmore\n_:b2_1 <http://e/p> \"a\tbA\\n\"@en-us <http://e/g> .\nend\n",
    ),
    (
        "a relative IRI is a fault",
        "0 open put default\n0 feed nt <a> <http://e/p> \"x\" .\n0 commit\n0 commit\n",
        "opened 1\nfed\nfault 400\nrefused WrongPhase\n",
    ),
    (
        "blank nodes keep their numbers from feed to feed",
        "0 open put default\n0 feed nt _:x <http://e/p> _:y .\n0 feed nt _:y <http://e/p> _:x .\n0 commit\n0 pin default\n0 piece 9\n",
        "opened 1\nfed\nfed\n204\n200\n_:b1_1 <http://e/p> _:b1_2 .\n_:b1_2 <http://e/p> _:b1_1 .\nend\n",
    ),
    (
        "a surrogate is no character",
        "0 open put default\n0 feed nt <http://e/s> <http://e/p> \"\\uD800\" .\n0 commit\n",
        "opened 1\nfed\nfault 400\n",
    ),
    (
        "an escaped space in an IRI is a fault",
        "0 open put default\n0 feed nt <http://e/s> <http://e/p> <http://e/\\u0020> .\n0 commit\n",
        "opened 1\nfed\nfault 400\n",
    ),
    (
        "a string that does not end is a fault",
        "0 open put default\n0 feed nt <http://e/s> <http://e/p> \"x\n0 commit\n",
        "opened 1\nfed\nfault 400\n",
    ),
    (
        "a line feed ends no statement",
        "0 open put default\n0 feed nt <http://e/s> <http://e/p>\n0 feed nt \"x\" .\n0 commit\n",
        "opened 1\nfed\nfed\nfault 400\n",
    ),
    (
        "what is fed is staged at once, and once",
        "0 open put default\n0 feed nt <http://e/s> <http://e/p> \"1\" .\ncounts\n0 feed nt <http://e/s> <http://e/p> \"2\" . # two\ncounts\n0 feed nt <http://e/s> <http://e/p> \"1\" .\ncounts\n0 commit\ncounts\n",
        "opened 1\nfed\nnodes 2 triples 0\nfed\nnodes 3 triples 0\nfed\nnodes 3 triples 0\n204\nnodes 3 triples 2\n",
    ),
    (
        "feeds and stages side by side",
        "0 open put <http://e/g>\n0 stage <http://e/s> <http://e/p> \"2\" .\n0 feed nt <http://e/s> <http://e/p> \"1\" .\n0 stage <http://e/s> <http://e/p> \"3\" .\n0 commit\n0 pin <http://e/g>\n0 piece 9\n",
        "opened 1\nstaged\nfed\nstaged\n201\n200\n<http://e/s> <http://e/p> \"1\" .\n<http://e/s> <http://e/p> \"2\" .\n<http://e/s> <http://e/p> \"3\" .\nend\n",
    ),
    (
        "an empty text and a comment say nothing",
        "0 open put default\n0 feed nt \n0 feed nt # none\n0 feed nt  \n0 commit\n0 pin default\n0 piece 1\n",
        "opened 1\nfed\nfed\nfed\n204\n200\nend\n",
    ),
    (
        "a feed makes no event where there is no upload",
        "0 feed nt <http://e/s> <http://e/p> \"1\" .\n0 pin default\n0 piece 1\n0 open put default\n0 feed nt <http://e/s> <http://e/p> \"1\" .\n0 commit\n0 feed nt \n0 pin default\n0 feed nt <http://e/s> <http://e/p> \"2\" .\n0 piece 9\n0 feed nt \n",
        "refused WrongPhase\n200\nend\nopened 1\nfed\n204\nrefused WrongPhase\n200\nrefused WrongPhase\n<http://e/s> <http://e/p> \"1\" .\nend\nrefused WrongPhase\n",
    ),
    (
        "a seat that is not there",
        "4 feed nt <http://e/s> <http://e/p> \"1\" .\n65535 feed nt \n4 commit\n",
        "refused BadSeat\nrefused BadSeat\nrefused BadSeat\n",
    ),
    (
        "feeds after a fault are dropped, and a new upload begins anew",
        "0 open put default\n0 feed nt <http://e/s> <http://e/p> \"1\" .\n0 feed nt !\n0 feed nt <http://e/s> <http://e/p> \"2\" .\ncounts\n0 commit\n0 commit\ncounts\n0 open put default\n0 feed nt <http://e/s> <http://e/p> \"3\" .\n0 commit\n0 pin default\n0 piece 9\n",
        "opened 1\nfed\nfed\nfed\nnodes 2 triples 0\nfault 400\nrefused WrongPhase\nnodes 2 triples 0\nopened 2\nfed\n204\n200\n<http://e/s> <http://e/p> \"3\" .\nend\n",
    ),
    (
        "a cancel drops the reader and its fault",
        "0 open put default\n0 feed nt !\n0 cancel\n0 open put default\n0 feed nt _:x <http://e/p> \"1\" .\n0 commit\n0 pin default\n0 piece 9\n",
        "opened 1\nfed\ncancelled\nopened 2\nfed\n204\n200\n_:b2_1 <http://e/p> \"1\" .\nend\n",
    ),
    (
        "a commit without a feed commits",
        "0 open put default\n0 feed nt !\n0 cancel\n0 open put default\n0 commit\n",
        "opened 1\nfed\ncancelled\nopened 2\n204\n",
    ),
    (
        "two seats have a reader each",
        "0 open put <http://e/g>\n1 open put <http://e/h>\n0 feed nt _:x <http://e/p> \"1\" .\n1 feed nt !\n0 feed nt _:y <http://e/p> \"2\" .\n1 commit\n0 commit\n0 pin <http://e/g>\n0 piece 9\n1 pin <http://e/h>\n",
        "opened 1\nopened 2\nfed\nfed\nfed\nfault 400\n201\n200\n_:b1_1 <http://e/p> \"1\" .\n_:b1_2 <http://e/p> \"2\" .\nend\n404\n",
    ),
    (
        "an event of another seat between a feed and its commit",
        "0 open put default\n0 feed nt <http://e/s> <http://e/p> \"1\" .\n0 stage <http://e/s> <http://e/p> \"2\" .\n1 cancel\n0 commit\n0 pin default\n0 piece 9\n",
        "opened 1\nfed\nstaged\nrefused WrongPhase\n204\n200\n<http://e/s> <http://e/p> \"1\" .\n<http://e/s> <http://e/p> \"2\" .\nend\n",
    ),
    (
        "a triple after a fault is not staged, nor one before it in the same feed",
        "0 open put default\n0 feed nt <http://e/s> <http://e/p> \"1\" . !\ncounts\n0 commit\n",
        "opened 1\nfed\nnodes 1 triples 0\nfault 400\n",
    ),
    (
        "a late upload is given up with what it was fed, and the next one has a text of its own",
        "0 open put default\n0 feed nt <http://e/s> <http://e/p> \"1\" .\n0 commit\n0 open put default since 0\n0 feed nt <http://e/s> <http://e/p> \"2\" .\n0 feed nt _:x <http://e/p> \"3\" .\n0 commit\n0 feed nt <http://e/s> <http://e/p> \"4\" .\n0 commit\ncounts\n0 open post default since 1\n0 feed ttl [] <http://e/p> \"5\" .\n0 commit\n0 pin default\n0 piece 9\n",
        "opened 1\nfed\n204\nopened 2\nfed\nfed\n412 1\nrefused WrongPhase\nrefused WrongPhase\nnodes 5 triples 1\nopened 3\nfed\n204\n200\n<http://e/s> <http://e/p> \"1\" .\n_:b3_1 <http://e/p> \"5\" .\nend\n",
    ),
    (
        "a fault of a text comes before its upload is late",
        "0 open put default since 0\n0 feed nt <http://e/s> <http://e/p> \"1\" . !\n1 open put default\n1 commit\n0 commit\n0 open put default since 0\n0 feed nt !\n0 cancel\n0 open put default since 0\n0 commit\n",
        "opened 1\nfed\nopened 2\n204\nfault 400\nopened 3\nfed\ncancelled\nopened 4\n412 1\n",
    ),
    (
        "spaces and a comment around a statement",
        "0 open put default\n0 feed nt \t<http://e/s>\t<http://e/p>  \"1\"^^<http://e/d>.  # one\n0 commit\n0 pin default\n0 piece 9\n",
        "opened 1\nfed\n204\n200\n<http://e/s> <http://e/p> \"1\"^^<http://e/d> .\nend\n",
    ),
];

#[test]
fn feeds_print_the_same_in_any_pieces(rt: HostRuntime) -> Result<(), Fail> {
    assert_eq!(rt; wrong_row_in(rt.alloc(), &CUTS, &FEEDS)?, None);
    assert_eq!(rt; wrong_row(rt.alloc(), &FEEDS), None);
    Ok(())
}

/// So many letters.
fn letters(alloc: Global, count: usize) -> Result<String, AllocError> {
    let mut text = String::with_capacity(alloc, count)?;
    for _ in 0..count {
        text.push('x')?;
    }
    Ok(text)
}

/// The first length of pieces under which an upload of a literal with so many letters does not
/// print this.
fn wrong_cut_of_letters(
    alloc: Global,
    count: usize,
    want: &str,
) -> Result<Option<u64>, AllocError> {
    let text = letters(alloc, count)?;
    let input = format!(in alloc;
        "0 open put default\n0 feed nt <http://e/s> <http://e/p> \"{text}\" .\n0 commit\ncounts\n"
    )?;
    wrong_cut(alloc, &[0, 1, 7, 4_096], input.as_str(), want)
}

/// A term has at most 65,535 bytes, two of which are a literal's quotes.
#[test]
fn the_longest_literal_is_fed(rt: HostRuntime) -> Result<(), Fail> {
    let fed = "opened 1\nfed\n204\nnodes 2 triples 1\n";
    assert_eq!(rt; wrong_cut_of_letters(rt.alloc(), 65_533, fed)?, None);
    let refused = "opened 1\nfed\nfault 400\nnodes 1 triples 0\n";
    assert_eq!(rt; wrong_cut_of_letters(rt.alloc(), 65_534, refused)?, None);
    Ok(())
}

/// Schedules that change the length of pieces, or begin a store.
const OTHERS: [Row; 2] = [
    // The length of pieces may change within an upload and within a statement.
    (
        "pieces change their length",
        "0 open put default\ncut 1\n0 feed nt _:x <http://e/p> \"1\" .\ncut 0\n0 feed nt _:x <http://e/p> \"2\" .\ncut 5\n0 feed nt _:y <http://e/p> \"3\" .\n0 commit\n0 pin default\n0 piece 9\n",
        "opened 1\nfed\nfed\nfed\n204\n200\n_:b1_1 <http://e/p> \"1\" .\n_:b1_1 <http://e/p> \"2\" .\n_:b1_2 <http://e/p> \"3\" .\nend\n",
    ),
    // A commit that the store refuses ends the text: a feed after it is dropped, and what it says
    // is no part of the upload.
    (
        "a refused commit ends the text",
        "store 1 999999999999999999 0\n0 open put default\n0 feed nt <http://e/s> <http://e/p> \"1\" .\n0 commit\n0 feed nt !\ncounts\n0 commit\n0 cancel\n",
        "opened 1\nfed\nrefused LastNumber\nfed\nnodes 2 triples 0\nrefused LastNumber\ncancelled\n",
    ),
];

#[test]
fn other_schedules_with_feeds_print_what_they_must(rt: HostRuntime) {
    assert_eq!(rt; wrong_row(rt.alloc(), &OTHERS), None);
}

/// Lines that are near a feed or a cut and are no command.
const NO_COMMANDS: [&str; 15] = [
    "0 feed",
    "0 feed ",
    "0 feed nt",
    "0 feed xx a",
    "0 feed  nt a",
    "0 Feed nt a",
    "00 feed nt a",
    "65536 feed nt a",
    "feed nt a",
    "cut",
    "cut ",
    "cut 01",
    "cut -1",
    "cut 18446744073709551616",
    "0 cut 1",
];

/// Where such a line stands.
pub const AFTER_AN_OPEN: Stop = Stop {
    front: "0 open put default\n",
    back: "\n0 cancel\n",
    out: "opened 1\n",
    err: "gsdrill: line 2 is no command\n",
};

#[test]
fn lines_near_a_feed_end_the_run(rt: HostRuntime) -> Result<(), Fail> {
    let going_on = unstopped_line(rt.alloc(), &NO_COMMANDS, &AFTER_AN_OPEN)?;
    assert_eq!(rt; going_on, None);
    Ok(())
}

/// A cut and a refused feed are commands: no store begins after them.
#[test]
fn no_store_begins_after_a_feed(rt: HostRuntime) {
    let said = "gsdrill: line 2 is no command\n";
    assert!(rt; prints(rt.alloc(), b"cut 3\nstore 4 0 0\n", "", said, 2));
    let fed = b"0 feed nt \nstore 4 0 0\n";
    assert!(rt; prints(rt.alloc(), fed, "refused WrongPhase\n", said, 2));
}

/// A line that is not UTF-8 is no command.
#[test]
fn a_feed_of_other_bytes_ends_the_run(rt: HostRuntime) {
    let input = b"0 open put default\n0 feed nt # \xFF\n";
    let said = "gsdrill: line 2 is no command\n";
    assert!(rt; prints(rt.alloc(), input, "opened 1\n", said, 2));
}
