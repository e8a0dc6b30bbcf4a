//! Texts of Turtle that are fed to uploads, whole and in pieces.
use crate::cuts::{wrong_cut, wrong_row_in};
use crate::feeds::AFTER_AN_OPEN;
use gs_schedules::{Row, Stop, unstopped_line};
use std::alloc::{AllocError, Global};
use std::test::Fail;

/// Each is run in pieces of all these lengths in bytes; 0 is whole.
const CUTS: [u64; 4] = [0, 1, 2, 3];

const FEEDS: [Row; 18] = [
    (
        "a prefix, the graph's own name, and a collection",
        "0 open put <http://e/g>\n0 feed ttl @prefix ex: <http://e/> . <> a ex:a.b, ( 1 .5 ) .\n0 commit\n0 pin <http://e/g>\n0 piece 9\n",
        "opened 1\nfed\n201\n200\n<http://e/g> <http://www.w3.org/1999/02/22-rdf-syntax-ns#type> <http://e/a.b> .\n<http://e/g> <http://www.w3.org/1999/02/22-rdf-syntax-ns#type> _:b1_1 .\n_:b1_1 <http://www.w3.org/1999/02/22-rdf-syntax-ns#first> \"1\"^^<http://www.w3.org/2001/XMLSchema#integer> .\n_:b1_1 <http://www.w3.org/1999/02/22-rdf-syntax-ns#rest> _:b1_2 .\n_:b1_2 <http://www.w3.org/1999/02/22-rdf-syntax-ns#first> \".5\"^^<http://www.w3.org/2001/XMLSchema#decimal> .\n_:b1_2 <http://www.w3.org/1999/02/22-rdf-syntax-ns#rest> <http://www.w3.org/1999/02/22-rdf-syntax-ns#nil> .\nend\n",
    ),
    (
        "blank nodes of different requests are different",
        "0 open post default\n0 feed ttl _:x <http://e/p> _:x .\n0 commit\n0 open post default\n0 feed ttl _:x <http://e/p> _:x .\n0 commit\n0 pin default\n0 piece 9\n",
        "opened 1\nfed\n204\nopened 2\nfed\n204\n200\n_:b1_1 <http://e/p> _:b1_1 .\n_:b2_1 <http://e/p> _:b2_1 .\nend\n",
    ),
    (
        "brackets, a tag in upper case and a label",
        "0 open put <http://e/g>\n0 feed ttl [ <p> [ ] ] <q> \"x\"@EN , _:a .\n0 commit\n0 pin <http://e/g>\n0 piece 9\n",
        "opened 1\nfed\n201\n200\n_:b1_1 <http://e/p> _:b1_2 .\n_:b1_1 <http://e/q> \"x\"@en .\n_:b1_1 <http://e/q> _:b1_3 .\nend\n",
    ),
    (
        "the base of the default graph",
        "0 open put default\n0 feed ttl <s> <p> <> .\n0 commit\n0 pin default\n0 piece 9\n",
        "opened 1\nfed\n204\n200\n<http://localhost/s> <http://localhost/p> <http://localhost/store> .\nend\n",
    ),
    (
        "the base of a graph that has no name yet",
        "0 open new\n0 feed ttl <> <p> <#x> .\n0 commit\n0 pin <http://localhost/graphs/n1-0>\n0 piece 9\n",
        "opened 1\nfed\n201 http://localhost/graphs/n1-0\n200\n<http://localhost/store> <http://localhost/p> <http://localhost/store#x> .\nend\n",
    ),
    (
        "the base is the graph's name as it is, and its fragment is no part of it",
        "0 open put <http://e/a/../g#f>\n0 feed ttl <> <p> <#h> .\n0 commit\n0 pin <http://e/a/../g#f>\n0 piece 9\n",
        "opened 1\nfed\n201\n200\n<http://e/a/../g> <http://e/p> <http://e/a/../g#h> .\nend\n",
    ),
    (
        "a dot after a number",
        "0 open put default\n0 feed ttl <http://e/s> <http://e/p> 1.\n0 commit\n0 pin default\n0 piece 9\n",
        "opened 1\nfed\n204\n200\n<http://e/s> <http://e/p> \"1\"^^<http://www.w3.org/2001/XMLSchema#integer> .\nend\n",
    ),
    (
        "a long string goes on in the next feed",
        "0 open put default\n0 feed ttl <http://e/s> <http://e/p> '''one\n0 feed ttl two''' .\n0 commit\n0 pin default\n0 piece 9\n",
        "opened 1\nfed\nfed\n204\n200\n<http://e/s> <http://e/p> \"one\\ntwo\" .\nend\n",
    ),
    (
        "a short string does not go on",
        "0 open put default\n0 feed ttl <http://e/s> <http://e/p> 'one\n0 feed ttl two' .\n0 commit\n",
        "opened 1\nfed\nfed\nfault 400\n",
    ),
    (
        "prefixes, the base and labels last from feed to feed",
        "0 open put <http://e/g>\n0 feed ttl PREFIX ex: <x#> BASE <http://f/>\n0 feed ttl _:x ex:p <y>\n0 feed ttl ; ex:q _:x .\n0 commit\n0 pin <http://e/g>\n0 piece 9\n",
        "opened 1\nfed\nfed\nfed\n201\n200\n_:b1_1 <http://e/x#p> <http://f/y> .\n_:b1_1 <http://e/x#q> _:b1_1 .\nend\n",
    ),
    (
        "prefixes end with their upload",
        "0 open put default\n0 feed ttl @prefix ex: <http://e/> . ex:s ex:p ex:o .\n0 commit\n0 open put default\n0 feed ttl ex:s ex:p ex:o .\n0 commit\n0 pin default\n0 piece 9\n",
        "opened 1\nfed\n204\nopened 2\nfed\nfault 400\n200\n<http://e/s> <http://e/p> <http://e/o> .\nend\n",
    ),
    (
        "triples are staged at their dot, and once",
        "0 open put default\n0 feed ttl <s> <p> 1 , 2\ncounts\n0 feed ttl . <s> <p> 2 , [ <q> 3 ]\ncounts\n0 feed ttl . <s> <p> 2 .\ncounts\n0 commit\ncounts\n",
        "opened 1\nfed\nnodes 1 triples 0\nfed\nnodes 3 triples 0\nfed\nnodes 5 triples 0\n204\nnodes 5 triples 4\n",
    ),
    (
        "a triple before a fault in the same feed is not staged",
        "0 open put default\n0 feed ttl <s> <p> 1 .\n0 feed ttl <s> <p> 2 . <s> .\n0 feed ttl <s> <p> 3 .\ncounts\n0 commit\ncounts\n0 commit\n",
        "opened 1\nfed\nfed\nfed\nnodes 2 triples 0\nfault 400\nnodes 2 triples 0\nrefused WrongPhase\n",
    ),
    (
        "a statement that does not end is a fault",
        "0 open put default\n0 feed ttl <s> <p> [ <q> <o> ]\n0 commit\n",
        "opened 1\nfed\nfault 400\n",
    ),
    (
        "an empty text and a comment say nothing",
        "0 open put default\n0 feed ttl \n0 feed ttl # none\n0 feed ttl @base <http://e/> .\n0 commit\n0 pin default\n0 piece 1\n",
        "opened 1\nfed\nfed\nfed\n204\n200\nend\n",
    ),
    (
        "an upload in one language, and the next in the other",
        "0 open put default\n0 feed ttl <s> <p> <o> .\n0 commit\n0 open post default\n0 feed nt <http://e/s> <http://e/p> <http://e/o> .\n0 cancel\n0 open post default\n0 feed ttl <s> <p> 1 .\n0 commit\n0 pin default\n0 piece 9\n",
        "opened 1\nfed\n204\nopened 2\nfed\ncancelled\nopened 3\nfed\n204\n200\n<http://localhost/s> <http://localhost/p> \"1\"^^<http://www.w3.org/2001/XMLSchema#integer> .\n<http://localhost/s> <http://localhost/p> <http://localhost/o> .\nend\n",
    ),
    (
        "two seats, each in its language",
        "0 open put <http://e/g>\n1 open put <http://e/h>\n0 feed ttl <> <p> [\n1 feed nt _:x <http://e/p> _:y .\n0 feed ttl ] .\n1 commit\n0 commit\n0 pin <http://e/g>\n0 piece 9\n1 pin <http://e/h>\n1 piece 9\n",
        "opened 1\nopened 2\nfed\nfed\nfed\n201\n201\n200\n<http://e/g> <http://e/p> _:b1_1 .\nend\n200\n_:b2_1 <http://e/p> _:b2_2 .\nend\n",
    ),
    (
        "a feed makes no event where there is no upload",
        "0 feed ttl <s> <p> <o> .\n0 feed nt <s>\n9 feed ttl <s>\n0 open put default\n0 feed ttl <s> <p> <o> .\n0 commit\n0 feed ttl \n0 feed nt \n",
        "refused WrongPhase\nrefused WrongPhase\nrefused BadSeat\nopened 1\nfed\n204\nrefused WrongPhase\nrefused WrongPhase\n",
    ),
];

#[test]
fn turtle_prints_the_same_in_any_pieces(rt: HostRuntime) -> Result<(), Fail> {
    assert_eq!(rt; wrong_row_in(rt.alloc(), &CUTS, &FEEDS)?, None);
    Ok(())
}

/// A statement whose object is so many collections within one another.
fn nested(alloc: Global, depth: usize) -> Result<String, AllocError> {
    let mut text = String::from_str(alloc, "<http://e/s> <http://e/p> ")?;
    for _ in 0..depth {
        text.push_str("( ")?;
    }
    for _ in 0..depth {
        text.push_str(") ")?;
    }
    text.push('.')?;
    Ok(text)
}

/// The first length of pieces under which an upload of so many collections within one another does
/// not print this.
fn wrong_cut_of_nested(alloc: Global, depth: usize, want: &str) -> Result<Option<u64>, AllocError> {
    let text = nested(alloc, depth)?;
    let input = format!(in alloc;
        "0 open put <http://e/g>\n0 feed ttl {text}\n0 commit\ncounts\n"
    )?;
    wrong_cut(alloc, &CUTS, input.as_str(), want)
}

/// Of 64 collections all but the innermost have a cell, which has two triples.
#[test]
fn sixty_four_collections_may_stand_in_one_another(rt: HostRuntime) -> Result<(), Fail> {
    let fed = "opened 1\nfed\n201\nnodes 128 triples 127\n";
    assert_eq!(rt; wrong_cut_of_nested(rt.alloc(), 64, fed)?, None);
    let refused = "opened 1\nfed\nfault 400\nnodes 1 triples 0\n";
    assert_eq!(rt; wrong_cut_of_nested(rt.alloc(), 65, refused)?, None);
    Ok(())
}

/// The lines of an upload, of which the third is in another language than the second.
const MIXED: [&str; 5] = [
    "0 feed ttl <s> <p> <o> .\n0 feed nt <http://e/s> <http://e/p> <http://e/o> .\n",
    "0 feed nt <http://e/s> <http://e/p> <http://e/o> .\n0 feed ttl <s> <p> <o> .\n",
    "0 feed ttl \n0 feed nt \n",
    "0 feed ttl !\n0 feed nt <http://e/s> <http://e/p> <http://e/o> .\n",
    "0 feed nt !\n0 feed ttl \n",
];

/// Where they stand.
const IN_AN_UPLOAD: Stop = Stop {
    front: "0 open put default\n",
    back: "0 commit\n",
    out: "opened 1\nfed\n",
    err: "gsdrill: line 3 is no command\n",
};

#[test]
fn an_upload_has_one_language(rt: HostRuntime) -> Result<(), Fail> {
    let going_on = unstopped_line(rt.alloc(), &MIXED, &IN_AN_UPLOAD)?;
    assert_eq!(rt; going_on, None);
    Ok(())
}

/// Lines that are near a feed of Turtle and are no command.
const NO_COMMANDS: [&str; 8] = [
    "0 feed ttl",
    "0 feed turtle a",
    "0 feed  ttl a",
    "0 feed TTL a",
    "0 feed ttl\ta",
    "00 feed ttl a",
    "65536 feed ttl a",
    "feed ttl a",
];

#[test]
fn lines_near_a_feed_of_turtle_end_the_run(rt: HostRuntime) -> Result<(), Fail> {
    let going_on = unstopped_line(rt.alloc(), &NO_COMMANDS, &AFTER_AN_OPEN)?;
    assert_eq!(rt; going_on, None);
    Ok(())
}
