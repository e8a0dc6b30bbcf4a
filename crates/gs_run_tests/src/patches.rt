//! Schedules of patches, worked by hand, with their operations in the notation of these tests.
use crate::runs::{prints, wrong_row};
use gs_schedules::Row;
use std::alloc::{AllocError, Global};
use std::test::Fail;

const ROWS: [Row; 16] = [
    (
        "a patch removes the instances of two patterns",
        "0 open put default\n0 stage <1> <p> <2> .\n0 stage <2> <q> \"z\" .\n0 stage <3> <p> <4> .\n0 stage <5> <q> \"y\" .\n0 commit\n0 open patch default\n0 patch: where ?s <p> ?o . ?o <q> ?z\n0 pin default\n0 piece 9\n0 open patch default\n0 cancel\n0 open patch default\n0 cancel\n0 open patch <http://e/g>\n0 patch:\n",
        "opened 1\nstaged\nstaged\nstaged\nstaged\n204\nopened 2\n204\n200\n<http://e/3> <http://e/p> <http://e/4> .\n<http://e/5> <http://e/q> \"y\" .\nend\nopened 3\ncancelled\nopened 4\ncancelled\nopened 5\n404\n",
    ),
    (
        "what an operation adds, the next one finds",
        "0 open patch default\n0 patch: insert _1 <p> 1 ; where ?s <p> 1 ; insert <a> a 01\n0 pin default\n0 piece 9\n",
        "opened 1\n204\n200\n<http://e/a> <http://www.w3.org/1999/02/22-rdf-syntax-ns#type> \"01\"^^<http://www.w3.org/2001/XMLSchema#integer> .\nend\n",
    ),
    (
        "the same operations in another order",
        "0 open patch default\n0 patch: where ?s <p> 1 ; insert _1 <p> 1\n0 pin default\n0 piece 9\n",
        "opened 1\n204\n200\n_:b1_1 <http://e/p> \"1\"^^<http://www.w3.org/2001/XMLSchema#integer> .\nend\n",
    ),
    (
        "a collection of two, between patches that are given up",
        "0 open patch default\n0 cancel\n0 open patch default\n0 cancel\n0 open patch default\n0 cancel\n0 open patch default\n0 cancel\n0 open patch default\n0 patch: insert _5_1 first 1 . _5_1 rest _5_2 . _5_2 first 2 . _5_2 rest nil\n0 open patch default\n0 cancel\n0 pin default\n0 piece 9\n",
        "opened 1\ncancelled\nopened 2\ncancelled\nopened 3\ncancelled\nopened 4\ncancelled\nopened 5\n204\nopened 6\ncancelled\n200\n_:b5_1 <http://www.w3.org/1999/02/22-rdf-syntax-ns#first> \"1\"^^<http://www.w3.org/2001/XMLSchema#integer> .\n_:b5_1 <http://www.w3.org/1999/02/22-rdf-syntax-ns#rest> _:b5_2 .\n_:b5_2 <http://www.w3.org/1999/02/22-rdf-syntax-ns#first> \"2\"^^<http://www.w3.org/2001/XMLSchema#integer> .\n_:b5_2 <http://www.w3.org/1999/02/22-rdf-syntax-ns#rest> <http://www.w3.org/1999/02/22-rdf-syntax-ns#nil> .\nend\n",
    ),
    (
        "what is deleted and inserted again is there",
        "0 open put default\n0 stage <a> <p> <b> .\n0 commit\n0 open patch default\n0 patch: delete <a> <p> <b> ; insert <a> <p> <b>\n0 pin default\n0 piece 9\n",
        "opened 1\nstaged\n204\nopened 2\n204\n200\n<http://e/a> <http://e/p> <http://e/b> .\nend\n",
    ),
    (
        "what is inserted and deleted again is not there",
        "0 open put default\n0 stage <a> <p> <b> .\n0 commit\n0 open patch default\n0 patch: insert <a> <p> <c> ; delete <a> <p> <b> . <a> <p> <c>\n0 pin default\n0 piece 9\n",
        "opened 1\nstaged\n204\nopened 2\n204\n200\nend\n",
    ),
    (
        "what is deleted need not be there, and what is inserted may be",
        "0 open put default\n0 stage <a> <p> <b> .\n0 commit\n0 open patch default\n0 patch: delete <a> <p> <c> . <a> <p> <c> ; insert <a> <p> <b> . <a> <p> <b>\n0 pin default\n0 piece 9\n",
        "opened 1\nstaged\n204\nopened 2\n204\n200\n<http://e/a> <http://e/p> <http://e/b> .\nend\n",
    ),
    (
        "each of three operations on what the one before it left",
        "0 open put default\n0 stage <a> <p> <b> .\n0 stage <c> <p> <d> .\n0 commit\n0 open patch default\n0 patch: where <a> <p> ?x ; insert <b> <q> <c> ; where <b> <q> ?x . ?x <p> ?y\n0 pin default\n0 piece 9\n",
        "opened 1\nstaged\nstaged\n204\nopened 2\n204\n200\nend\n",
    ),
    (
        "a patch is taken whole at its commit, and a read keeps its lines",
        "0 open put <http://e/g>\n0 stage <a> <p> <b> .\n0 stage <c> <p> <d> .\n0 commit\n0 open patch <http://e/g>\n1 pin <http://e/g>\n1 piece 1\n0 patch: where ?s <p> ?o\n1 piece 1\n1 pin <http://e/g>\n1 piece 1\n",
        "opened 1\nstaged\nstaged\n201\nopened 2\n200\n<http://e/a> <http://e/p> <http://e/b> .\nmore\n204\n<http://e/c> <http://e/p> <http://e/d> .\nend\n200\nend\n",
    ),
    (
        "the graph is that of the commit, and not that of the opening",
        "0 open patch default\n1 open put default\n1 stage <a> <p> <b> .\n1 commit\n0 patch: insert <c> <p> <d>\n0 pin default\n0 piece 9\n",
        "opened 1\nopened 2\nstaged\n204\n204\n200\n<http://e/a> <http://e/p> <http://e/b> .\n<http://e/c> <http://e/p> <http://e/d> .\nend\n",
    ),
    (
        "a graph deleted after the opening is 404",
        "0 open put <http://e/g>\n0 commit\n0 open patch <http://e/g>\n1 delete <http://e/g>\n0 patch: insert <a> <p> <b>\n0 head <http://e/g>\n0 cancel\n",
        "opened 1\n201\nopened 2\n204\n404\n404\nrefused WrongPhase\n",
    ),
    (
        "a graph made after the opening is patched",
        "0 open patch <http://e/g>\n1 open put <http://e/g>\n1 commit\n0 patch: insert <a> <p> <b>\n0 pin <http://e/g>\n0 piece 9\n",
        "opened 1\nopened 2\n201\n204\n200\n<http://e/a> <http://e/p> <http://e/b> .\nend\n",
    ),
    (
        "a patch that leaves nothing leaves the graph",
        "0 open put <http://e/g>\n0 stage <a> <p> <b> .\n0 commit\n0 open patch <http://e/g>\n0 patch: where ?s ?p ?o\n0 head <http://e/g>\n0 pin <http://e/g>\n0 piece 9\n",
        "opened 1\nstaged\n201\nopened 2\n204\n200\n200\nend\n",
    ),
    (
        "an empty update takes a commit number, and a refused patch stays open",
        "store 4 999999999999999998 0\n0 open patch default\n0 patch:\n0 open patch default\n0 patch:\n0 patch: insert <a> <p> <b>\n0 cancel\n0 pin default\n0 piece 9\n0 open patch <http://e/g>\n0 patch: insert <a> <p> <b>\n",
        "opened 1\n204\nopened 2\nrefused LastNumber\nrefused LastNumber\ncancelled\n200\nend\nopened 3\n404\n",
    ),
    (
        "after the last request number no patch is opened",
        "store 4 0 999999999999999999\n0 open patch default\n0 patch:\n",
        "refused LastNumber\nrefused WrongPhase\n",
    ),
    (
        "a patch is no upload, and an upload is no patch",
        "0 open patch default\n0 stage <a> <p> <b> .\n0 commit\n0 piece 1\n0 open patch default\n0 cancel\n0 patch:\n0 open put default\n0 patch:\n0 cancel\n9 patch:\n",
        "opened 1\nrefused WrongPhase\nrefused WrongPhase\nrefused WrongPhase\nrefused WrongPhase\ncancelled\nrefused WrongPhase\nopened 2\nrefused WrongPhase\ncancelled\nrefused BadSeat\n",
    ),
];

#[test]
fn a_run_over_each_store_takes_patches_whole(rt: HostRuntime) -> Result<(), Fail> {
    assert_eq!(rt; wrong_row(rt.alloc(), &ROWS)?, None);
    Ok(())
}

/// A patch of a hundred operations: an insertion of a thousand triples, and then by turns a triple
/// that comes, one that goes, and the instances of a pattern.
fn long_patch(alloc: Global) -> Result<String, AllocError> {
    let mut input = String::new(alloc);
    input.push_str("0 open patch default\n0 patch: insert ")?;
    for number in 0..1000u64 {
        input.push_str(format!(in alloc; "<a> <p> {number} . ")?.as_str())?;
    }
    for number in 0..33u64 {
        let more = format!(in alloc;
            "; insert <b> <q> {number} ; delete <a> <p> {number} ; where <b> <q> ?o "
        )?;
        input.push_str(more.as_str())?;
    }
    input.push_str(
        "\n0 pin default\n0 piece 2\n0 cancel\n0 open patch default\n0 patch: where ?s <p> ?o\n0 pin default\n0 piece 9\n",
    )?;
    Ok(input)
}

#[test]
fn a_patch_may_be_long(rt: HostRuntime) -> Result<(), Fail> {
    let alloc = rt.alloc();
    let want =
        "opened 1\n204\n200\n<http://e/a> <http://e/p> \"100\"^^<http://www.w3.org/2001/XMLSchema#integer> .\n<http://e/a> <http://e/p> \"101\"^^<http://www.w3.org/2001/XMLSchema#integer> .\nmore\ncancelled\nopened 2\n204\n200\nend\n";
    assert!(rt; prints(alloc, long_patch(alloc)?.as_str(), want)?);
    Ok(())
}
