//! Schedules through `drill`, each with what it must print.
use gs_schedules::{
    CONDITIONS, DATASETS, PATCHES, ROWS, Row, Stop, prints, unstopped_line, wrong_row,
};
use std::alloc::{AllocError, Global};
use std::test::Fail;

#[test]
fn worked_schedules_print_what_they_must(rt: HostRuntime) {
    assert_eq!(rt; wrong_row(rt.alloc(), &ROWS), None);
}

#[test]
fn worked_reads_of_all_graphs_print_what_they_must(rt: HostRuntime) {
    assert_eq!(rt; wrong_row(rt.alloc(), &DATASETS), None);
}

#[test]
fn worked_writes_on_condition_print_what_they_must(rt: HostRuntime) {
    assert_eq!(rt; wrong_row(rt.alloc(), &CONDITIONS), None);
}

#[test]
fn worked_patches_print_what_they_must(rt: HostRuntime) {
    assert_eq!(rt; wrong_row(rt.alloc(), &PATCHES), None);
}

/// Schedules that are not among the worked ones.
const OTHERS: [Row; 2] = [
    (
        "the last line feed may be missing",
        "0 open put default\n0 commit\n0 pin default\n0 piece 1",
        "opened 1\n204\n200\nend\n",
    ),
    // Two seats write one triple each: the second in the order of commits is the graph. Comments
    // and empty lines are skipped, repeats are one triple, and the last line feed may be missing.
    (
        "the last commit is the graph",
        "# two uploads\n\n0 open put default\n1 open put default\n0 stage <http://e/s> <http://e/p> \"0\" .\n0 stage <http://e/s> <http://e/p> \"0\" .\n1 stage _:b1_1 <http://e/p> \"x\\ny\"@en-us .\ncounts\n1 commit\n0 commit\n2 pin default\n2 piece 2",
        "opened 1\nopened 2\nstaged\nstaged\nstaged\nnodes 4 triples 0\n204\n204\n200\n<http://e/s> <http://e/p> \"0\" .\nend\n",
    ),
];

#[test]
fn other_schedules_print_what_they_must(rt: HostRuntime) {
    assert_eq!(rt; wrong_row(rt.alloc(), &OTHERS), None);
}

#[test]
fn a_bad_line_stops_the_run(rt: HostRuntime) {
    let input = b"# first\n0 commit\n0 destroy default\n";
    let said = "gsdrill: line 3 is no command\n";
    assert!(rt; prints(rt.alloc(), input, "refused WrongPhase\n", said, 2));
}

/// Whether a patch with a literal of so many letters prints this.
fn prints_long(alloc: Global, letters: usize, want: &str) -> Result<bool, AllocError> {
    let mut lexical = String::new(alloc);
    for _ in 0..letters {
        lexical.push('x')?;
    }
    let input = format!(in alloc;
        "0 open patch default\n0 patch INSERT DATA {{ <http://e/a> a \"{lexical}\" }}\n"
    )?;
    Ok(prints(alloc, input.as_bytes(), want, "", 0))
}

/// A literal's text has its quotes, and at most 65,535 bytes.
#[test]
fn a_patch_with_a_term_that_is_too_long_has_a_fault(rt: HostRuntime) -> Result<(), Fail> {
    assert!(rt; prints_long(rt.alloc(), 65_533, "opened 1\n204\n")?);
    assert!(rt; prints_long(rt.alloc(), 65_534, "opened 1\nfault 400\n")?);
    Ok(())
}

#[test]
fn a_patch_that_is_not_utf8_is_no_command(rt: HostRuntime) {
    let input = b"0 open patch default\n0 patch \xff\n";
    let said = "gsdrill: line 2 is no command\n";
    assert!(rt; prints(rt.alloc(), input, "opened 1\n", said, 2));
}

/// Lines that are no command, each as the third line of a schedule.
const NO_COMMANDS: [&str; 57] = [
    "0",
    "0 ",
    "pin default",
    "0 pin",
    "0 pin graph",
    "0 pin <e>",
    "0 pin <http://e/g",
    "0  pin default",
    " 0 pin default",
    "00 pin default",
    "65536 pin default",
    "-1 cancel",
    "0 piece 01",
    "0 piece 4294967296",
    "0 piece",
    "0 commit ",
    "0 Commit",
    "0 open",
    "0 open put",
    "0 open patch",
    "0 open patch ",
    "0 open patch graph",
    "0 open patch <e>",
    "0 open patch default ",
    "0 open patches default",
    "0 patchX",
    "0 patches",
    "0 Patch",
    "00 patch",
    "65536 patch",
    "patch",
    "0 open post",
    "0 open new default",
    "0 open news",
    "0 delete",
    "0 delete graph",
    "0 head",
    "0 head <http://e/g> ",
    "0 pin  all",
    "0 pin ALL",
    "0 pin all ",
    "0 pin <all>",
    "0 pin all default",
    "0 pin default all",
    "pin all",
    "0 head ALL",
    "0 heads all",
    "0 delete all",
    "0 open put all",
    "0 open patch all",
    "0 all",
    "0 stage <e> <http://e/p> \"1\" .",
    "0 stage <http://e/s> <http://e/p> \"1\".",
    "0 stage \"1\" <http://e/p> \"1\" .",
    "reclaim 18446744073709551616",
    "store 4 0 0",
    "counts all",
];

/// The same, where a condition is wrong: on what has none, or with no number of 64 bits.
const NO_CONDITIONS: [&str; 26] = [
    "0 open new since 1",
    "0 open put <http://e/g> since",
    "0 open put <http://e/g> since ",
    "0 open put <http://e/g> since 01",
    "0 open put <http://e/g> since 00",
    "0 open put <http://e/g> since -1",
    "0 open put <http://e/g> since +1",
    "0 open put <http://e/g> since 1 ",
    "0 open put <http://e/g> since 1 since 1",
    "0 open put <http://e/g>  since 1",
    "0 open put <http://e/g> since  1",
    "0 open put <http://e/g> Since 1",
    "0 open put <http://e/g> 1",
    "0 open put <http://e/g>since 1",
    "0 open put since 1",
    "0 open post default since",
    "0 open post default since 18446744073709551616",
    "0 open patch default since x",
    "0 open patch since 1",
    "0 delete <http://e/g> since 100000000000000000000",
    "0 delete all since 1",
    "0 head <http://e/g> since 1",
    "0 head all since 1",
    "0 pin default since 1",
    "0 pin all since 1",
    "0 commit since 1",
];

/// Where they stand.
const THIRD: Stop = Stop {
    front: "# three lines\n0 pin default\n",
    back: "\n0 cancel\n",
    out: "200\n",
    err: "gsdrill: line 3 is no command\n",
};

#[test]
fn a_line_that_is_no_command_ends_the_run(rt: HostRuntime) -> Result<(), Fail> {
    assert_eq!(rt; unstopped_line(rt.alloc(), &NO_COMMANDS, &THIRD)?, None);
    Ok(())
}

#[test]
fn a_condition_that_is_wrong_ends_the_run(rt: HostRuntime) -> Result<(), Fail> {
    assert_eq!(rt; unstopped_line(rt.alloc(), &NO_CONDITIONS, &THIRD)?, None);
    Ok(())
}

/// First lines that begin a store outside its conditions.
const NO_STORES: [&str; 6] = [
    "store 0 0 0",
    "store 513 0 0",
    "store 4 1000000000000000000 0",
    "store 4 0 1000000000000000000",
    "store 4 0",
    "store 4 0 0 0",
];

/// Where they stand: alone.
const FIRST: Stop = Stop {
    front: "",
    back: "",
    out: "",
    err: "gsdrill: line 1 is no command\n",
};

#[test]
fn a_store_outside_its_conditions_is_no_command(rt: HostRuntime) -> Result<(), Fail> {
    assert_eq!(rt; unstopped_line(rt.alloc(), &NO_STORES, &FIRST)?, None);
    Ok(())
}
