//! Schedules on two stores that hold six triples and two names: the limits are on what a write leaves.
use crate::runs::BASE;
use gs_core::{Answer, Event, Refusal};
use gs_event::Limits;
use gs_plain::PlainStore;
use gs_schedules::Row;
use gs_test_events::{event, words};
use gs_tree_store::{Storage, TreeStore};
use std::alloc::Global;
use std::test::Fail;

const ROWS: [Row; 4] = [
    (
        "the limits are on the result alone",
        "0 open put <http://e/g>\n0 stage <s> <p> \"1\" . <s> <p> \"2\" . <s> <p> \"3\" . <s> <p> \"4\" . <s> <p> \"5\" . <s> <p> \"6\" .\n0 commit\ncounts\n0 open put <http://e/g>\n0 stage <s> <p> \"7\" . <s> <p> \"8\" . <s> <p> \"9\" . <s> <p> \"10\" . <s> <p> \"11\" . <s> <p> \"12\" .\n0 commit\ncounts\n0 open post <http://e/g>\n0 stage <s> <p> \"12\" . <s> <p> \"7\" .\n0 commit\ncounts\n0 open post <http://e/g>\n0 stage <s> <p> \"13\" .\n0 commit\ncounts\n0 open put default\n0 stage <s> <p> \"1\" .\n0 commit\ncounts\n",
        "opened 1\nstaged\n201\ntriples 6\nopened 2\nstaged\n204\ntriples 6\nopened 3\nstaged\n204\ntriples 6\nopened 4\nstaged\n507\ntriples 6\nopened 5\nstaged\n507\ntriples 6\n",
    ),
    (
        "a third name is too many",
        "0 open post <http://e/g>\n0 stage \n0 commit\ncounts\n0 open new\n0 stage <s> <p> \"1\" .\n0 commit\ncounts\n0 open new\n0 stage <s> <p> \"1\" .\n0 commit\ncounts\n0 open put <http://e/h>\n0 stage \n0 commit\ncounts\n0 delete <http://e/g>\n0 open put <http://e/h>\n0 stage <s> <p> \"2\" .\n0 commit\ncounts\n",
        "opened 1\nstaged\n201\ntriples 0\nopened 2\nstaged\n201 http://localhost/graphs/n2-0\ntriples 1\nopened 3\nstaged\n507\ntriples 1\nopened 4\nstaged\n507\ntriples 1\n204\nopened 5\nstaged\n201\ntriples 2\n",
    ),
    (
        "a patch over the limits ends and changes nothing",
        "0 open put default\n0 stage <s> <p> \"1\" . <s> <p> \"2\" . <s> <p> \"3\" . <s> <p> \"4\" . <s> <p> \"5\" . <s> <p> \"6\" .\n0 commit\ncounts\n0 open patch default\n0 patch: insert <s> <p> \"7\"\ncounts\n1 pin default\n1 piece 99\n0 open patch default\n0 patch: insert <s> <p> \"6\"\n0 open patch <http://e/g>\n0 patch: insert <s> <p> \"6\"\ncounts\n",
        "opened 1\nstaged\n204\ntriples 6\nopened 2\n507\ntriples 6\n200\n<http://e/s> <http://e/p> \"1\" .\n<http://e/s> <http://e/p> \"2\" .\n<http://e/s> <http://e/p> \"3\" .\n<http://e/s> <http://e/p> \"4\" .\n<http://e/s> <http://e/p> \"5\" .\n<http://e/s> <http://e/p> \"6\" .\nend\nopened 3\n204\nopened 4\n404\ntriples 6\n",
    ),
    (
        "a write that comes too late is 412 before it is 507",
        "0 open put default\n0 stage <s> <p> \"1\" . <s> <p> \"2\" . <s> <p> \"3\" . <s> <p> \"4\" . <s> <p> \"5\" . <s> <p> \"6\" .\n0 commit\ncounts\n1 open post default since 0\n1 stage <s> <p> \"7\" .\n1 commit\n1 open post default since 1\n1 stage <s> <p> \"7\" .\n1 commit\n1 open put <http://e/g> since 0\n1 stage <s> <p> \"7\" .\n1 commit\n1 open patch default since 0\n1 patch: insert <s> <p> \"7\"\n1 open patch default since 1\n1 patch: insert <s> <p> \"7\"\ncounts\n",
        "opened 1\nstaged\n204\ntriples 6\nopened 2\nstaged\n412 1\nopened 3\nstaged\n507\nopened 4\nstaged\n507\nopened 5\n412 1\nopened 6\n507\ntriples 6\n",
    ),
];

const LIMITS: Limits = Limits {
    triples: 6,
    names: 2,
};

/// A store that holds so little.
#[derive(Drop)]
enum Small {
    Plain(PlainStore),
    Trees(TreeStore),
}

impl Small {
    fn plain(alloc: Global) -> Result<Small, Refusal> {
        let store = PlainStore::starting_at(alloc, 4, BASE, LIMITS, 0, 0)?;
        Ok(Small::Plain(store))
    }

    fn trees(alloc: Global) -> Result<Small, Refusal> {
        let storage = Storage::of_seed(0);
        let store = TreeStore::starting_at(alloc, 4, BASE, LIMITS, 0, 0, storage)?;
        Ok(Small::Trees(store))
    }

    fn step(&mut self, event: &Event) -> Answer {
        match self {
            Small::Plain(store) => store.step(event),
            Small::Trees(store) => store.step(event),
        }
    }

    fn triples_now(&self) -> u64 {
        match self {
            Small::Plain(store) => store.triples_now(),
            Small::Trees(store) => store.triples_now(),
        }
    }
}

/// What a line prints: the number of triples, or the answer to an event.
fn printed_line(alloc: Global, store: &mut Small, line: &str) -> Result<String, Refusal> {
    if line == "counts" {
        let count = store.triples_now();
        return Ok(format!(in alloc; "triples {count}\n")?);
    }
    let event = event(alloc, line)?;
    let answer = store.step(&event);
    drop(event);
    Ok(words(alloc, answer)?)
}

/// Whether a schedule prints this over a store.
fn prints_over(alloc: Global, store: &mut Small, input: &str, want: &str) -> Result<bool, Refusal> {
    let mut text = String::new(alloc);
    for line in input.lines() {
        text.push_str(printed_line(alloc, store, line)?.as_str())?;
    }
    Ok(text.as_str() == want)
}

/// Whether it prints this over each of the two.
fn prints(alloc: Global, input: &str, want: &str) -> Result<bool, Refusal> {
    let mut plain = Small::plain(alloc)?;
    let by_plain = prints_over(alloc, &mut plain, input, want);
    drop(plain);
    let mut trees = Small::trees(alloc)?;
    let by_trees = prints_over(alloc, &mut trees, input, want);
    drop(trees);
    Ok(by_plain? && by_trees?)
}

/// The first row that does not print what it must.
fn wrong_row(alloc: Global) -> Result<Option<&'static str>, Refusal> {
    for (name, input, want) in &ROWS {
        if !prints(alloc, input, want)? {
            return Ok(Some(name));
        }
    }
    Ok(None)
}

#[test]
fn a_small_store_takes_what_it_may_hold(rt: HostRuntime) -> Result<(), Fail> {
    assert_eq!(rt; wrong_row(rt.alloc())?, None);
    Ok(())
}
