//! One thread writes a graph, another reads it afterwards, or all graphs, and keeps its lines while the
//! first puts it again.
ghost use Rattle.std.specs.Prelude.{◌≡◌, codes};
ghost use Rattle.gs_core.specs.Settings.{start_at};
ghost use Rattle.gs_shared.specs.Parts.{AreNamedBy};

use gs_event::{Action, Answer, Event, Scope, UploadKind};
use gs_shared::{CountedLedger, Pass, Room, Shared, SharedParts, SharedStore, shared_parts};
use gs_term::{GraphName, Target, TermText, Triple};
use gs_triple_lists::TripleList;
use std::alloc::{AllocError, Global};
use std::marker::Brand;
use std::sync::Wait;
use std::test::Fail;
use std::thread;
use std::thread::Threads;

/// What is read, the graph or all graphs, and its two lines.
#[derive(Clone, Copy)]
struct Reading {
    is_whole: bool,
    first: &'static str,
    last: &'static str,
}

const OF_GRAPH: Reading = Reading {
    is_whole: false,
    first: "<http://e/s> <http://e/p> \"1\" .\n",
    last: "<http://e/s> <http://e/p> \"2\" .\n",
};

const OF_ALL: Reading = Reading {
    is_whole: true,
    first: "<http://e/s> <http://e/p> \"1\" <http://e/g> .\n",
    last: "<http://e/s> <http://e/p> \"2\" <http://e/g> .\n",
};

/// `<http://e/s> <http://e/p> "x" .`
fn triple(alloc: Global, word: &str) -> Option<Triple> {
    let subject = TermText::iri(alloc, "http://e/s").ok()?;
    let predicate = TermText::iri(alloc, "http://e/p").ok()?;
    let object = TermText::literal(alloc, word, None, None).ok()?;
    if !subject.is_subject() || !predicate.is_iri() {
        return None;
    }
    Some(Triple::new(subject, predicate, object))
}

/// Makes an event of the pass's seat.
fn act<C: CountedLedger, T: CountedLedger, B: Room, R: Wait>(
    rt: &R,
    store: &SharedStore<C, T, B>,
    pass: &mut Pass<C, T, B>,
    action: Action,
) -> Answer {
    let event = Event::Seat(pass.seat(), action);
    store.event(rt, pass, event)
}

/// The graph.
fn target(alloc: Global) -> Option<Target> {
    Some(Target::Named(GraphName::new(alloc, "http://e/g").ok()?))
}

/// Puts a triple for each of these words into the graph; whether that has this status.
fn write<C: CountedLedger, T: CountedLedger, B: Room, R: Wait>(
    rt: &R,
    alloc: Global,
    store: &SharedStore<C, T, B>,
    pass: Pass<C, T, B>,
    words: &[&str],
    status: u16,
) -> (Pass<C, T, B>, bool) {
    let mut pass = pass;
    let Some(target) = target(alloc) else {
        return (pass, false);
    };
    drop(act(
        rt,
        store,
        &mut pass,
        Action::Open(UploadKind::Put(target), None),
    ));
    for word in words {
        let mut list = TripleList::new(alloc);
        if let Some(one) = triple(alloc, word) {
            let _ = list.push(one);
        }
        drop(act(rt, store, &mut pass, Action::Stage(list)));
    }
    let answer = act(rt, store, &mut pass, Action::Commit);
    let is_right = matches!(&answer, Answer::Status(found, None, _) if *found == status);
    drop(answer);
    (pass, is_right)
}

/// What a reading is of.
fn scope_of(alloc: Global, reading: Reading) -> Option<Scope> {
    Some(if reading.is_whole {
        Scope::All
    } else {
        Scope::One(target(alloc)?)
    })
}

/// Begins a reading; whether that has status 200 and the number of the last commit.
fn pin<C: CountedLedger, T: CountedLedger, B: Room, R: Wait>(
    rt: &R,
    alloc: Global,
    store: &SharedStore<C, T, B>,
    pass: &mut Pass<C, T, B>,
    reading: Reading,
    commit: u64,
) -> bool {
    let Some(scope) = scope_of(alloc, reading) else {
        return false;
    };
    let answer = act(rt, store, pass, Action::Pin(scope));
    let is_right = matches!(answer, Answer::Pinned(200, number) if number == commit);
    drop(answer);
    is_right
}

/// Reads a line; whether it is this one, and the last one or not.
fn reads<C: CountedLedger, T: CountedLedger, B: Room, R: Wait>(
    rt: &R,
    store: &SharedStore<C, T, B>,
    pass: &mut Pass<C, T, B>,
    line: &str,
    is_last: bool,
) -> bool {
    match act(rt, store, pass, Action::Piece(1)) {
        Answer::Lines(lines, end) => {
            end == is_last && lines.into_bytes().as_slice() == line.as_bytes()
        }
        other => {
            drop(other);
            false
        }
    }
}

/// Begins a reading, and reads its first line, which is not the last.
fn begin<C: CountedLedger, T: CountedLedger, B: Room, R: Wait>(
    rt: &R,
    alloc: Global,
    store: &SharedStore<C, T, B>,
    pass: Pass<C, T, B>,
    reading: Reading,
) -> (Pass<C, T, B>, bool) {
    let mut pass = pass;
    let is_right = pin(rt, alloc, store, &mut pass, reading, 1)
        && reads(rt, store, &mut pass, reading.first, false);
    (pass, is_right)
}

/// Reads the last line of what was read as it was, and then begins to read it as it is, which has none.
fn go_on<C: CountedLedger, T: CountedLedger, B: Room, R: Wait>(
    rt: &R,
    alloc: Global,
    store: &SharedStore<C, T, B>,
    pass: Pass<C, T, B>,
    reading: Reading,
) -> bool {
    let mut pass = pass;
    let is_right = reads(rt, store, &mut pass, reading.last, true)
        && pin(rt, alloc, store, &mut pass, reading, 2)
        && reads(rt, store, &mut pass, "", true);
    drop(pass);
    is_right
}

/// A thread puts two triples by a pass. Once it has ended, another begins to read by the other pass; a
/// third one puts none by the first, and a fourth one goes on with the read. Which of them were answered
/// as they must be.
fn write_and_read<
    C: CountedLedger + Send + Sync,
    T: CountedLedger + Send + Sync,
    B: Room + Send + Sync,
    R: Threads + Wait + Sync,
>(
    rt: &R,
    alloc: Global,
    store: &SharedStore<C, T, B>,
    writer: Pass<C, T, B>,
    reader: Pass<C, T, B>,
    reading: Reading,
) -> Option<[bool; 4]> {
    thread::scope(thread::scope_env(), rt, move |scope| -> Option<[bool; 4]> {
        let puts = scope
            .spawn(move || write(rt, alloc, store, writer, &["2", "1"], 201))
            .ok()?;
        let (writer, made) = puts.join(rt);
        let begins = scope
            .spawn(move || begin(rt, alloc, store, reader, reading))
            .ok()?;
        let (reader, begun) = begins.join(rt);
        let empties = scope
            .spawn(move || write(rt, alloc, store, writer, &[], 204))
            .ok()?;
        let (writer, emptied) = empties.join(rt);
        drop(writer);
        let goes_on = scope
            .spawn(move || go_on(rt, alloc, store, reader, reading))
            .ok()?;
        Some([made, begun, emptied, goes_on.join(rt)])
    })
}

/// The same of a store.
fn write_and_read_at<
    C: CountedLedger + Send + Sync,
    T: CountedLedger + Send + Sync,
    B: Room + Send + Sync,
    R: Threads + Wait + Sync,
>(rt: &R, alloc: Global, shared: &mut Shared<C, T, B>, reading: Reading) -> Option<[bool; 4]> {
    let mut passes = shared.passes(2).ok()?;
    let reader = passes.pop();
    let writer = passes.pop();
    drop(passes);
    let Some(writer) = writer else {
        drop(reader);
        return None;
    };
    let Some(reader) = reader else {
        drop(writer);
        return None;
    };
    write_and_read(rt, alloc, shared.store(), writer, reader, reading)
}

/// The same of a new store.
fn run<
    C: CountedLedger + Send + Sync,
    T: CountedLedger + Send + Sync,
    B: Room + Send + Sync,
    R: Threads + Wait + Sync,
>(rt: &R, alloc: Global, parts: SharedParts, reading: Reading) -> Option<[bool; 4]>
    requires start { B.start ≡ start_at 2 (codes "http://localhost") 0 0 }
    requires parts { AreNamedBy C.CountedLedger T.CountedLedger B.table 2 parts }
{
    let mut shared: Shared<C, T, B> = Shared::new(alloc, 2, "http://localhost", 0, parts).ok()?;
    let right = write_and_read_at(rt, alloc, &mut shared, reading);
    drop(shared);
    right
}

/// The same, with what a store is made of.
fn write_read<R: Threads + Wait + Sync>(
    rt: &R,
    alloc: Global,
    reading: Reading,
) -> Option<[bool; 4]> {
    let parts = shared_parts(alloc, 2).ok()?;
    run::<Brand, Brand, Brand, R>(rt, alloc, parts, reading)
}

#[test]
fn write_read_back(rt: HostRuntime) -> Result<(), Fail> {
    let graph = write_read(&rt, rt.alloc(), OF_GRAPH).expect(&rt, "memory and threads");
    let all = write_read(&rt, rt.alloc(), OF_ALL).expect(&rt, "memory and threads");
    assert_eq!(rt; graph, [true, true, true, true]);
    assert_eq!(rt; all, [true, true, true, true]);
    Ok(())
}
