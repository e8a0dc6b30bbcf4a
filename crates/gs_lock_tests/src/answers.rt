//! The passes of a store that threads share get the answers of a store.
ghost use Rattle.std.specs.Prelude.{◌≡◌, codes};
ghost use Rattle.gs_core.specs.Settings.{start_at};
ghost use Rattle.gs_shared.specs.Parts.{AreNamedBy};

use gs_core::{Answer, Event, Refusal, Store};
use gs_door::Door;
use gs_schedules::{CONDITIONS, DATASETS, ROWS, Row};
use gs_shared::{CountedLedger, Pass, PassDoor, Room, Shared, SharedParts, shared_parts};
use gs_test_events::{answered, events, printed};
use std::alloc::{AllocError, Global};
use std::marker::Brand;
use std::sync::Wait;
use std::test::Fail;

/// The schedules that are fed texts, with their triples and operations in the place of the texts.
const FED: [Row; 8] = [
    (
        "nodes of two requests are different",
        "0 open post default\n0 stage _1_1 <p> _1_1\n0 commit\n0 open post default\n0 stage _2_1 <p> _2_1\n0 commit\n0 pin default\n0 piece 9\n",
        "opened 1\nstaged\n204\nopened 2\nstaged\n204\n200\n_:b1_1 <http://e/p> _:b1_1 .\n_:b2_1 <http://e/p> _:b2_1 .\nend\n",
    ),
    (
        "patterns take out all their instances together",
        "0 open put default\n0 stage <1> <p> <2> . <2> <q> \"z\" . <3> <p> <4> . <5> <q> \"y\"\n0 commit\n0 open patch default\n0 patch: where ?s <p> ?o . ?o <q> ?z\n0 pin default\n0 piece 9\n0 open patch default\n0 cancel\n0 open patch default\n0 cancel\n0 open patch <http://e/g>\n0 patch:\n",
        "opened 1\nstaged\n204\nopened 2\n204\n200\n<http://e/3> <http://e/p> <http://e/4> .\n<http://e/5> <http://e/q> \"y\" .\nend\nopened 3\ncancelled\nopened 4\ncancelled\nopened 5\n404\n",
    ),
    (
        "data are taken out and put in, in their order",
        "0 open put <http://e/g>\n0 stage <1> <p> \"1\" . <1> <p> \"2\"\n0 commit\n1 open patch <http://e/g>\n1 patch: delete <1> <p> \"1\" ; insert <1> <p> \"3\" . <1> <p> \"1\" ; delete <1> <p> \"3\"\n0 pin <http://e/g>\n0 piece 9\n2 open patch <http://e/g>\n2 patch: delete <1> <p> \"1\"\n3 pin <http://e/g>\n3 piece 9\n",
        "opened 1\nstaged\n201\nopened 2\n204\n200\n<http://e/1> <http://e/p> \"1\" .\n<http://e/1> <http://e/p> \"2\" .\nend\nopened 3\n204\n200\n<http://e/1> <http://e/p> \"2\" .\nend\n",
    ),
    (
        "a collection, and a name with a dot in it",
        "0 open put <http://e/g>\n0 stage <g> a <a.b> . <g> a _1_1 . _1_1 first 1 . _1_1 rest _1_2 . _1_2 first \".5\"^^<http://www.w3.org/2001/XMLSchema#decimal> . _1_2 rest nil\n0 commit\n0 pin <http://e/g>\n0 piece 9\n",
        "opened 1\nstaged\n201\n200\n<http://e/g> <http://www.w3.org/1999/02/22-rdf-syntax-ns#type> <http://e/a.b> .\n<http://e/g> <http://www.w3.org/1999/02/22-rdf-syntax-ns#type> _:b1_1 .\n_:b1_1 <http://www.w3.org/1999/02/22-rdf-syntax-ns#first> \"1\"^^<http://www.w3.org/2001/XMLSchema#integer> .\n_:b1_1 <http://www.w3.org/1999/02/22-rdf-syntax-ns#rest> _:b1_2 .\n_:b1_2 <http://www.w3.org/1999/02/22-rdf-syntax-ns#first> \".5\"^^<http://www.w3.org/2001/XMLSchema#decimal> .\n_:b1_2 <http://www.w3.org/1999/02/22-rdf-syntax-ns#rest> <http://www.w3.org/1999/02/22-rdf-syntax-ns#nil> .\nend\n",
    ),
    (
        "a tab, a line feed, and a tag in upper case",
        "0 open put default\n0 stage <\u{E9}> <p> \"a\tbA\\n\"@EN-us\n0 commit\n0 pin default\n0 piece 1\n",
        "opened 1\nstaged\n204\n200\n<http://e/\u{E9}> <http://e/p> \"a\tbA\\n\"@en-us .\nend\n",
    ),
    (
        "all graphs are read as they are at one moment, in the order of their names with brackets",
        "0 open post default\n0 stage <1> <p> \"1\"\n0 commit\n0 open put <http://e/g>\n0 stage <2> <p> _1_1 . <1> <p> \"2\"\n0 commit\n3 open put <http://e/g!>\n3 stage <3> <p> \"3\"\n3 commit\n1 pin all\n0 delete <http://e/g>\n2 pin all\n1 piece 3\n2 piece 9\n1 piece 1\n",
        "opened 1\nstaged\n204\nopened 2\nstaged\n201\nopened 3\nstaged\n201\n200\n204\n200\n<http://e/1> <http://e/p> \"1\" .\n<http://e/3> <http://e/p> \"3\" <http://e/g!> .\n<http://e/1> <http://e/p> \"2\" <http://e/g> .\nmore\n<http://e/1> <http://e/p> \"1\" .\n<http://e/3> <http://e/p> \"3\" <http://e/g!> .\nend\n<http://e/2> <http://e/p> _:b1_1 <http://e/g> .\nend\n",
    ),
    (
        "patches on condition: two come too late, and one is of a missing graph",
        "0 open put <http://e/g>\n0 stage <1> <p> \"1\"\n0 commit\n1 open patch <http://e/g> since 0\n1 patch: insert <1> <p> \"2\"\n1 open patch <http://e/g> since 1\n1 patch: insert <1> <p> \"2\"\n2 open patch <http://e/g> since 1\n2 patch:\n2 open patch <http://e/h> since 0\n2 patch:\n0 pin <http://e/g>\n0 piece 9\n",
        "opened 1\nstaged\n201\nopened 2\n412 1\nopened 3\n204\nopened 4\n412 2\nopened 5\n404\n200\n<http://e/1> <http://e/p> \"1\" .\n<http://e/1> <http://e/p> \"2\" .\nend\n",
    ),
    (
        "a text with a fault is given up",
        "0 open put default\n0 cancel\n0 commit\n",
        "opened 1\ncancelled\nrefused WrongPhase\n",
    ),
];

/// The place of the pass that makes an event: that of its seat, and 0 for a Reclaim and for a seat that
/// is not there.
fn place_of(event: &Event) -> usize {
    match event {
        Event::Seat(seat, _) if *seat < 4 => usize::from(*seat),
        _ => 0,
    }
}

/// What the pass is answered, through a door or at the lock.
fn answer<C: CountedLedger, T: CountedLedger, B: Room, R: Wait>(
    rt: &R,
    shared: &Shared<C, T, B>,
    pass: Pass<C, T, B>,
    event: Event,
    by_door: bool,
) -> (Pass<C, T, B>, Answer) {
    let mut pass = pass;
    if !by_door {
        let answer = shared.event(rt, &mut pass, event);
        return (pass, answer);
    }
    let mut door = PassDoor::new(rt, shared.store(), pass);
    let answer = door.event(event);
    (door.into_pass(), answer)
}

/// Makes an event by its pass, where there is one, and keeps what it is answered.
fn answer_one<C: CountedLedger, T: CountedLedger, B: Room, R: Wait>(
    rt: &R,
    shared: &Shared<C, T, B>,
    passes: &mut Vec<Pass<C, T, B>>,
    event: Event,
    by_door: bool,
    answers: &mut Vec<Answer>,
) -> Result<(), Refusal> {
    let place = place_of(&event);
    if place >= passes.len() {
        drop(event);
        return Ok(());
    }
    let pass = passes.remove(place);
    let (pass, answer) = answer(rt, shared, pass, event, by_door);
    let is_back = passes.insert(place.min(passes.len()), pass);
    answers.push(answer)?;
    is_back?;
    Ok(())
}

/// Takes all events out of the list, and makes them one by one.
fn answer_each<C: CountedLedger, T: CountedLedger, B: Room, R: Wait>(
    rt: &R,
    shared: &Shared<C, T, B>,
    passes: &mut Vec<Pass<C, T, B>>,
    events: &mut Vec<Event>,
    by_doors: bool,
    answers: &mut Vec<Answer>,
) -> Result<(), Refusal> {
    events.reverse();
    for _ in 0..events.len() {
        if let Some(event) = events.pop() {
            answer_one(rt, shared, passes, event, by_doors, answers)?;
        }
    }
    Ok(())
}

/// The commit number that an answer reports.
fn commit_of(answer: &Answer) -> Option<u64> {
    match answer {
        Answer::Status(_, _, number) | Answer::Pinned(_, number) => Some(*number),
        _ => None,
    }
}

/// What answers print, and then the commit numbers that they report.
fn numbered(alloc: Global, answers: Vec<Answer>) -> Result<String, AllocError> {
    let mut numbers = String::new(alloc);
    for answer in &answers {
        if let Some(number) = commit_of(answer) {
            let line = format!(in alloc; "commit {number}\n")?;
            numbers.push_str(line.as_str())?;
        }
    }
    let mut text = printed(alloc, answers)?;
    text.push_str(numbers.as_str())?;
    Ok(text)
}

/// What four passes of a store are answered, as text, through doors with the commit numbers.
fn printed_by<C: CountedLedger, T: CountedLedger, B: Room, R: Wait>(
    rt: &R,
    alloc: Global,
    shared: &mut Shared<C, T, B>,
    events: &mut Vec<Event>,
    by_doors: bool,
) -> Result<String, Refusal> {
    let mut passes = shared.passes(4)?;
    let mut answers = Vec::new(alloc);
    let done = answer_each(rt, shared, &mut passes, events, by_doors, &mut answers);
    drop(passes);
    let text = if by_doors {
        numbered(alloc, answers)
    } else {
        printed(alloc, answers)
    };
    done?;
    Ok(text?)
}

/// The same of the passes of a new store of four seats.
fn printed_by_new<C: CountedLedger, T: CountedLedger, B: Room, R: Wait>(
    rt: &R,
    alloc: Global,
    events: &mut Vec<Event>,
    by_doors: bool,
    parts: SharedParts,
) -> Result<String, Refusal>
    requires start { B.start ≡ start_at 4 (codes "http://localhost") 0 0 }
    requires parts { AreNamedBy C.CountedLedger T.CountedLedger B.table 4 parts }
{
    let mut shared: Shared<C, T, B> = Shared::new(alloc, 4, "http://localhost", 0, parts)?;
    let text = printed_by(rt, alloc, &mut shared, events, by_doors);
    drop(shared);
    text
}

/// What these events print by the passes of a store that is shared.
fn printed_by_passes<R: Wait>(
    rt: &R,
    alloc: Global,
    events: &mut Vec<Event>,
    by_doors: bool,
) -> Result<String, Refusal> {
    let parts = shared_parts(alloc, 4)?;
    printed_by_new::<Brand, Brand, Brand, R>(rt, alloc, events, by_doors, parts)
}

/// What these events print by a store, with the commit numbers.
fn printed_by_store(alloc: Global, events: &[Event]) -> Result<String, Refusal> {
    let mut store = Store::new(alloc, 4, "http://localhost")?;
    let answers = store.run(events);
    drop(store);
    let answers = answers?;
    Ok(numbered(alloc, answers)?)
}

/// Adds a line to a schedule, and before a Pin a Head of its scope.
fn add_line(alloc: Global, text: &mut String, line: &str) -> Result<(), Refusal> {
    if let Some((seat, scope)) = line.split_once(" pin ") {
        let head = format!(in alloc; "{seat} head {scope}\n")?;
        text.push_str(head.as_str())?;
    }
    text.push_str(line)?;
    text.push('\n')?;
    Ok(())
}

/// A schedule with a Head of its scope before each Pin.
fn with_heads(alloc: Global, input: &str) -> Result<String, Refusal> {
    let mut text = String::new(alloc);
    for line in input.lines() {
        add_line(alloc, &mut text, line)?;
    }
    Ok(text)
}

/// Whether the passes print through their doors what a store prints, and report the same commit numbers.
fn is_like_store<R: Wait>(rt: &R, alloc: Global, input: &str) -> Result<bool, Refusal> {
    let mut asked = events(alloc, input)?;
    let by_store = printed_by_store(alloc, asked.as_slice());
    let by_doors = printed_by_passes(rt, alloc, &mut asked, true);
    drop(asked);
    Ok(by_store?.as_str() == by_doors?.as_str())
}

/// Whether the passes print what a schedule says.
fn is_as_said<R: Wait>(rt: &R, alloc: Global, input: &str, want: &str) -> Result<bool, Refusal> {
    let mut asked = events(alloc, input)?;
    let by_passes = printed_by_passes(rt, alloc, &mut asked, false);
    drop(asked);
    let says = answered(alloc, want)?;
    Ok(by_passes?.as_str() == says.as_str())
}

/// Whether the passes print what a store prints, with the Heads, and what the schedule says, without.
fn is_same<R: Wait>(rt: &R, alloc: Global, row: &Row) -> Result<bool, Refusal> {
    let (_, input, want) = row;
    let longer = with_heads(alloc, input)?;
    let is_like = is_like_store(rt, alloc, longer.as_str());
    drop(longer);
    Ok(is_like? && is_as_said(rt, alloc, input, want)?)
}

/// The first of these schedules of a new store of four seats that is answered otherwise.
fn other_row<R: Wait>(
    rt: &R,
    alloc: Global,
    rows: &[Row],
) -> Result<Option<&'static str>, Refusal> {
    for row in rows {
        let (name, input, _) = row;
        if !input.starts_with("store ") && !is_same(rt, alloc, row)? {
            return Ok(Some(name));
        }
    }
    Ok(None)
}

#[test]
fn same_answers(rt: HostRuntime) -> Result<(), Fail> {
    assert_eq!(rt; other_row(&rt, rt.alloc(), &ROWS)?, None);
    assert_eq!(rt; other_row(&rt, rt.alloc(), &FED)?, None);
    Ok(())
}

#[test]
fn same_answers_on_condition(rt: HostRuntime) -> Result<(), Fail> {
    assert_eq!(rt; other_row(&rt, rt.alloc(), &CONDITIONS)?, None);
    Ok(())
}

#[test]
fn same_answers_of_all_graphs(rt: HostRuntime) -> Result<(), Fail> {
    assert_eq!(rt; other_row(&rt, rt.alloc(), &DATASETS)?, None);
    Ok(())
}
