//! Four threads that write, read, patch and delete graphs of their own and one that all share, and read all
//! of them; or count together in a graph of all; or put one long list each.
ghost use Rattle.std.specs.Prelude.{◌≡◌, codes};
ghost use Rattle.gs_core.specs.Settings.{start_at};
ghost use Rattle.gs_shared.specs.Parts.{AreNamedBy};

use crate::counts::{COUNTED, LAST, count, counts_of_puts};
use crate::models::Model;
use crate::moments::{is_moment, read_all as read_moment};
use crate::replays::{counts_of_all, is_replayed, is_told, read, read_all, replays};
use crate::rounds::{expected, hold, is_whole};
use crate::uploads::{are_small, upload};
use gs_core::Refusal;
use gs_shared::{CountedLedger, Ended, Pass, Room, Shared, SharedParts, SharedStore, shared_parts};
use std::alloc::Global;
use std::marker::Brand;
use std::sync::Wait;
use std::test::Fail;
use std::thread;
use std::thread::Threads;

/// The rounds of each thread on each of its two graphs.
const ROUNDS: u32 = 1_000;

/// The graph that all write.
const ALL: &str = "http://e/z";

/// What threads do.
#[derive(Clone, Copy)]
enum Task {
    /// Rounds on graphs of their own and on that of all.
    Rounds,
    /// To count in a graph of all.
    Counts,
    /// An upload of one long list.
    Uploads,
}

/// A seat, the number of a round, and what was wrong of it.
type Fault = (u16, u32, &'static str);

/// Whether what the thread reads of all graphs after a round is of one moment.
fn reads_moment<C: CountedLedger, T: CountedLedger, B: Room, R: Wait>(
    rt: &R,
    alloc: Global,
    store: &SharedStore<C, T, B>,
    pass: &mut Pass<C, T, B>,
    round: u32,
) -> Result<bool, Refusal> {
    let moment = read_moment(rt, alloc, store, pass)?;
    Ok(is_moment(moment.as_str(), pass.seat(), round))
}

/// A round on the thread's own graph, one on the graph of all, and a read of all graphs: which does not
/// print what it must.
fn both<C: CountedLedger, T: CountedLedger, B: Room, R: Wait>(
    rt: &R,
    alloc: Global,
    store: &SharedStore<C, T, B>,
    pass: &mut Pass<C, T, B>,
    round: u32,
) -> Result<Option<&'static str>, Refusal> {
    let seat = pass.seat();
    let mark = format!(in alloc; "{seat}-{round}")?;
    let own = format!(in alloc; "http://e/own{seat}")?;
    let said = hold(rt, alloc, store, pass, own.as_str(), mark.as_str(), round)?;
    let want = expected(alloc, mark.as_str(), round)?;
    let shared = hold(rt, alloc, store, pass, ALL, mark.as_str(), round)?;
    let is_one = reads_moment(rt, alloc, store, pass, round)?;
    if said.as_str() != want.as_str() {
        return Ok(Some("its own graph"));
    }
    if !is_whole(shared.as_str(), round) {
        return Ok(Some("the graph of all"));
    }
    Ok(if is_one { None } else { Some("all graphs") })
}

/// All rounds: the first fault.
fn work_rounds<C: CountedLedger, T: CountedLedger, B: Room, R: Wait>(
    rt: &R,
    alloc: Global,
    store: &SharedStore<C, T, B>,
    pass: &mut Pass<C, T, B>,
) -> Option<Fault> {
    let mut fault = None;
    for round in 0..ROUNDS {
        let wrong = both(rt, alloc, store, pass, round).unwrap_or(Some("a refusal"));
        if let Some(part) = wrong {
            fault = fault.or(Some((pass.seat(), round, part)));
        }
    }
    fault
}

/// The fault of a task without rounds.
fn in_no_round(seat: u16, wrong: Result<Option<&'static str>, Refusal>) -> Option<Fault> {
    let part = wrong.unwrap_or(Some("a refusal"))?;
    Some((seat, 0, part))
}

/// A task, and the first fault.
fn work<C: CountedLedger, T: CountedLedger, B: Room, R: Wait>(
    rt: &R,
    alloc: Global,
    store: &SharedStore<C, T, B>,
    pass: Pass<C, T, B>,
    task: Task,
) -> (Pass<C, T, B>, Option<Fault>) {
    let mut pass = pass;
    let fault = match task {
        Task::Rounds => work_rounds(rt, alloc, store, &mut pass),
        Task::Counts => in_no_round(pass.seat(), count(rt, alloc, store, &mut pass)),
        Task::Uploads => in_no_round(pass.seat(), upload(rt, alloc, store, &mut pass)),
    };
    (pass, fault)
}

/// Each pass works in a thread of its own: the passes that come back, and the first fault of one of them.
fn work_all<
    C: CountedLedger + Send + Sync,
    T: CountedLedger + Send + Sync,
    B: Room + Send + Sync,
    R: Threads + Wait + Sync,
>(
    rt: &R,
    alloc: Global,
    store: &SharedStore<C, T, B>,
    passes: Vec<Pass<C, T, B>>,
    task: Task,
) -> Option<(Vec<Pass<C, T, B>>, Option<Fault>)> {
    thread::scope(
        thread::scope_env(),
        rt,
        move |scope| -> Option<(Vec<Pass<C, T, B>>, Option<Fault>)> {
            let mut threads = Vec::with_capacity(alloc, 4).ok()?;
            for pass in passes {
                let works = scope
                    .spawn(move || work(rt, alloc, store, pass, task))
                    .ok()?;
                threads.push(works).ok()?;
            }
            let mut back = Vec::with_capacity(alloc, 4).ok()?;
            let mut fault = None;
            for works in threads {
                let (pass, own) = works.join(rt);
                back.push(pass).ok()?;
                fault = fault.or(own);
            }
            Some((back, fault))
        },
    )
}

/// Four threads work, and the store is ended.
fn run<
    C: CountedLedger + Send + Sync,
    T: CountedLedger + Send + Sync,
    B: Room + Send + Sync,
    R: Threads + Wait + Sync,
>(rt: &R, alloc: Global, parts: SharedParts, task: Task) -> Option<(Ended, Option<Fault>)>
    requires start { B.start ≡ start_at 4 (codes "http://localhost") 0 0 }
    requires parts { AreNamedBy C.CountedLedger T.CountedLedger B.table 4 parts }
{
    let mut shared: Shared<C, T, B> = Shared::new(alloc, 4, "http://localhost", 0, parts).ok()?;
    let Ok(passes) = shared.passes(4) else {
        drop(shared);
        return None;
    };
    let Some(worked) = work_all(rt, alloc, shared.store(), passes, task) else {
        drop(shared);
        return None;
    };
    let (back, fault) = worked;
    if back.len() != 4 {
        drop(back);
        drop(shared);
        return None;
    }
    Some((shared.end(rt, back), fault))
}

/// What four threads leave, and the first fault of one of them.
fn worked<R: Threads + Wait + Sync>(
    rt: &R,
    alloc: Global,
    task: Task,
) -> Option<(Ended, Option<Fault>)> {
    let parts = shared_parts(alloc, 4).ok()?;
    run::<Brand, Brand, Brand, R>(rt, alloc, parts, task)
}

/// Whether the ended store shows a graph as the plain model has it.
fn is_alike(alloc: Global, ended: &mut Ended, model: &Model, name: &str) -> Result<bool, Refusal> {
    let text = model.text(alloc, name)?;
    let shown = read(alloc, ended, name)?;
    Ok(!text.is_empty() && text.as_slice() == shown.as_slice())
}

/// The names of the five graphs, in the order in which a read of all has them.
const NAMES: [&str; 5] = [
    "http://e/own0",
    "http://e/own1",
    "http://e/own2",
    "http://e/own3",
    ALL,
];

/// The first graph that the ended store shows otherwise than the plain model.
fn wrong_graph(
    alloc: Global,
    ended: &mut Ended,
    model: &Model,
) -> Result<Option<&'static str>, Refusal> {
    for name in &NAMES {
        if !is_alike(alloc, ended, model, name)? {
            return Ok(Some(name));
        }
    }
    Ok(None)
}

/// Whether the ended store shows all graphs, read together, as the plain model has them.
fn are_alike(alloc: Global, ended: &mut Ended, model: &Model) -> Result<bool, Refusal> {
    let text = model.quads(alloc, &NAMES)?;
    let shown = read_all(alloc, ended)?;
    Ok(text.as_slice() == shown.as_slice())
}

/// The page where it does not replay in the plain model, or the first graph, or all of them together, that
/// the ended store shows otherwise than the model has them then.
fn wrong_shown(alloc: Global, ended: &mut Ended) -> Result<Option<&'static str>, Refusal> {
    let mut model = Model::new(alloc);
    let is_replayed = replays(alloc, &mut model, ended.audited.page().entries());
    let wrong = wrong_graph(alloc, ended, &model);
    let are_alike = are_alike(alloc, ended, &model);
    drop(model);
    if !is_replayed? {
        return Ok(Some("the page does not replay"));
    }
    if !are_alike? {
        return Ok(Some("all graphs"));
    }
    wrong
}

/// The names of the four passes.
const PASSES: [&str; 4] = ["pass 0", "pass 1", "pass 2", "pass 3"];

/// What is wrong of the page that four threads leave, or of the store.
fn wrong_part(alloc: Global, ended: &mut Ended) -> Result<Option<&'static str>, Refusal> {
    let page = ended.audited.page();
    if page.number() != 0 || page.entries().len() != 38_000 {
        return Ok(Some("the page"));
    }
    if counts_of_all(page.entries()) != (4_000, 4_000) {
        return Ok(Some("the questions about all graphs, or the reads of them"));
    }
    for (name, record) in PASSES.iter().zip(&ended.passes) {
        if !is_told(page.entries(), record) {
            return Ok(Some(name));
        }
    }
    if is_replayed(alloc, page.entries().get(1..).unwrap_or_default())? {
        return Ok(Some("the page replays without its first entry"));
    }
    wrong_shown(alloc, ended)
}

#[test]
fn four_threads_leave_a_page_that_replays(rt: HostRuntime) -> Result<(), Fail> {
    let left = worked(&rt, rt.alloc(), Task::Rounds);
    let (mut ended, fault) = left.expect(&rt, "memory and threads");
    let wrong = wrong_part(rt.alloc(), &mut ended);
    drop(ended);
    assert_eq!(rt; fault, None);
    assert_eq!(rt; wrong?, None);
    Ok(())
}

/// What is wrong of the page that four threads leave that counted, or of the graph. Each of them wrote
/// 1,000 numbers, and then came too late once with a write since the beginning; before the first number
/// three others may have done so too.
fn wrong_count(alloc: Global, ended: &mut Ended) -> Result<Option<&'static str>, Refusal> {
    let page = ended.audited.page();
    let (written, late) = counts_of_puts(page.entries());
    if page.number() != 0 || written != 4_000 || late < 4 || late > 7 {
        return Ok(Some("the page"));
    }
    if !is_replayed(alloc, page.entries())? {
        return Ok(Some("the page does not replay"));
    }
    let shown = read(alloc, ended, COUNTED)?;
    let is_last = shown.as_slice() == LAST;
    Ok(if is_last { None } else { Some("the graph") })
}

#[test]
fn four_threads_lose_no_number(rt: HostRuntime) -> Result<(), Fail> {
    let left = worked(&rt, rt.alloc(), Task::Counts);
    let (mut ended, fault) = left.expect(&rt, "memory and threads");
    let wrong = wrong_count(rt.alloc(), &mut ended);
    drop(ended);
    assert_eq!(rt; fault, None);
    assert_eq!(rt; wrong?, None);
    Ok(())
}

#[test]
fn the_page_keeps_long_lists_by_small_forms(rt: HostRuntime) -> Result<(), Fail> {
    let left = worked(&rt, rt.alloc(), Task::Uploads);
    let (ended, fault) = left.expect(&rt, "memory and threads");
    let are_small = are_small(rt.alloc(), ended.audited.page().entries());
    drop(ended);
    assert_eq!(rt; fault, None);
    assert_eq!(rt; are_small?, true);
    Ok(())
}
