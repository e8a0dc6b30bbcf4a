//! Measures storage: terms by number, sets of keys as trees, and their lines. It prints counts alone,
//! the same in each run; how long a mode takes is measured from outside.
#![tactic(auto)]

mod document;
mod graphs;
mod walks;

use document::{Document, Terms, Way};
use graphs::Graph;
use gs_model::Refusal;
use std::alloc::Global;
use std::env;
use std::io::{self, Write};
use std::rt::Env;
use walks::{Phase, Places, fill, read, unite_few, walk};

/// What a run does.
#[derive(Clone, Copy, Drop)]
enum Mode {
    /// Writes the lines of the document.
    Document,
    /// Fills a graph, as far as the phase goes.
    Fill(Phase),
    /// Fills a graph and walks all keys, again and again.
    Walk,
    /// Fills a graph and reads all lines, again and again.
    Lines,
    /// Fills graphs, and draws runs of ten keys for each; unites them, where it is true.
    Few(Places, bool),
}

/// What the arguments ask for.
#[derive(Clone, Copy, Drop)]
struct Task {
    mode: Mode,
    way: Way,
    /// The triples of the document.
    count: u32,
    /// The small runs for each graph, or how often all keys or lines are gone over, and how many graphs
    /// there are.
    runs: u64,
    graphs: u64,
}

/// The mode of a word.
fn mode_of(word: &str) -> Mode {
    match word {
        "document" => Mode::Document,
        "make" => Mode::Fill(Phase::Make),
        "intern" => Mode::Fill(Phase::Intern),
        "sort" => Mode::Fill(Phase::Sort),
        "test" => Mode::Fill(Phase::Test),
        "walk" => Mode::Walk,
        "lines" => Mode::Lines,
        "draw-near" => Mode::Few(Places::Near, false),
        "unite-near" => Mode::Few(Places::Near, true),
        "draw-apart" => Mode::Few(Places::Apart, false),
        "unite-apart" => Mode::Few(Places::Apart, true),
        _ => Mode::Fill(Phase::Unite),
    }
}

/// The number of the argument at a place, and another where it is none.
fn number(rt: &(impl Env + AllocGlobal), place: usize, other: u32) -> io::Result<u32> {
    match env::args(rt)?.nth(place) {
        Some(text) => Ok(text.parse::<u32>().unwrap_or(other)),
        None => Ok(other),
    }
}

/// What the arguments ask for: MODE sorted|shuffled TRIPLES [RUNS [GRAPHS]].
fn asked_for(rt: &(impl Env + AllocGlobal)) -> io::Result<Task> {
    let mode = match env::args(rt)?.nth(1) {
        Some(word) => mode_of(word.as_str()),
        None => Mode::Fill(Phase::Unite),
    };
    let way = match env::args(rt)?.nth(2) {
        Some(word) if word.as_str() == "shuffled" => Way::Shuffled,
        _ => Way::NearlySorted,
    };
    Ok(Task {
        mode,
        way,
        count: number(rt, 3, 10_000)?,
        runs: u64::from(number(rt, 4, 100)?),
        graphs: u64::from(number(rt, 5, 1)?),
    })
}

/// Appends the line of three terms.
fn push_line(terms: &Terms, bytes: &mut Vec<u8>) -> Result<(), Refusal> {
    bytes.extend_from_slice(terms.subject.as_bytes())?;
    bytes.push(b' ')?;
    bytes.extend_from_slice(terms.predicate.as_bytes())?;
    bytes.push(b' ')?;
    bytes.extend_from_slice(terms.object.as_bytes())?;
    bytes.extend_from_slice(b" .\n")?;
    Ok(())
}

/// The lines of a document.
fn lines(alloc: Global, document: &Document) -> Result<Vec<u8>, Refusal> {
    let mut bytes = Vec::new(alloc);
    for at in 0..document.count() {
        push_line(&document.terms(at)?, &mut bytes)?;
    }
    Ok(bytes)
}

/// What was counted.
#[derive(Clone, Copy, Drop)]
struct Counts {
    terms: usize,
    nodes: u64,
    keys: usize,
    bytes: usize,
}

/// What a graph has.
fn counts_of(graph: &Graph, keys: usize, bytes: usize) -> Counts {
    Counts {
        terms: graph.terms(),
        nodes: graph.nodes(),
        keys,
        bytes,
    }
}

/// Fills a graph, and does with it what the mode asks for.
fn measure_once(alloc: Global, document: &Document, task: Task) -> Result<Counts, Refusal> {
    let mut graph = Graph::new(alloc)?;
    let phase = match task.mode {
        Mode::Fill(phase) => phase,
        _ => Phase::Unite,
    };
    let mut keys = fill(alloc, &mut graph, document, phase)?;
    let mut bytes = 0usize;
    match task.mode {
        Mode::Walk => {
            for _ in 0..task.runs {
                keys = walk(alloc, &graph)?;
            }
        }
        Mode::Lines => {
            for _ in 0..task.runs {
                bytes = read(alloc, &graph)?;
            }
        }
        Mode::Few(places, unites) => {
            keys = unite_few(alloc, &mut graph, places, task.runs, unites)?;
        }
        _ => {}
    }
    Ok(counts_of(&graph, keys, bytes))
}

/// Does that for each graph; the counts are those of the last.
fn measure(alloc: Global, document: &Document, task: Task) -> Result<Counts, Refusal> {
    let mut last = measure_once(alloc, document, task)?;
    for _ in 1..task.graphs {
        last = measure_once(alloc, document, task)?;
    }
    Ok(last)
}

fn main(rt: HostRuntime) -> io::Result<()> {
    let alloc = rt.alloc();
    let task = asked_for(&rt)?;
    let document = Document::new(alloc, task.way, task.count)?;
    if let Mode::Document = task.mode {
        return match lines(alloc, &document) {
            Ok(bytes) => io::writer(&rt).write_all(&bytes),
            Err(refusal) => println!(rt; "{refusal}"),
        };
    }
    match measure(alloc, &document, task) {
        Ok(it) => println!(rt;
            "{} terms, {} nodes, {} keys, {} bytes",
            it.terms, it.nodes, it.keys, it.bytes
        ),
        Err(refusal) => println!(rt; "{refusal}"),
    }
}
