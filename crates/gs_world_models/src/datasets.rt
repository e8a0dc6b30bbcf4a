//! Four graphs, and what writes make of them.
use crate::rules::{Lie, Rules};
use gs_drawn_requests::{DEFAULT, Edit, GRAPHS, Request, Triples, Write};

/// The triples of each graph, none where there is no such graph.
#[derive(Clone, Copy, Drop, PartialEq)]
pub struct Dataset {
    graphs: [Option<Triples>; GRAPHS],
}

/// What a GET or a HEAD shows.
#[derive(Clone, Copy, Drop, PartialEq)]
pub enum Shown {
    /// There is no such graph.
    Missing,
    /// The triples of one graph.
    One(Triples),
    /// All graphs.
    All(Dataset),
}

/// A graph after a write, and the status of the write.
#[derive(Clone, Copy, Drop)]
struct Outcome {
    graph: Option<Triples>,
    status: u16,
}

/// The graphs after a write, and its status.
#[derive(Clone, Copy, Drop)]
pub struct Change {
    pub dataset: Dataset,
    pub status: u16,
}

/// What an upload makes of a graph.
fn uploaded(graph: Option<Triples>, triples: Triples) -> Outcome {
    Outcome {
        graph: Some(triples),
        status: if graph.is_some() { 204 } else { 201 },
    }
}

fn removed(graph: Option<Triples>, is_default: bool) -> Outcome {
    match graph {
        None => Outcome { graph, status: 404 },
        Some(_) => Outcome {
            graph: if is_default {
                Some(Triples::none())
            } else {
                None
            },
            status: 204,
        },
    }
}

fn edited(triples: Triples, edit: Edit) -> Triples {
    if edit.inserts {
        triples.with(edit.triples)
    } else {
        triples.without(edit.triples)
    }
}

fn changed(graph: Option<Triples>, first: Edit, second: Edit) -> Outcome {
    match graph {
        None => Outcome { graph, status: 404 },
        Some(triples) => Outcome {
            graph: Some(edited(edited(triples, first), second)),
            status: 204,
        },
    }
}

/// What a write makes of a graph.
fn outcome_of(rules: &Rules, write: Write, graph: Option<Triples>, is_default: bool) -> Outcome {
    match write {
        Write::Replace(triples) => uploaded(graph, triples),
        Write::Add(triples) => {
            if rules.lie == Lie::PostReplaces {
                return uploaded(graph, triples);
            }
            let old = graph.unwrap_or(Triples::none());
            uploaded(graph, old.with(triples))
        }
        Write::Change(first, second) => changed(graph, first, second),
        Write::Remove => removed(graph, is_default),
    }
}

impl Dataset {
    /// An empty default graph alone.
    pub fn new() -> Dataset {
        Dataset {
            graphs: [Some(Triples::none()), None, None, None],
        }
    }

    /// The triples of a graph, if there is such a graph.
    pub fn graph(&self, number: usize) -> Option<Triples> {
        match self.graphs.get(number) {
            Some(graph) => *graph,
            None => None,
        }
    }

    /// What a GET or a HEAD of one graph shows of them.
    pub fn one(&self, number: usize) -> Shown {
        match self.graph(number) {
            Some(triples) => Shown::One(triples),
            None => Shown::Missing,
        }
    }

    /// What this GET or HEAD shows of them.
    pub fn shown(&self, request: &Request) -> Shown {
        if request.is_of_all {
            Shown::All(*self)
        } else {
            self.one(request.graph)
        }
    }

    /// How many triples all graphs have.
    pub fn count(&self) -> usize {
        let mut count = 0usize;
        for graph in &self.graphs {
            let triples = graph.unwrap_or(Triples::none());
            count = count.saturating_add(triples.count());
        }
        count
    }

    /// What a request's write makes of these graphs.
    pub fn after(&self, rules: &Rules, request: &Request, write: Write) -> Change {
        let number = request.graph;
        let outcome = outcome_of(rules, write, self.graph(number), number == DEFAULT);
        let mut dataset = *self;
        if let Some(graph) = dataset.graphs.get_mut(number) {
            *graph = outcome.graph;
        }
        Change {
            dataset,
            status: outcome.status,
        }
    }
}
