//! A graph as a sorted list of triples.
ghost use Rattle.std.specs.Prelude.{◌≡◌, ◌++◌, ◌+◌, ◌≤◌, OnOk, OnErr, IfOk, not, take, drop, length, map};
ghost use Rattle.std.specs.List.{concat, filter};
ghost use Rattle.std.specs.List.Sorted.{IsSorted, IsStrictlySortedBy};
ghost use Rattle.gs_model.specs.Triples.{line_of, triple_cmp};
ghost use Rattle.gs_model.specs.Graphs.{empty_graph, with_triples, graph_of, triples_of, lines_of, size_of};
ghost use Rattle.gs_term.specs.Names.{quad_line_of};
ghost use Rattle.gs_event.specs.Datasets.{named_lines};
ghost use Rattle.gs_event.specs.Solutions.{is_among};
ghost use Rattle.gs_event.specs.Updates.{without_triples};

use gs_ntwrite::{line, quad_line};
use gs_term::{GraphName, Triple};
use std::alloc::{AllocError, Global};
use std::marker::Model;

/// A graph's triples, each once, in their order. A contract sees the graph.
#[derive(Debug, Drop)]
pub struct SortedGraph {
    triples: Vec<Triple>,
}

impl Model for SortedGraph {
    ghost use Rattle.std.specs.List.Sorted.{IsStrictlySortedBy};
    ghost use Rattle.gs_model.specs.Triples.{triple_cmp};
    ghost use Rattle.gs_model.specs.Graphs.{Graph, graph_of};
    ghost use Rattle.gs_model.specs.Codes.{graph_code};

    ghost Value = { Graph };

    ghost coded = { graph_code };

    ghost view = { λ g. graph_of g.triples.items };

    ghost invariant = { λ g. IsStrictlySortedBy triple_cmp g.triples.items };
}

impl SortedGraph {
    /// The empty graph. Allocates nothing.
    pub fn new(alloc: Global) -> SortedGraph
        ensures { result ≡ empty_graph }
    {
        SortedGraph {
            triples: Vec::new(alloc),
        }
    }

    /// How many triples it has.
    pub fn len(&self) -> usize
        ensures { result ≡ size_of self.now }
    {
        self.triples.len()
    }

    /// Adds triples, in any order and with repeats. Sorts the whole list, so it takes
    /// O(n log n) comparisons for n triples in all.
    pub(crate) fn add_all(&mut self, alloc: Global, triples: &[Triple]) -> Result<(), AllocError>
        ensures ok { OnOk result (self.new ≡ with_triples self.old triples.now) }
        ensures size { OnOk result (size_of self.new ≤ size_of self.old + length triples.now) }
        ensures kept { OnErr result (self.new ≡ self.old) }
    {
        let mut copies = copies_of(alloc, triples)?;
        append_sorted(&mut self.triples, &mut copies)?;
        Ok(())
    }

    /// Adds triples where there are then at most so many in all. Only near that number it works on
    /// a copy.
    pub fn add_within(
        &mut self,
        alloc: Global,
        triples: &[Triple],
        most: u64,
    ) -> Result<(), AllocError>
        ensures ok { OnOk result (self.new ≡ with_triples self.old triples.now) }
        ensures few { OnOk result (size_of self.new ≤ most) }
        ensures kept { OnErr result (self.new ≡ self.old) }
    {
        let before = self.len() as u64;
        if before <= most && triples.len() as u64 <= most - before {
            return self.add_all(alloc, triples);
        }
        let mut larger = self.copied(alloc)?;
        larger.add_all(alloc, triples)?;
        if larger.len() as u64 > most {
            return Err(AllocError);
        }
        *self = larger;
        Ok(())
    }

    /// Takes triples away, in any order and with repeats; those that it does not have count for
    /// nothing. Sorts a copy of them, and looks each of its own up in it.
    pub(crate) fn remove_all(&mut self, alloc: Global, triples: &[Triple]) -> Result<(), AllocError>
        ensures ok { OnOk result (self.new ≡ without_triples self.old triples.now) }
        ensures kept { OnErr result (self.new ≡ self.old) }
    {
        let mut gone = copies_of(alloc, triples)?;
        gone.sort_unstable();
        remove_sorted(&mut self.triples, gone.as_slice());
        Ok(())
    }

    /// A copy.
    pub fn copied(&self, alloc: Global) -> Result<SortedGraph, AllocError>
        ensures { IfOk result (λ copy. copy ≡ self.now) }
    {
        let triples = copies_of(alloc, self.triples.as_slice())?;
        Ok(SortedGraph { triples })
    }

    /// The graph with the triples of another.
    pub fn united(&self, alloc: Global, other: &SortedGraph) -> Result<SortedGraph, AllocError>
        ensures value { IfOk result (λ both. both ≡ with_triples self.now (triples_of other.now)) }
        ensures size { IfOk result (λ both. size_of both ≤ size_of self.now + size_of other.now) }
    {
        let mut both = self.copied(alloc)?;
        both.add_all(alloc, other.as_slice())?;
        Ok(both)
    }

    /// Its triples, each once, in their order.
    pub(crate) fn as_slice(&self) -> &[Triple]
        ensures value { result.now ≡ triples_of self.now }
        ensures sorted { IsStrictlySortedBy triple_cmp result.now }
    {
        self.triples.as_slice()
    }

    /// The lines from the one at `start` on, `count` of them or as many as there are.
    pub fn lines_from(
        &self,
        alloc: Global,
        start: usize,
        count: usize,
    ) -> Result<Vec<u8>, AllocError>
        ensures { IfOk result (λ bytes. bytes.items ≡ concat (take count (drop start (lines_of self.now)))) }
    {
        lines_in_order(alloc, part(self.triples.as_slice(), start, count))
    }

    /// The same of the lines that a graph of this name has.
    pub fn quads_from(
        &self,
        alloc: Global,
        name: &GraphName,
        start: usize,
        count: usize,
    ) -> Result<Vec<u8>, AllocError>
        ensures { IfOk result (λ bytes.
            bytes.items ≡ concat (take count (drop start (named_lines (name.now, self.now))))) }
    {
        quads_in_order(alloc, name, part(self.triples.as_slice(), start, count))
    }
}

fn copies_of(alloc: Global, triples: &[Triple]) -> Result<Vec<Triple>, AllocError>
    ensures { IfOk result (λ copies. copies.items ≡ triples.now) }
{
    let mut copies = Vec::with_capacity(alloc, triples.len())?;
    for triple in triples {
        copies.push(triple.clone()?)?;
    }
    Ok(copies)
}

/// Puts new triples among the sorted ones. An `Err` changes neither list.
fn append_sorted(triples: &mut Vec<Triple>, new: &mut Vec<Triple>) -> Result<(), AllocError>
    ensures sorted { OnOk result (IsStrictlySortedBy triple_cmp triples.new.items) }
    ensures graph { OnOk result (graph_of triples.new.items ≡ graph_of (triples.old.items ++ new.old.items)) }
    ensures size { OnOk result (length triples.new.items ≤ length triples.old.items + length new.old.items) }
    ensures kept { OnErr result (triples.new.items ≡ triples.old.items) }
{
    triples.append(new)?;
    triples.sort_unstable();
    triples.dedup();
    Ok(())
}

/// Keeps the triples that are not among these, which are sorted.
fn remove_sorted(triples: &mut Vec<Triple>, gone: &[Triple])
    requires { IsSorted triple_cmp gone.now }
    ensures { triples.new.items ≡ filter (λ t. not (is_among gone.now t)) triples.old.items }
{
    triples.retain(|triple| !is_in(gone, triple));
}

/// Whether the triple is among these, which are sorted.
fn is_in(sorted: &[Triple], triple: &Triple) -> bool
    requires { IsSorted triple_cmp sorted.now }
    ensures { result ≡ is_among sorted.now triple.now }
{
    sorted.binary_search(triple).is_ok()
}

/// The triples from the one at `start` on, `count` of them or as many as there are.
fn part(triples: &[Triple], start: usize, count: usize) -> &[Triple]
    ensures { result.now ≡ take count (drop start triples.now) }
{
    let from = start.min(triples.len());
    &triples[from..from + count.min(triples.len() - from)]
}

fn lines_in_order(alloc: Global, triples: &[Triple]) -> Result<Vec<u8>, AllocError>
    ensures { IfOk result (λ out. out.items ≡ concat (map line_of triples.now)) }
{
    let mut bytes = Vec::new(alloc);
    for triple in triples {
        match line(triple, &mut bytes) {
            Ok(()) => {}
            Err(_) => return Err(AllocError),
        }
    }
    Ok(bytes)
}

fn quads_in_order(
    alloc: Global,
    name: &GraphName,
    triples: &[Triple],
) -> Result<Vec<u8>, AllocError>
    ensures { IfOk result (λ out. out.items ≡ concat (map (quad_line_of name.now) triples.now)) }
{
    let mut bytes = Vec::new(alloc);
    for triple in triples {
        match quad_line(triple, name, &mut bytes) {
            Ok(()) => {}
            Err(_) => return Err(AllocError),
        }
    }
    Ok(bytes)
}
