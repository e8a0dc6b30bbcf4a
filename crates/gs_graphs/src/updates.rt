//! Updates: operations on a graph, one after another.
ghost use Rattle.std.specs.Prelude.{◌≡◌, OnOk};
ghost use Rattle.gs_event.specs.Updates.{operated, updated};

use crate::graphs::SortedGraph;
use crate::solutions::instances;
use gs_event::Op;
use std::alloc::{AllocError, Global};

/// Takes the operations in their order, each on what the one before it left. Where memory is
/// wanted, the graph is of no more use.
pub fn update(graph: &mut SortedGraph, alloc: Global, operations: &[Op]) -> Result<(), AllocError>
    ensures { OnOk result (graph.new ≡ updated graph.old operations.now) }
{
    let mut left = operations;
    while let Some((operation, rest)) = left.split_first() {
        operate(graph, alloc, operation)?;
        left = rest;
    }
    Ok(())
}

#[tactic(auto, using(crate::proofs::SolvingLemmas::without_instances))]
fn operate(graph: &mut SortedGraph, alloc: Global, operation: &Op) -> Result<(), AllocError>
    ensures { OnOk result (graph.new ≡ operated graph.old operation.now) }
{
    match operation {
        Op::Insert(triples) => graph.add_all(alloc, triples.to_vec(alloc)?.as_slice()),
        Op::DeleteData(triples) => graph.remove_all(alloc, triples.to_vec(alloc)?.as_slice()),
        Op::DeleteWhere(patterns) => {
            let gone = instances(alloc, graph, patterns.as_slice())?;
            graph.remove_all(alloc, gone.as_slice())
        }
    }
}
