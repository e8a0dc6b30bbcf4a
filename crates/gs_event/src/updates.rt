//! Updates of a graph.
use gs_term::Pattern;
use gs_triple_lists::TripleList;

/// One operation of an update (SPARQL 1.1 Update, section 3.1).
#[derive(Debug, Drop)]
pub enum Op {
    /// INSERT DATA (3.1.1): these triples come to the graph.
    Insert(TripleList),
    /// DELETE DATA (3.1.2): these triples go.
    DeleteData(TripleList),
    /// DELETE WHERE (3.1.3.3): each instance of these patterns goes, under each solution of all of
    /// them.
    DeleteWhere(Vec<Pattern>),
}
