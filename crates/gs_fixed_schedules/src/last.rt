//! Schedules of stores whose nodes and terms have few numbers.
use crate::lines::Lines;
use crate::rows::lines_of;
use gs_model::Refusal;
use std::alloc::Global;

/// Four nodes: a fifth triple is refused, and there is room for it once the four were freed. Records have numbers
/// of their own, so an Open takes none of the four. At the end three nodes and a record are waste, and what is
/// freed first is a node: one triple more is taken, and no second.
const LAST_NODE: &str = r#"
0 put a | opened 1 | 1 | 0
0 stage 0 | staged | 2 | 0
0 stage 1 | staged | 3 | 0
0 stage 2 | staged | 4 | 0
0 stage 3 | staged | 5 | 0
0 stage 4 | refused NoMemory | 5 | 0
0 commit | status 201, commit 1 | 5 | 4
0 delete a | status 204, commit 2 | 5 | 0
free 9 | reclaimed 5 done | 0 | 0
0 put a | opened 2 | 1 | 0
0 stage 4 | staged | 2 | 0
0 commit | status 201, commit 3 | 2 | 1
0 put b | opened 3 | 3 | 1
0 stage 0 | staged | 4 | 1
0 stage 1 | staged | 5 | 1
0 stage 2 | staged | 6 | 1
0 stage 3 | refused NoMemory | 6 | 1
0 cancel | cancelled | 6 | 1
free 1 | reclaimed 1 more | 5 | 1
0 put b | opened 4 | 6 | 1
0 stage 0 | staged | 7 | 1
0 stage 1 | refused NoMemory | 7 | 1
"#;

/// Four nodes: a POST takes them all for its upload, and its graph takes them after that. Then there is none for
/// another upload, which is opened still. A POST onto three whose copies do not fit is refused, and leaves its
/// upload with a node in use.
const LAST_NODE_POSTED: &str = r#"
0 post a | opened 1 | 1 | 0
0 stage 0 | staged | 2 | 0
0 stage 1 | staged | 3 | 0
0 stage 2 | staged | 4 | 0
0 stage 3 | staged | 5 | 0
0 commit | status 201, commit 1 | 5 | 4
0 put b | opened 2 | 6 | 4
0 stage 4 | refused NoMemory | 6 | 4
0 cancel | cancelled | 6 | 4
0 delete a | status 204, commit 2 | 6 | 0
free 9 | reclaimed 6 done | 0 | 0
0 post a | opened 3 | 1 | 0
0 stage 0 | staged | 2 | 0
0 stage 1 | staged | 3 | 0
0 stage 2 | staged | 4 | 0
0 commit | status 201, commit 3 | 4 | 3
0 post a | opened 4 | 5 | 3
0 stage 3 | staged | 6 | 3
0 commit | refused NoMemory | 6 | 3
0 cancel | cancelled | 6 | 3
"#;

/// Three terms: a triple with a fourth is refused, and one of those three is taken. The first two triples
/// have one subject and one predicate; the object of the second is that subject. The fifth has another
/// subject.
const LAST_TERM: &str = r#"
0 put a | opened 1 | 1 | 0
0 stage 0 | staged | 2 | 0
0 stage 4 | refused NoMemory | 2 | 0
0 stage 1 | staged | 3 | 0
0 commit | status 201, commit 1 | 3 | 2
0 pin a | pinned 200, commit 1 | 3 | 2
# The lines of the first two triples.
0 piece 9 | lines <http://e/s0> <http://e/p0> "x" . / <http://e/s0> <http://e/p0> <http://e/s0> . / end | 3 | 2
"#;

/// The schedule of a store whose last node has number 3.
pub fn last_node_lines(alloc: Global) -> Result<Lines, Refusal> {
    lines_of(alloc, LAST_NODE, 22)
}

/// The schedule of such a store that is written by POST.
pub fn last_node_posts(alloc: Global) -> Result<Lines, Refusal> {
    lines_of(alloc, LAST_NODE_POSTED, 20)
}

/// The schedule of a store whose last term has number 2.
pub fn last_term_lines(alloc: Global) -> Result<Lines, Refusal> {
    lines_of(alloc, LAST_TERM, 7)
}
