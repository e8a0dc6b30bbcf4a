//! Schedules of reads of all graphs.
use crate::lines::Lines;
use crate::rows::{kept_lines_of, lines_of};
use gs_model::Refusal;
use std::alloc::Global;

/// Seat 1 reads all graphs line by line. Before each further line seat 0 writes in another way, and all that is
/// not needed is freed. The read has the lines of its pin: two of the default graph, two of `http://e/a/b`, and
/// four of `http://e/a`. Seat 2 begins a read with seat 1, and goes on after the last write.
///
/// The pin needs these eight nodes, and three records. So once all is freed that may be, there are a node for each
/// triple, a record for each name and for a default graph with triples, and beside these the nodes and records of
/// the pin that are of no graph as it is now. It is not said here how many of the two nodes of `http://e/a/b` at
/// the pin are also of that graph after a triple came, and after one of the two went: so there may be two more then,
/// and one.
const BESIDE_WRITES: &str = r#"
0 put default | opened 1 | 1 | 0
0 stage 0 1 | staged | 3 | 0
0 commit | status 204, commit 1 | 3 | 2
0 put b | opened 2 | 4 | 2
0 stage 2 3 | staged | 6 | 2
0 commit | status 201, commit 2 | 6 | 4
0 put a | opened 3 | 7 | 4
0 stage 4 5 6 7 | staged | 11 | 4
0 commit | status 201, commit 3 | 11 | 8
1 pin all | pinned 200, commit 3 | 11 | 8
2 pin all | pinned 200, commit 3 | 11 | 8
1 piece 1 | lines <http://e/s0> <http://e/p0> "x" . / more | 11 | 8
0 put a | opened 4 | 12 | 8
0 stage 8 | staged | 13 | 8
0 commit | status 204, commit 4 | 13 | 5
free 99999 | reclaimed 0 more | 13 | 5
1 piece 1 | lines <http://e/s0> <http://e/p0> <http://e/s0> . / more | 13 | 5
0 post a | opened 5 | 14 | 5
0 stage 8 9 | staged | 16 | 5
0 commit | status 204, commit 5 | 15+256 | 6
free 99999 | more | 14 | 6
1 piece 1 | lines <http://e/s0> <http://e/p1> "x" <http://e/a/b> . / more | 14 | 6
0 open-patch a | opened 6 | 15 | 6
0 patch - 8 + 10 | status 204, commit 6 | 16+519 | 6
free 99999 | more | 14 | 6
1 piece 1 | lines <http://e/s0> <http://e/p1> <http://e/s0> <http://e/a/b> . / more | 14 | 6
0 delete a | status 204, commit 7 | 14 | 4
free 99999 | reclaimed 3 more | 11 | 4
1 piece 1 | lines <http://e/s1> <http://e/p0> "x" <http://e/a> . / more | 11 | 4
0 new | opened 7 | 12 | 4
0 stage 15 | staged | 13 | 4
0 commit | status 201 http://localhost/graphs/n7-0, commit 8 | 13+260 | 5
free 99999 | more | 13 | 5
1 piece 1 | lines <http://e/s1> <http://e/p0> <http://e/s0> <http://e/a> . / more | 13 | 5
0 put default | opened 8 | 14 | 5
0 stage 0 12 | staged | 16 | 5
0 commit | status 204, commit 9 | 16 | 5
free 99999 | reclaimed 0 more | 16 | 5
1 piece 1 | lines <http://e/s1> <http://e/p1> "x" <http://e/a> . / more | 16 | 5
0 delete default | status 204, commit 10 | 16 | 3
free 99999 | reclaimed 3 more | 13 | 3
0 post b | opened 9 | 14 | 3
0 stage 1 | staged | 15 | 3
0 commit | status 204, commit 11 | 15+256 | 4
free 99999 | more | 15+2 | 4
0 open-patch b | opened 10 | 16+2 | 4
0 patch - 2 + | status 204, commit 12 | 16+262 | 3
free 99999 | more | 15+1 | 3
1 piece 1 | lines <http://e/s1> <http://e/p1> <http://e/s0> <http://e/a> . / end | 15+1 | 3
free 99999 | reclaimed 0 more | 15+1 | 3
# The lines of the pin: the default graph's and the first of `http://e/a/b`, and the others.
2 piece 3 | lines <http://e/s0> <http://e/p0> "x" . / <http://e/s0> <http://e/p0> <http://e/s0> . / <http://e/s0> <http://e/p1> "x" <http://e/a/b> . / more | 15+1 | 3
2 piece 99 | lines <http://e/s0> <http://e/p1> <http://e/s0> <http://e/a/b> . / <http://e/s1> <http://e/p0> "x" <http://e/a> . / <http://e/s1> <http://e/p0> <http://e/s0> <http://e/a> . / <http://e/s1> <http://e/p1> "x" <http://e/a> . / <http://e/s1> <http://e/p1> <http://e/s0> <http://e/a> . / end | 15+1 | 3
free 99999 | done | 5 | 3
1 pin all | pinned 200, commit 12 | 5 | 3
# The lines after all writes: none of the default graph, two of `http://e/a/b` and one of the graph whose name
# was made up.
1 piece 99 | lines <http://e/s0> <http://e/p0> <http://e/s0> <http://e/a/b> . / <http://e/s0> <http://e/p1> <http://e/s0> <http://e/a/b> . / <http://e/s3> <http://e/p1> <http://e/s0> <http://localhost/graphs/n7-0> . / end | 5 | 3
1 pin a | pinned 404, commit 12 | 5 | 3
1 pin b | pinned 200, commit 12 | 5 | 3
1 piece 1 | lines <http://e/s0> <http://e/p0> <http://e/s0> . / more | 5 | 3
1 pin all | refused WrongPhase | 5 | 3
1 head all | refused WrongPhase | 5 | 3
1 piece 1 | lines <http://e/s0> <http://e/p1> <http://e/s0> . / end | 5 | 3
free 99999 | reclaimed 0 done | 5 | 3
"#;

/// Seats 1 and 3 read all graphs at two versions, and seat 2 one graph at the first of these. What two reads need
/// is freed after both have ended, and what one needs once that has.
const TWO_VERSIONS: &str = r#"
0 put a | opened 1 | 1 | 0
0 stage 0 | staged | 2 | 0
0 commit | status 201, commit 1 | 2 | 1
1 pin all | pinned 200, commit 1 | 2 | 1
2 pin a | pinned 200, commit 1 | 2 | 1
0 put b | opened 2 | 3 | 1
0 stage 1 | staged | 4 | 1
0 commit | status 201, commit 2 | 4 | 2
0 put a | opened 3 | 5 | 2
0 stage 2 3 | staged | 7 | 2
0 commit | status 204, commit 3 | 7 | 3
3 pin all | pinned 200, commit 3 | 7 | 3
free 99999 | reclaimed 0 more | 7 | 3
0 delete b | status 204, commit 4 | 7 | 2
0 delete a | status 204, commit 5 | 7 | 0
free 99999 | reclaimed 0 more | 7 | 0
1 piece 9 | lines <http://e/s0> <http://e/p0> "x" <http://e/a> . / end | 7 | 0
free 99999 | reclaimed 0 more | 7 | 0
2 cancel | cancelled | 7 | 0
free 99999 | reclaimed 2 more | 5 | 0
# The first two lines of seat 3: of `http://e/a/b`, and then of `http://e/a`.
3 piece 2 | lines <http://e/s0> <http://e/p0> <http://e/s0> <http://e/a/b> . / <http://e/s0> <http://e/p1> "x" <http://e/a> . / more | 5 | 0
0 put default | opened 4 | 6 | 0
0 commit | status 204, commit 6 | 6 | 0
free 99999 | reclaimed 1 more | 5 | 0
3 piece 2 | lines <http://e/s0> <http://e/p1> <http://e/s0> <http://e/a> . / end | 5 | 0
free 99999 | reclaimed 5 done | 0 | 0
1 pin all | pinned 200, commit 6 | 0 | 0
1 piece 1 | lines end | 0 | 0
"#;

/// No graph; a graph without triples; then graphs without triples after two with some, and between them. A graph
/// without triples has no line, so the last line ends a read though such a graph comes after it.
const WITHOUT_LINES: &str = r#"
0 head all | status 200, commit 0 | 0 | 0
0 pin all | pinned 200, commit 0 | 0 | 0
0 piece 0 | refused WrongPhase | 0 | 0
0 piece 1 | lines end | 0 | 0
0 pin all | pinned 200, commit 0 | 0 | 0
0 cancel | cancelled | 0 | 0
0 piece 1 | refused WrongPhase | 0 | 0
0 head a | status 404, commit 0 | 0 | 0
0 pin a | pinned 404, commit 0 | 0 | 0
0 pin default | pinned 200, commit 0 | 0 | 0
0 piece 5 | lines end | 0 | 0
0 put a | opened 1 | 1 | 0
0 commit | status 201, commit 1 | 1 | 0
0 pin all | pinned 200, commit 1 | 1 | 0
0 piece 1 | lines end | 1 | 0
0 put b | opened 2 | 2 | 0
0 stage 3 | staged | 3 | 0
0 commit | status 201, commit 2 | 3 | 1
0 new | opened 3 | 4 | 1
0 stage 7 0 7 | staged | 6 | 1
0 commit | status 201 http://localhost/graphs/n3-0, commit 3 | 6+520 | 3
free 99999 | done | 6 | 3
0 new | opened 4 | 7 | 3
0 commit | status 201 http://localhost/graphs/n4-0, commit 4 | 7 | 3
0 pin all | pinned 200, commit 4 | 7 | 3
# The line of `http://e/a/b`.
0 piece 1 | lines <http://e/s0> <http://e/p1> <http://e/s0> <http://e/a/b> . / more | 7 | 3
# The lines of `http://localhost/graphs/n3-0`, before which `http://e/a` has none.
0 piece 1 | lines <http://e/s0> <http://e/p0> "x" <http://localhost/graphs/n3-0> . / more | 7 | 3
0 piece 1 | lines <http://e/s1> <http://e/p1> <http://e/s0> <http://localhost/graphs/n3-0> . / end | 7 | 3
1 pin all | pinned 200, commit 4 | 7 | 3
1 piece 2 | lines <http://e/s0> <http://e/p1> <http://e/s0> <http://e/a/b> . / <http://e/s0> <http://e/p0> "x" <http://localhost/graphs/n3-0> . / more | 7 | 3
1 piece 2 | lines <http://e/s1> <http://e/p1> <http://e/s0> <http://localhost/graphs/n3-0> . / end | 7 | 3
2 pin all | pinned 200, commit 4 | 7 | 3
2 piece 3 | lines <http://e/s0> <http://e/p1> <http://e/s0> <http://e/a/b> . / <http://e/s0> <http://e/p0> "x" <http://localhost/graphs/n3-0> . / <http://e/s1> <http://e/p1> <http://e/s0> <http://localhost/graphs/n3-0> . / end | 7 | 3
3 pin all | pinned 200, commit 4 | 7 | 3
3 piece 4294967295 | lines <http://e/s0> <http://e/p1> <http://e/s0> <http://e/a/b> . / <http://e/s0> <http://e/p0> "x" <http://localhost/graphs/n3-0> . / <http://e/s1> <http://e/p1> <http://e/s0> <http://localhost/graphs/n3-0> . / end | 7 | 3
3 pin all | pinned 200, commit 4 | 7 | 3
3 piece 1 | lines <http://e/s0> <http://e/p1> <http://e/s0> <http://e/a/b> . / more | 7 | 3
0 put default | opened 5 | 8 | 3
0 stage 5 | staged | 9 | 3
0 commit | status 204, commit 5 | 9 | 4
0 pin all | pinned 200, commit 5 | 9 | 4
# The line of the default graph, and that of `http://e/a/b`.
0 piece 2 | lines <http://e/s1> <http://e/p0> <http://e/s0> . / <http://e/s0> <http://e/p1> <http://e/s0> <http://e/a/b> . / more | 9 | 4
3 piece 9 | lines <http://e/s0> <http://e/p0> "x" <http://localhost/graphs/n3-0> . / <http://e/s1> <http://e/p1> <http://e/s0> <http://localhost/graphs/n3-0> . / end | 9 | 4
0 piece 2 | lines <http://e/s0> <http://e/p0> "x" <http://localhost/graphs/n3-0> . / <http://e/s1> <http://e/p1> <http://e/s0> <http://localhost/graphs/n3-0> . / end | 9 | 4
free 99999 | reclaimed 0 done | 9 | 4
0 head all | status 200, commit 5 | 9 | 4
"#;

/// The schedule of a read of all graphs beside writes of all kinds, where all that may be is freed after each.
pub fn beside_writes(alloc: Global) -> Result<Lines, Refusal> {
    lines_of(alloc, BESIDE_WRITES, 62)
}

/// The same, where nothing is freed.
pub fn beside_kept_writes(alloc: Global) -> Result<Lines, Refusal> {
    kept_lines_of(alloc, BESIDE_WRITES, 62)
}

/// The schedule of reads of two versions of all graphs. Its writes are PUTs and Deletes.
pub fn two_versions(alloc: Global) -> Result<Lines, Refusal> {
    lines_of(alloc, TWO_VERSIONS, 28)
}

/// The schedule of all graphs where some have no lines.
pub fn without_lines(alloc: Global) -> Result<Lines, Refusal> {
    lines_of(alloc, WITHOUT_LINES, 46)
}
