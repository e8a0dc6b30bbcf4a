//! A schedule of writes on condition.
use crate::lines::Lines;
use crate::rows::lines_of;
use gs_model::Refusal;
use std::alloc::Global;

/// Two editors of `http://e/a` write on the condition that nobody has written it since they looked. Of two at a time
/// the first to commit is taken, and the other has the number of that commit for an answer. Then nothing of its graph is
/// changed, its upload is given up, and the nodes and the record of that are freed by the next Reclaim. At most
/// three are freed after each step but one.
const STEPS: &str = r#"
# Both editors, at seats 1 and 2, see commit 1, and so does a read at seat 3.
0 put a | opened 1 | 1 | 0
free 3 | reclaimed 0 done | 1 | 0
0 stage 0 | staged | 2 | 0
free 3 | reclaimed 0 done | 2 | 0
0 commit | status 201, commit 1 | 2 | 1
free 3 | reclaimed 0 done | 2 | 1
1 head a | status 200, commit 1 | 2 | 1
free 3 | reclaimed 0 done | 2 | 1
2 head a | status 200, commit 1 | 2 | 1
free 3 | reclaimed 0 done | 2 | 1
3 pin a | pinned 200, commit 1 | 2 | 1
free 3 | reclaimed 0 done | 2 | 1
# The first of them writes, and the second comes too late, while the read goes on.
1 put a since 1 | opened 2 | 3 | 1
free 3 | reclaimed 0 done | 3 | 1
2 post a since 1 | opened 3 | 4 | 1
free 3 | reclaimed 0 done | 4 | 1
1 stage 1 | staged | 5 | 1
free 3 | reclaimed 0 done | 5 | 1
2 stage 2 3 | staged | 7 | 1
free 3 | reclaimed 0 done | 7 | 1
1 commit | status 204, commit 2 | 7 | 1
free 3 | reclaimed 0 more | 7 | 1
2 commit | status 412, commit 2 | 7 | 1
free 3 | reclaimed 3 more | 4 | 1
2 commit | refused WrongPhase | 4 | 1
free 3 | reclaimed 0 more | 4 | 1
# This is the line of the first triple, which the graph has when the read begins.
3 piece 9 | lines <http://e/s0> <http://e/p0> "x" . / end | 4 | 1
free 3 | reclaimed 2 done | 2 | 1
# It looks again, and then it writes.
2 head a | status 200, commit 2 | 2 | 1
free 3 | reclaimed 0 done | 2 | 1
2 put a since 2 | opened 4 | 3 | 1
free 3 | reclaimed 0 done | 3 | 1
2 stage 1 2 | staged | 5 | 1
free 3 | reclaimed 0 done | 5 | 1
2 commit | status 204, commit 3 | 5 | 2
free 3 | reclaimed 2 done | 3 | 2
# A patch that changes nothing is a write.
1 open-patch a since 2 | opened 5 | 4 | 2
free 3 | reclaimed 0 done | 4 | 2
1 patch - 1 + | status 412, commit 3 | 4 | 2
free 3 | reclaimed 1 done | 3 | 2
1 open-patch a since 3 | opened 6 | 4 | 2
free 3 | reclaimed 0 done | 4 | 2
2 open-patch a since 3 | opened 7 | 5 | 2
free 3 | reclaimed 0 done | 5 | 2
1 patch - + | status 204, commit 4 | 5 | 2
free 3 | reclaimed 1 done | 4 | 2
2 patch - + | status 412, commit 4 | 4 | 2
free 3 | reclaimed 1 done | 3 | 2
# A name that is missing is 404 to a Delete and to a patch. To others it has the number of the last Delete of any name.
1 delete b since 0 | status 404, commit 4 | 3 | 2
free 3 | reclaimed 0 done | 3 | 2
1 delete a since 3 | status 412, commit 4 | 3 | 2
free 3 | reclaimed 0 done | 3 | 2
1 delete a since 4 | status 204, commit 5 | 3 | 0
free 3 | reclaimed 3 done | 0 | 0
1 delete a since 4 | status 404, commit 5 | 0 | 0
free 3 | reclaimed 0 done | 0 | 0
1 open-patch a since 4 | opened 8 | 1 | 0
free 3 | reclaimed 0 done | 1 | 0
1 patch - + 0 | status 404, commit 5 | 1 | 0
free 3 | reclaimed 1 done | 0 | 0
1 put a since 4 | opened 9 | 1 | 0
free 3 | reclaimed 0 done | 1 | 0
1 commit | status 412, commit 5 | 1 | 0
free 3 | reclaimed 1 done | 0 | 0
1 put b since 4 | opened 10 | 1 | 0
free 3 | reclaimed 0 done | 1 | 0
1 commit | status 412, commit 5 | 1 | 0
free 3 | reclaimed 1 done | 0 | 0
1 put b since 5 | opened 11 | 1 | 0
free 3 | reclaimed 0 done | 1 | 0
1 commit | status 201, commit 6 | 1 | 0
free 3 | reclaimed 0 done | 1 | 0
# Both make the deleted name again.
1 put a since 5 | opened 12 | 2 | 0
free 3 | reclaimed 0 done | 2 | 0
2 put a since 5 | opened 13 | 3 | 0
free 3 | reclaimed 0 done | 3 | 0
2 stage 5 | staged | 4 | 0
free 3 | reclaimed 0 done | 4 | 0
2 commit | status 201, commit 7 | 4 | 1
free 3 | reclaimed 0 done | 4 | 1
1 commit | status 412, commit 7 | 4 | 1
free 3 | reclaimed 1 done | 3 | 1
# The default graph was not written since the start. A Delete of it is a write on it, and no Delete of a name.
1 put default since 0 | opened 14 | 4 | 1
free 3 | reclaimed 0 done | 4 | 1
1 commit | status 204, commit 8 | 4 | 1
free 3 | reclaimed 1 done | 3 | 1
1 delete default since 7 | status 412, commit 8 | 3 | 1
free 3 | reclaimed 0 done | 3 | 1
1 delete default since 8 | status 204, commit 9 | 3 | 1
free 3 | reclaimed 0 done | 3 | 1
1 post default since 8 | opened 15 | 4 | 1
free 3 | reclaimed 0 done | 4 | 1
1 stage 6 | staged | 5 | 1
free 3 | reclaimed 0 done | 5 | 1
1 commit | status 412, commit 9 | 5 | 1
free 3 | reclaimed 2 done | 3 | 1
2 put n50-0 since 5 | opened 16 | 4 | 1
free 3 | reclaimed 0 done | 4 | 1
2 commit | status 201, commit 10 | 4 | 1
free 3 | reclaimed 0 done | 4 | 1
# The graph of a new name has no condition, and one above all commits always holds.
1 new since 0 | opened 17 | 5 | 1
free 3 | reclaimed 0 done | 5 | 1
1 commit | status 201 http://localhost/graphs/n17-0, commit 11 | 5 | 1
free 3 | reclaimed 0 done | 5 | 1
1 put b since 18446744073709551615 | opened 18 | 6 | 1
free 3 | reclaimed 0 done | 6 | 1
1 commit | status 204, commit 12 | 6 | 1
free 3 | reclaimed 1 done | 5 | 1
1 head n51-0 | status 404, commit 12 | 5 | 1
free 3 | reclaimed 0 done | 5 | 1
# A patch that replaces the triple of `http://e/a` on the condition that this was not written since it was made again.
# Once all is freed there are the node of the new triple and the records of four names.
2 open-patch a since 7 | opened 19 | 6 | 1
2 patch - 5 + 4 | status 204, commit 13 | 7+519 | 1
free 99999 | done | 5 | 1
"#;

/// The schedule of writes on condition.
pub fn on_condition(alloc: Global) -> Result<Lines, Refusal> {
    lines_of(alloc, STEPS, 113)
}
