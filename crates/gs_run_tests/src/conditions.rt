//! Schedules of writes on condition, worked by hand. A line may end in `since` and the number of a commit, and 412 is
//! printed with the number of the last write on its graph.
use crate::runs::wrong_row;
use gs_schedules::Row;
use std::test::Fail;

const ROWS: [Row; 7] = [
    (
        "a graph that was written since is 412, and so is a name after the Delete of another",
        "0 open put <http://e/g>\n0 stage <s> <p> \"1\" .\n0 commit\n1 open put <http://e/g> since 1\n0 open post <http://e/g>\n0 stage <s> <p> \"2\" .\n0 commit\n1 commit\n1 open put <http://e/g> since 2\n1 commit\n0 delete <http://e/g> since 2\n0 delete <http://e/g>\n0 open put <http://e/h> since 3\n0 commit\n0 open put <http://e/h> since 4\n0 commit\n",
        "opened 1\nstaged\n201\nopened 2\nopened 3\nstaged\n204\n412 2\nopened 4\n204\n412 3\n204\nopened 5\n412 4\nopened 6\n201\n",
    ),
    (
        "a missing graph is 404 before it is 412",
        "0 open put <http://e/g>\n0 commit\n0 delete <http://e/g>\n0 delete <http://e/g> since 0\n0 open patch <http://e/g> since 0\n0 patch: insert <a> <p> <b>\n0 open patch default since 0\n0 patch: insert <a> <p> <b>\n0 open patch default since 2\n0 patch: insert <a> <p> <c>\n0 pin default\n0 piece 9\n",
        "opened 1\n201\n204\n404\nopened 2\n404\nopened 3\n204\nopened 4\n412 3\n200\n<http://e/a> <http://e/p> <http://e/b> .\nend\n",
    ),
    (
        "an upload that comes too late is given up, and its seat is idle",
        "0 open post default since 0\n0 stage <a> <p> <b> .\n1 open put default\n1 commit\n0 commit\n0 commit\n0 pin default\n0 piece 9\nreclaim 9\n",
        "opened 1\nstaged\nopened 2\n204\n412 1\nrefused WrongPhase\n200\nend\nreclaimed 3 done\n",
    ),
    (
        "a graph that was never written has the number of the start, and 412 comes before the last number",
        "store 4 999999999999999998 0\n0 open put default since 5\n0 commit\n1 open put <http://e/g> since 999999999999999997\n1 commit\n0 open put default since 999999999999999998\n0 commit\n0 open put default since 999999999999999998\n0 commit\n1 delete <http://e/g> since 1\n1 delete default since 1\n1 delete default\n0 open patch default since 1\n0 patch: insert <a> <p> <b>\n0 open post default since 999999999999999999\n0 commit\n",
        "opened 1\n412 999999999999999998\nopened 2\n412 999999999999999998\nopened 3\n204\nopened 4\n412 999999999999999999\n404\n412 999999999999999999\nrefused LastNumber\nopened 5\n412 999999999999999999\nopened 6\nrefused LastNumber\n",
    ),
    (
        "a write that changes nothing is a write, and a refused one is none",
        "0 open put default\n0 stage <a> <p> <b> .\n0 commit\n0 open post default since 1\n0 stage <a> <p> <b> .\n0 commit\n0 open patch default since 1\n0 patch:\n0 open patch default since 2\n0 patch:\n0 open put default since 2\n0 commit\n0 delete default since 2\n0 delete default since 3\n",
        "opened 1\nstaged\n204\nopened 2\nstaged\n204\nopened 3\n412 2\nopened 4\n204\nopened 5\n412 3\n412 3\n204\n",
    ),
    (
        "a new graph has no condition, and one above all commits always holds",
        "0 open put default\n0 commit\n0 open new since 0\n0 commit\n0 open put default since 18446744073709551615\n0 commit\n0 open patch default since 18446744073709551615\n0 patch:\n0 delete default since 18446744073709551615\n",
        "opened 1\n204\nopened 2\n201 http://localhost/graphs/n2-0\nopened 3\n204\nopened 4\n204\n204\n",
    ),
    (
        "a Delete of the default graph is a write on it, and no Delete of a name",
        "0 delete default\n0 open put <http://e/g> since 0\n0 commit\n0 open put default since 0\n0 commit\n0 open put <http://e/g> since 2\n0 commit\n0 open put <http://e/g> since 2\n0 commit\n",
        "204\nopened 1\n201\nopened 2\n412 1\nopened 3\n204\nopened 4\n412 3\n",
    ),
];

#[test]
fn a_run_over_each_store_refuses_what_comes_too_late(rt: HostRuntime) -> Result<(), Fail> {
    assert_eq!(rt; wrong_row(rt.alloc(), &ROWS)?, None);
    Ok(())
}
