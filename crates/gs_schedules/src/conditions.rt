//! Schedules of writes on condition, worked by hand.
use crate::rows::Row;

pub const CONDITIONS: [Row; 20] = [
    // The number after `since` is compared with that of the last write on the graph. Of a graph that was not written that is the number
    // of the start, and of a missing name that of the last Delete of any name.
    (
        "a write is late where its graph was written since",
        "0 open put <http://e/g>\n0 stage <http://e/s> <http://e/p> \"1\" .\n0 commit\n1 open put <http://e/g> since 1\n0 open post <http://e/g>\n0 stage <http://e/s> <http://e/p> \"2\" .\n0 commit\n1 commit\n1 open put <http://e/g> since 2\n1 commit\n0 delete <http://e/g> since 2\n0 delete <http://e/g>\n0 open put <http://e/h> since 3\n0 commit\n0 open put <http://e/h> since 4\n0 commit\n",
        "opened 1\nstaged\n201\nopened 2\nopened 3\nstaged\n204\n412 2\nopened 4\n204\n412 3\n204\nopened 5\n412 4\nopened 6\n201\n",
    ),
    (
        "of two that changed the same version the second is late",
        "0 open put <http://e/g>\n0 stage <http://e/s> <http://e/p> \"1\" .\n0 commit\n1 open put <http://e/g> since 1\n2 open put <http://e/g> since 1\n1 stage <http://e/s> <http://e/p> \"2\" .\n2 stage <http://e/s> <http://e/p> \"1\" .\n2 commit\n1 commit\n3 pin <http://e/g>\n3 piece 9\n1 open put <http://e/g> since 2\n1 stage <http://e/s> <http://e/p> \"2\" .\n1 commit\n3 pin <http://e/g>\n3 piece 9\n",
        "opened 1\nstaged\n201\nopened 2\nopened 3\nstaged\nstaged\n204\n412 2\n200\n<http://e/s> <http://e/p> \"1\" .\nend\nopened 4\nstaged\n204\n200\n<http://e/s> <http://e/p> \"2\" .\nend\n",
    ),
    (
        "a condition on the default graph, which is there without a triple too",
        "0 open put default since 0\n0 stage <http://e/s> <http://e/p> \"1\" .\n0 commit\n0 open put default since 0\n0 commit\n0 open put default since 1\n0 commit\n1 open post default since 1\n1 commit\n0 delete default since 1\n0 delete default since 2\n0 delete default\n0 delete default since 3\n0 open put default since 4\n0 commit\n0 pin default\n0 piece 1\n",
        "opened 1\nstaged\n204\nopened 2\n412 1\nopened 3\n204\nopened 4\n412 2\n412 2\n204\n204\n412 4\nopened 5\n204\n200\nend\n",
    ),
    (
        "a name that never was has the number of the start",
        "0 open put <http://e/g> since 0\n0 commit\n0 open post <http://e/h> since 0\n0 commit\n0 open put <http://e/g> since 0\n0 commit\n0 open post <http://e/h> since 1\n0 commit\n",
        "opened 1\n201\nopened 2\n201\nopened 3\n412 1\nopened 4\n412 2\n",
    ),
    (
        "a store that begins after five commits",
        "store 4 5 0\n0 open put <http://e/g> since 4\n0 commit\n0 open put <http://e/g> since 5\n0 commit\n0 open post default since 4\n0 commit\n0 delete default since 5\n0 delete <http://e/g> since 6\n0 open put <http://e/g> since 7\n0 commit\n0 open put default since 6\n0 commit\n",
        "opened 1\n412 5\nopened 2\n201\nopened 3\n412 5\n204\n204\nopened 4\n412 8\nopened 5\n412 7\n",
    ),
    (
        "a name that was deleted and made again",
        "0 open put <http://e/g>\n0 commit\n0 delete <http://e/g>\n0 open put <http://e/g> since 1\n0 commit\n0 open put <http://e/g> since 2\n0 commit\n0 open put <http://e/g> since 2\n0 commit\n0 delete <http://e/g> since 3\n0 open put <http://e/h> since 3\n0 commit\n0 open put <http://e/g>\n0 commit\n0 delete <http://e/h>\n0 open put <http://e/h> since 4\n0 commit\n",
        "opened 1\n201\n204\nopened 2\n412 2\nopened 3\n201\nopened 4\n412 3\n204\nopened 5\n412 4\nopened 6\n201\n404\nopened 7\n201\n",
    ),
    // Commits: 1 and 2 are on the default graph, 3 and 4 make the two names, and 5 is the Delete.
    (
        "a delete of a name is a write on each name that is missing, and on no other graph",
        "0 open put default since 0\n0 commit\n0 delete default\n0 open put <http://e/g>\n0 commit\n0 open put <http://e/h> since 0\n0 commit\n0 delete <http://e/g>\n0 open put <http://e/g> since 4\n0 commit\n0 open put <http://e/i> since 4\n0 commit\n0 open put <http://e/h> since 4\n0 commit\n0 open put default since 2\n0 commit\n",
        "opened 1\n204\n204\nopened 2\n201\nopened 3\n201\n204\nopened 4\n412 5\nopened 5\n412 5\nopened 6\n204\nopened 7\n204\n",
    ),
    (
        "writes of other graphs make no write late, nor does a new graph",
        "0 open put <http://e/g>\n0 commit\n1 open put <http://e/g> since 1\n0 open put default\n0 stage <http://e/s> <http://e/p> \"1\" .\n0 commit\n0 open new\n0 commit\n1 stage <http://e/s> <http://e/p> \"2\" .\n1 commit\n0 delete default since 2\n0 open post default since 4\n0 commit\n0 open put <http://localhost/graphs/n4-0> since 2\n0 commit\n0 open put <http://localhost/graphs/n4-0> since 3\n0 commit\n",
        "opened 1\n201\nopened 2\nopened 3\nstaged\n204\nopened 4\n201 http://localhost/graphs/n4-0\nstaged\n204\n204\nopened 5\n412 5\nopened 6\n412 3\nopened 7\n204\n",
    ),
    (
        "what is late when it is opened is late at its commit",
        "0 open put <http://e/g>\n0 commit\n1 open put <http://e/g> since 0\n0 delete <http://e/g>\n1 commit\n1 open put <http://e/g> since 1\n0 open put <http://e/g>\n0 commit\n1 commit\n1 open put <http://e/g> since 2\n0 open put <http://e/h>\n0 commit\n1 commit\n",
        "opened 1\n201\nopened 2\n204\n412 2\nopened 3\nopened 4\n201\n412 3\nopened 5\nopened 6\n201\n412 3\n",
    ),
    (
        "a post of nothing makes a graph, and is a write where it changes nothing",
        "0 open post <http://e/g> since 0\n0 commit\n0 open post <http://e/g> since 1\n0 commit\n0 open post <http://e/g> since 1\n0 stage <http://e/s> <http://e/p> \"1\" .\n0 commit\n0 open post <http://e/g> since 2\n0 stage <http://e/s> <http://e/p> \"1\" .\n0 commit\n0 open post <http://e/g> since 3\n0 stage <http://e/s> <http://e/p> \"1\" .\n0 commit\n0 delete <http://e/g> since 3\n0 pin <http://e/g>\n0 piece 9\n",
        "opened 1\n201\nopened 2\n204\nopened 3\nstaged\n412 2\nopened 4\nstaged\n204\nopened 5\nstaged\n204\n412 4\n200\n<http://e/s> <http://e/p> \"1\" .\nend\n",
    ),
    (
        "a delete of a missing name is missing, whatever its condition",
        "0 delete <http://e/g> since 0\n0 open put <http://e/g>\n0 commit\n0 delete <http://e/g> since 0\n0 delete <http://e/g> since 1\n0 delete <http://e/g> since 0\n0 delete <http://e/g> since 2\n0 delete <http://e/g> since 999999999999999999\n",
        "404\nopened 1\n201\n412 1\n204\n404\n404\n404\n",
    ),
    (
        "nothing was written after the greatest number",
        "0 open put <http://e/g> since 999999999999999999\n0 commit\n0 open put default since 999999999999999999\n0 stage <http://e/s> <http://e/p> \"1\" .\n0 commit\n0 open post <http://e/g> since 999999999999999999\n0 commit\n0 delete <http://e/g> since 999999999999999999\n0 delete default since 999999999999999999\n",
        "opened 1\n201\nopened 2\nstaged\n204\nopened 3\n204\n204\n204\n",
    ),
    (
        "a late write is late after the last commit too",
        "store 4 999999999999999999 0\n0 open put default since 1\n0 commit\n0 open put default\n0 commit\n0 cancel\n0 open put default since 999999999999999999\n0 commit\n0 cancel\n0 delete default since 999999999999999998\n0 delete default\n0 open post <http://e/g> since 999999999999999998\n0 commit\n0 delete <http://e/g> since 0\n",
        "opened 1\n412 999999999999999999\nopened 2\nrefused LastNumber\ncancelled\nopened 3\nrefused LastNumber\ncancelled\n412 999999999999999999\nrefused LastNumber\nopened 4\n412 999999999999999999\n404\n",
    ),
    (
        "the last commit makes the writes before it late",
        "store 4 999999999999999998 0\n0 open put <http://e/g> since 999999999999999998\n0 commit\n0 open post <http://e/g> since 999999999999999998\n0 commit\n0 open post <http://e/g> since 999999999999999999\n0 commit\n0 cancel\n0 open put default since 999999999999999998\n0 commit\n",
        "opened 1\n201\nopened 2\n412 999999999999999999\nopened 3\nrefused LastNumber\ncancelled\nopened 4\nrefused LastNumber\n",
    ),
    (
        "a condition takes no number, and an upload that has none left is refused",
        "store 4 0 999999999999999999\n0 open put <http://e/g> since 0\n0 delete default since 0\n0 delete default since 0\n",
        "refused LastNumber\n204\n412 1\n",
    ),
    (
        "a late upload is given up",
        "0 open put default\n0 commit\n0 open put default since 0\n0 stage <http://e/s> <http://e/p> \"1\" .\n0 commit\n0 commit\n0 stage <http://e/s> <http://e/p> \"1\" .\n0 cancel\n0 pin default\n0 piece 1\n0 open put default since 1\n0 commit\n",
        "opened 1\n204\nopened 2\nstaged\n412 1\nrefused WrongPhase\nrefused WrongPhase\nrefused WrongPhase\n200\nend\nopened 3\n204\n",
    ),
    (
        "what a late put staged is waste, with its record",
        "0 open put <http://e/g>\n0 stage <http://e/s> <http://e/p> \"1\" .\n0 commit\n1 open put <http://e/g> since 0\n1 stage <http://e/s> <http://e/p> \"1\" .\n1 stage <http://e/s> <http://e/p> \"2\" .\ncounts\n1 commit\ncounts\nreclaim 9\ncounts\n",
        "opened 1\nstaged\n201\nopened 2\nstaged\nstaged\nnodes 5 triples 1\n412 1\nnodes 5 triples 1\nreclaimed 3 done\nnodes 2 triples 1\n",
    ),
    (
        "what a late post staged is waste, with its record, and a late delete takes nothing",
        "0 open put <http://e/g>\n0 stage <http://e/s> <http://e/p> \"1\" .\n0 commit\n2 pin <http://e/g>\n1 open post <http://e/g> since 0\n1 stage <http://e/s> <http://e/p> \"1\" .\n1 stage <http://e/s> <http://e/p> \"2\" .\n1 commit\n1 delete <http://e/g> since 0\ncounts\nreclaim 2\nreclaim 2\ncounts\n2 piece 9\n",
        "opened 1\nstaged\n201\n200\nopened 2\nstaged\nstaged\n412 1\n412 1\nnodes 5 triples 1\nreclaimed 2 more\nreclaimed 1 done\nnodes 2 triples 1\n<http://e/s> <http://e/p> \"1\" .\nend\n",
    ),
    (
        "a condition ends with its upload",
        "0 open put <http://e/g>\n0 commit\n0 open put <http://e/g> since 0\n0 cancel\n0 open put <http://e/g>\n0 commit\n0 open put <http://e/g> since 1\n0 commit\n0 open put <http://e/g>\n0 commit\n",
        "opened 1\n201\nopened 2\ncancelled\nopened 3\n204\nopened 4\n412 2\nopened 5\n204\n",
    ),
    (
        "conditions at a seat that is busy, or absent",
        "0 open put <http://e/g> since 0\n0 open put <http://e/g> since 0\n0 delete <http://e/g> since 0\n0 open patch <http://e/g> since 0\n4 open post default since 0\n4 delete default since 0\n4 open patch default since 0\n0 commit\n",
        "opened 1\nrefused WrongPhase\nrefused WrongPhase\nrefused WrongPhase\nrefused BadSeat\nrefused BadSeat\nrefused BadSeat\n201\n",
    ),
];
