//! Schedules that ask for all graphs, or read them, worked by hand.
use crate::rows::Row;

pub const DATASETS: [Row; 10] = [
    // A read of all graphs has the lines of the default graph, and then those of each graph with a name, with that before each dot.
    (
        "a read of all graphs keeps one that is deleted under it",
        "0 open put default\n0 stage <http://e/s> <http://e/p> \"1\" .\n0 commit\n0 open put <http://e/g>\n0 stage <http://e/s> <http://e/p> \"2\" .\n0 commit\n0 open put <http://e/h>\n0 commit\n0 pin all\n0 piece 1\n1 delete <http://e/g>\nreclaim 1000\n0 piece 9\n0 head all\n",
        "opened 1\nstaged\n204\nopened 2\nstaged\n201\nopened 3\n201\n200\n<http://e/s> <http://e/p> \"1\" .\nmore\n204\nreclaimed 0 more\n<http://e/s> <http://e/p> \"2\" <http://e/g> .\nend\n200\n",
    ),
    // After the `g` of these names stand a slash, the bracket that closes, a question mark and an `a`: this is the order of their bytes.
    (
        "all graphs stand in the order of their names in brackets",
        "0 open put <http://e/g?>\n0 stage <http://e/s> <http://e/p> \"2\" .\n0 commit\n0 open put <http://e/ga>\n0 stage <http://e/s> <http://e/p> \"1\" .\n0 commit\n0 open put <http://e/g>\n0 stage <http://e/s> <http://e/p> \"3\" .\n0 commit\n0 open put <http://e/g/1>\n0 stage <http://e/s> <http://e/p> \"4\" .\n0 commit\n0 pin all\n0 piece 9\n",
        "opened 1\nstaged\n201\nopened 2\nstaged\n201\nopened 3\nstaged\n201\nopened 4\nstaged\n201\n200\n<http://e/s> <http://e/p> \"4\" <http://e/g/1> .\n<http://e/s> <http://e/p> \"3\" <http://e/g> .\n<http://e/s> <http://e/p> \"2\" <http://e/g?> .\n<http://e/s> <http://e/p> \"1\" <http://e/ga> .\nend\n",
    ),
    (
        "an empty dataset is there, and has no line",
        "0 pin all\n0 piece 1\n0 head all\ncounts\n",
        "200\nend\n200\nnodes 0 triples 0\n",
    ),
    (
        "an empty graph has no line, and a read of all graphs ends with their last line",
        "0 open put <http://e/a>\n0 commit\n0 open put <http://e/b>\n0 stage <http://e/s> <http://e/p> \"1\" .\n0 commit\n0 open put <http://e/c>\n0 commit\n0 open put <http://e/d>\n0 stage <http://e/s> <http://e/p> \"1\" .\n0 commit\n0 open put <http://e/f>\n0 commit\n0 pin all\n0 piece 1\n0 piece 1\n0 delete <http://e/b>\n0 delete <http://e/d>\n0 pin all\n0 piece 1\n",
        "opened 1\n201\nopened 2\nstaged\n201\nopened 3\n201\nopened 4\nstaged\n201\nopened 5\n201\n200\n<http://e/s> <http://e/p> \"1\" <http://e/b> .\nmore\n<http://e/s> <http://e/p> \"1\" <http://e/d> .\nend\n204\n204\n200\nend\n",
    ),
    // The fourth triple and its record were made and ended after the pin: they go first. The second and the third, with the record of the
    // version that is read, go once the read has ended.
    (
        "a read of all graphs keeps one that is put again, deleted and made anew",
        "0 open put <http://e/g>\n0 stage <http://e/s> <http://e/p> \"2\" .\n0 stage <http://e/s> <http://e/p> \"3\" .\n0 commit\n0 open put default\n0 stage <http://e/s> <http://e/p> \"1\" .\n0 commit\n1 pin all\n0 open put <http://e/g>\n0 stage <http://e/s> <http://e/p> \"4\" .\n0 commit\n1 piece 1\n0 delete <http://e/g>\n1 piece 1\n0 open put <http://e/g>\n0 stage <http://e/s> <http://e/p> \"5\" .\n0 commit\nreclaim 1000\n1 piece 1\nreclaim 1000\ncounts\n",
        "opened 1\nstaged\nstaged\n201\nopened 2\nstaged\n204\n200\nopened 3\nstaged\n204\n<http://e/s> <http://e/p> \"1\" .\nmore\n204\n<http://e/s> <http://e/p> \"2\" <http://e/g> .\nmore\nopened 4\nstaged\n201\nreclaimed 2 more\n<http://e/s> <http://e/p> \"3\" <http://e/g> .\nend\nreclaimed 3 done\nnodes 4 triples 2\n",
    ),
    (
        "what comes after the pin is not in a read of all graphs",
        "0 open put <http://e/b>\n0 stage <http://e/s> <http://e/p> \"1\" .\n0 commit\n1 pin all\n0 open put <http://e/a>\n0 stage <http://e/s> <http://e/p> \"2\" .\n0 commit\n0 open put default\n0 stage <http://e/s> <http://e/p> \"3\" .\n0 commit\n1 piece 1\n1 pin all\n1 piece 2\n0 delete default\n0 open put <http://e/c>\n0 stage <http://e/s> <http://e/p> \"4\" .\n0 commit\n1 piece 2\n",
        "opened 1\nstaged\n201\n200\nopened 2\nstaged\n201\nopened 3\nstaged\n204\n<http://e/s> <http://e/p> \"1\" <http://e/b> .\nend\n200\n<http://e/s> <http://e/p> \"3\" .\n<http://e/s> <http://e/p> \"2\" <http://e/a> .\nmore\n204\nopened 4\nstaged\n201\n<http://e/s> <http://e/p> \"1\" <http://e/b> .\nend\n",
    ),
    (
        "each of two reads of all graphs keeps its own version",
        "0 open put <http://e/g>\n0 stage <http://e/s> <http://e/p> \"1\" .\n0 commit\n1 pin all\n0 open put <http://e/g>\n0 stage <http://e/s> <http://e/p> \"2\" .\n0 commit\n2 pin all\n0 open put default\n0 stage <http://e/s> <http://e/p> \"3\" .\n0 commit\n0 delete <http://e/g>\nreclaim 1000\n1 piece 9\nreclaim 1000\n2 piece 9\nreclaim 1000\ncounts\n",
        "opened 1\nstaged\n201\n200\nopened 2\nstaged\n204\n200\nopened 3\nstaged\n204\n204\nreclaimed 0 more\n<http://e/s> <http://e/p> \"1\" <http://e/g> .\nend\nreclaimed 2 more\n<http://e/s> <http://e/p> \"2\" <http://e/g> .\nend\nreclaimed 2 done\nnodes 2 triples 1\n",
    ),
    (
        "a read of all graphs that is given up keeps nothing",
        "0 open put <http://e/g>\n0 stage <http://e/s> <http://e/p> \"1\" .\n0 commit\n1 pin all\n0 delete <http://e/g>\nreclaim 9\n1 cancel\nreclaim 9\ncounts\n",
        "opened 1\nstaged\n201\n200\n204\nreclaimed 0 more\ncancelled\nreclaimed 2 done\nnodes 0 triples 0\n",
    ),
    (
        "all graphs are asked for and read at an idle seat alone",
        "0 open put default\n0 stage <http://e/s> <http://e/p> \"1\" .\n0 pin all\n0 head all\n0 commit\n0 pin all\n0 pin all\n0 head all\n0 pin default\n0 piece 0\n0 piece 1\n0 piece 1\n4 pin all\n4 head all\n",
        "opened 1\nstaged\nrefused WrongPhase\nrefused WrongPhase\n204\n200\nrefused WrongPhase\nrefused WrongPhase\nrefused WrongPhase\nrefused WrongPhase\n<http://e/s> <http://e/p> \"1\" .\nend\nrefused WrongPhase\nrefused BadSeat\nrefused BadSeat\n",
    ),
    (
        "a read of all graphs takes no number",
        "store 4 0 999999999999999999\n0 open put default\n0 head all\n0 pin all\n0 piece 1\n",
        "refused LastNumber\n200\n200\nend\n",
    ),
];
