//! Schedules, worked by hand.

/// A worked schedule: its name, its lines and what they print.
pub type Row = (&'static str, &'static str, &'static str);

pub const ROWS: [Row; 33] = [
    ("an empty input", "", ""),
    (
        "a missing graph and the default graph",
        "0 pin <http://e/g>\n0 pin default\n0 piece 1\n",
        "404\n200\nend\n",
    ),
    (
        "a graph is put, read and put again",
        "0 open put <http://e/g>\n0 stage <http://e/s> <http://e/p> \"2\" .\n0 stage <http://e/s> <http://e/p> \"1\" .\n0 commit\n0 pin <http://e/g>\n0 piece 5\n0 open put <http://e/g>\n0 commit\n0 pin <http://e/g>\n0 piece 5\n",
        "opened 1\nstaged\nstaged\n201\n200\n<http://e/s> <http://e/p> \"1\" .\n<http://e/s> <http://e/p> \"2\" .\nend\nopened 2\n204\n200\nend\n",
    ),
    (
        "an upload shows nothing before its commit",
        "0 open put default\n0 stage <http://e/s> <http://e/p> \"1\" .\n1 pin default\n1 piece 9\n0 stage <http://e/s> <http://e/p> \"2\" .\n0 commit\n1 pin default\n1 piece 9\n",
        "opened 1\nstaged\n200\nend\nstaged\n204\n200\n<http://e/s> <http://e/p> \"1\" .\n<http://e/s> <http://e/p> \"2\" .\nend\n",
    ),
    (
        "a read keeps its lines while the graph is put again",
        "0 open put <http://e/g>\n0 stage <http://e/s> <http://e/p> \"1\" .\n0 stage <http://e/s> <http://e/p> \"2\" .\n0 commit\n1 pin <http://e/g>\n1 piece 1\n0 open put <http://e/g>\n0 commit\n1 piece 1\n1 pin <http://e/g>\n1 piece 1\nreclaim 7\ncounts\n",
        "opened 1\nstaged\nstaged\n201\n200\n<http://e/s> <http://e/p> \"1\" .\nmore\nopened 2\n204\n<http://e/s> <http://e/p> \"2\" .\nend\n200\nend\nreclaimed 3 done\nnodes 1 triples 0\n",
    ),
    (
        "senseless events are refused and change nothing",
        "0 open put <http://e/g>\n0 stage <http://e/s> <http://e/p> \"1\" .\n0 pin default\n0 commit\n1 pin <http://e/g>\n1 piece 0\n1 piece 3\n1 piece 3\n0 cancel\n9 cancel\n",
        "opened 1\nstaged\nrefused WrongPhase\n201\n200\nrefused WrongPhase\n<http://e/s> <http://e/p> \"1\" .\nend\nrefused WrongPhase\nrefused WrongPhase\nrefused BadSeat\n",
    ),
    (
        "a cancelled upload leaves no change and keeps its number",
        "0 open put default\n0 stage <http://e/s> <http://e/p> \"1\" .\n0 cancel\n1 pin default\n1 piece 1\n0 open put default\n0 commit\ncounts\n",
        "opened 1\nstaged\ncancelled\n200\nend\nopened 2\n204\nnodes 3 triples 0\n",
    ),
    (
        "three versions of four triples",
        "0 open put <http://e/g>\n0 stage <http://e/s> <http://e/p> \"1\" .\n0 stage <http://e/s> <http://e/p> \"2\" .\n0 stage <http://e/s> <http://e/p> \"3\" .\n0 stage <http://e/s> <http://e/p> \"4\" .\n0 commit\n0 open put <http://e/g>\n0 stage <http://e/s> <http://e/p> \"1\" .\n0 stage <http://e/s> <http://e/p> \"2\" .\n0 stage <http://e/s> <http://e/p> \"3\" .\n0 stage <http://e/s> <http://e/p> \"4\" .\n0 commit\n0 open put <http://e/g>\n0 stage <http://e/s> <http://e/p> \"1\" .\n0 stage <http://e/s> <http://e/p> \"2\" .\n0 stage <http://e/s> <http://e/p> \"3\" .\n0 stage <http://e/s> <http://e/p> \"4\" .\n0 commit\ncounts\nreclaim 5\nreclaim 5\ncounts\n",
        "opened 1\nstaged\nstaged\nstaged\nstaged\n201\nopened 2\nstaged\nstaged\nstaged\nstaged\n204\nopened 3\nstaged\nstaged\nstaged\nstaged\n204\nnodes 15 triples 4\nreclaimed 5 more\nreclaimed 5 done\nnodes 5 triples 4\n",
    ),
    (
        "the last numbers are given out",
        "store 4 999999999999999999 999999999999999998\n0 open put default\n0 commit\n0 cancel\n0 open put default\n0 pin default\n0 piece 1\n",
        "opened 999999999999999999\nrefused LastNumber\ncancelled\nrefused LastNumber\n200\nend\n",
    ),
    (
        "a deleted graph is still read by those who pinned it",
        "0 open post <http://e/g>\n0 stage <http://e/s> <http://e/p> \"1\" .\n0 stage <http://e/s> <http://e/p> \"2\" .\n0 stage <http://e/s> <http://e/p> \"3\" .\n0 commit\n1 pin <http://e/g>\n1 piece 1\n0 delete <http://e/g>\n1 piece 1\n1 piece 1\n1 pin <http://e/g>\n0 delete <http://e/g>\n",
        "opened 1\nstaged\nstaged\nstaged\n201\n200\n<http://e/s> <http://e/p> \"1\" .\nmore\n204\n<http://e/s> <http://e/p> \"2\" .\nmore\n<http://e/s> <http://e/p> \"3\" .\nend\n404\n404\n",
    ),
    (
        "an ended read and an absent seat",
        "0 open post <http://e/g>\n0 stage <http://e/s> <http://e/p> \"1\" .\n0 stage <http://e/s> <http://e/p> \"2\" .\n0 stage <http://e/s> <http://e/p> \"3\" .\n0 commit\n1 pin <http://e/g>\n1 piece 3\n1 piece 3\n0 cancel\n9 cancel\n",
        "opened 1\nstaged\nstaged\nstaged\n201\n200\n<http://e/s> <http://e/p> \"1\" .\n<http://e/s> <http://e/p> \"2\" .\n<http://e/s> <http://e/p> \"3\" .\nend\nrefused WrongPhase\nrefused WrongPhase\nrefused BadSeat\n",
    ),
    (
        "an open upload counts, and a replaced graph does not",
        "0 open put <http://e/g>\n0 stage <http://e/s> <http://e/p> \"1\" .\n0 stage <http://e/s> <http://e/p> \"2\" .\n0 commit\n1 pin <http://e/g>\n0 open put <http://e/g>\n0 stage <http://e/s> <http://e/p> \"3\" .\n0 commit\nreclaim 1000\n2 open post default\n2 stage <http://e/s> <http://e/p> \"4\" .\n2 stage <http://e/s> <http://e/p> \"5\" .\n1 piece 1\n1 piece 9\ncounts\nreclaim 1000\ncounts\n",
        "opened 1\nstaged\nstaged\n201\n200\nopened 2\nstaged\n204\nreclaimed 0 more\nopened 3\nstaged\nstaged\n<http://e/s> <http://e/p> \"1\" .\nmore\n<http://e/s> <http://e/p> \"2\" .\nend\nnodes 8 triples 1\nreclaimed 3 done\nnodes 5 triples 1\n",
    ),
    (
        "a new graph gets a name of its request",
        "0 open put default\n0 stage <http://e/s> <http://e/p> \"1\" .\n0 cancel\n0 open new\n0 commit\n",
        "opened 1\nstaged\ncancelled\nopened 2\n201 http://localhost/graphs/n2-0\n",
    ),
    (
        "a new graph gets the least name that is free",
        "0 open put <http://localhost/graphs/n2-0>\n0 commit\n0 open new\n0 commit\n",
        "opened 1\n201\nopened 2\n201 http://localhost/graphs/n2-1\n",
    ),
    (
        "no write is taken after the last commit, and a missing graph is missing",
        "store 4 999999999999999999 0\n0 open put default\n0 commit\n0 cancel\n0 pin default\n0 piece 1\n0 delete <http://e/g>\n",
        "opened 1\nrefused LastNumber\ncancelled\n200\nend\n404\n",
    ),
    (
        "a post that has no commit number leaves its upload open",
        "store 4 999999999999999999 0\n0 open post default\n0 stage <http://e/s> <http://e/p> \"1\" .\n0 commit\ncounts\n0 stage <http://e/s> <http://e/p> \"1\" .\ncounts\n0 cancel\nreclaim 9\ncounts\n",
        "opened 1\nstaged\nrefused LastNumber\nnodes 2 triples 0\nstaged\nnodes 2 triples 0\ncancelled\nreclaimed 2 done\nnodes 0 triples 0\n",
    ),
    (
        "no upload is opened after the last request",
        "store 4 0 999999999999999999\n0 open put <http://e/g>\n0 delete <http://e/g>\n",
        "refused LastNumber\n404\n",
    ),
    (
        "a post adds, also to a graph that it makes",
        "0 head <http://e/g>\n0 open post <http://e/g>\n0 commit\n0 head <http://e/g>\n0 open post <http://e/g>\n0 stage <http://e/s> <http://e/p> \"2\" .\n0 commit\n0 open post <http://e/g>\n0 stage <http://e/s> <http://e/p> \"1\" .\n0 stage <http://e/s> <http://e/p> \"2\" .\n0 commit\n0 pin <http://e/g>\n0 piece 9\ncounts\n",
        "404\nopened 1\n201\n200\nopened 2\nstaged\n204\nopened 3\nstaged\nstaged\n204\n200\n<http://e/s> <http://e/p> \"1\" .\n<http://e/s> <http://e/p> \"2\" .\nend\nnodes 6 triples 2\n",
    ),
    (
        "a deleted default graph is empty and still there",
        "0 open put default\n0 stage <http://e/s> <http://e/p> \"1\" .\n0 commit\n1 pin default\n0 delete default\n0 head default\n0 pin default\n0 piece 1\n1 piece 1\n0 delete default\ncounts\n",
        "opened 1\nstaged\n204\n200\n204\n200\n200\nend\n<http://e/s> <http://e/p> \"1\" .\nend\n204\nnodes 2 triples 0\n",
    ),
    (
        "a graph is deleted under a read, and another gets a new name",
        "0 open post <http://e/g>\n0 stage <http://e/s> <http://e/p> \"1\" .\n0 commit\n1 pin <http://e/g>\n0 delete <http://e/g>\n1 piece 9\n1 pin <http://e/g>\n0 delete <http://e/g>\n0 open new\n0 commit\n",
        "opened 1\nstaged\n201\n200\n204\n<http://e/s> <http://e/p> \"1\" .\nend\n404\n404\nopened 2\n201 http://localhost/graphs/n2-0\n",
    ),
    (
        "each of two reads keeps its own version",
        "0 open put <http://e/g>\n0 stage <http://e/s> <http://e/p> \"1\" .\n0 commit\n1 pin <http://e/g>\n0 open put <http://e/g>\n0 stage <http://e/s> <http://e/p> \"2\" .\n0 commit\n2 pin <http://e/g>\n0 open put <http://e/g>\n0 stage <http://e/s> <http://e/p> \"3\" .\n0 commit\nreclaim 1000\n1 piece 9\n2 piece 9\nreclaim 1000\ncounts\n",
        "opened 1\nstaged\n201\n200\nopened 2\nstaged\n204\n200\nopened 3\nstaged\n204\nreclaimed 0 more\n<http://e/s> <http://e/p> \"1\" .\nend\n<http://e/s> <http://e/p> \"2\" .\nend\nreclaimed 4 done\nnodes 2 triples 1\n",
    ),
    (
        "what no read needs goes, also while an older version is read",
        "0 open put <http://e/g>\n0 stage <http://e/s> <http://e/p> \"1\" .\n0 commit\n1 pin <http://e/g>\n0 open put <http://e/g>\n0 stage <http://e/s> <http://e/p> \"2\" .\n0 commit\n0 open put <http://e/g>\n0 stage <http://e/s> <http://e/p> \"3\" .\n0 commit\nreclaim 1000\n1 piece 9\ncounts\n",
        "opened 1\nstaged\n201\n200\nopened 2\nstaged\n204\nopened 3\nstaged\n204\nreclaimed 2 more\n<http://e/s> <http://e/p> \"1\" .\nend\nnodes 4 triples 1\n",
    ),
    // A node is kept for a read from its birth on, whether or not the read has it. It is born at the commit that comes next when it is
    // staged, and a copy at the commit that makes it: in these four rows a read of the default graph has the version before that. A record
    // is born at the commit of its write. So two records go with the nodes: that of the version before the last, and that of the PUT of the
    // default graph, which did not use it.
    (
        "what is staged after another commit is not needed before it",
        "0 open put <http://e/g>\n1 open put default\n1 commit\n1 pin default\n0 stage <http://e/s> <http://e/p> \"1\" .\n0 commit\n0 open put <http://e/g>\n0 commit\nreclaim 9\n",
        "opened 1\nopened 2\n204\n200\nstaged\n201\nopened 3\n204\nreclaimed 3 done\n",
    ),
    // The second is at the top, with the first and the third on its sides. The fourth goes below the third after another commit: these
    // two, and the second, are born again, and the first is not.
    (
        "what a later stage passes through is not needed from before",
        "0 open put <http://e/g>\n0 stage <http://e/s> <http://e/p> \"2\" .\n0 stage <http://e/s> <http://e/p> \"1\" .\n0 stage <http://e/s> <http://e/p> \"3\" .\n1 open put default\n1 commit\n1 pin default\n0 stage <http://e/s> <http://e/p> \"4\" .\n0 commit\n0 open put <http://e/g>\n0 commit\nreclaim 9\n",
        "opened 1\nstaged\nstaged\nstaged\nopened 2\n204\n200\nstaged\n201\nopened 3\n204\nreclaimed 5 more\n",
    ),
    (
        "what a post copies is not needed before its commit",
        "0 open put <http://e/g>\n0 stage <http://e/s> <http://e/p> \"1\" .\n0 commit\n1 open put default\n1 commit\n1 pin default\n0 open post <http://e/g>\n0 stage <http://e/s> <http://e/p> \"2\" .\n0 commit\n0 open put <http://e/g>\n0 commit\nreclaim 9\n",
        "opened 1\nstaged\n201\nopened 2\n204\n200\nopened 3\nstaged\n204\nopened 4\n204\nreclaimed 4 more\n",
    ),
    // The second is at the top, with the first and the third on its sides, and the fourth goes below the third: the second and the
    // third are copied, and the first is not.
    (
        "what a post shares is needed from before, and what it copies below the top is not",
        "0 open put <http://e/g>\n0 stage <http://e/s> <http://e/p> \"2\" .\n0 stage <http://e/s> <http://e/p> \"1\" .\n0 stage <http://e/s> <http://e/p> \"3\" .\n0 commit\n1 open put default\n1 commit\n1 pin default\n0 open post <http://e/g>\n0 stage <http://e/s> <http://e/p> \"4\" .\n0 commit\n0 open put <http://e/g>\n0 commit\nreclaim 9\n",
        "opened 1\nstaged\nstaged\nstaged\n201\nopened 2\n204\n200\nopened 3\nstaged\n204\nopened 4\n204\nreclaimed 5 more\n",
    ),
    // The tree of the four has the second at its top, with the first on one side and the third, above the fourth, on the other. The
    // fifth goes below the fourth: the three on its way are copied. The upload's one node was given back before. The record of the four
    // goes with them.
    (
        "what a post replaced is given back",
        "0 open put <http://e/g>\n0 stage <http://e/s> <http://e/p> \"1\" .\n0 stage <http://e/s> <http://e/p> \"2\" .\n0 stage <http://e/s> <http://e/p> \"3\" .\n0 stage <http://e/s> <http://e/p> \"4\" .\n0 commit\n0 open post <http://e/g>\n0 stage <http://e/s> <http://e/p> \"5\" .\n0 commit\ncounts\nreclaim 1000\ncounts\n",
        "opened 1\nstaged\nstaged\nstaged\nstaged\n201\nopened 2\nstaged\n204\nnodes 10 triples 5\nreclaimed 4 done\nnodes 6 triples 5\n",
    ),
    // What is counted besides nodes are records of versions of graphs. An Open takes one. A write that takes effect uses it, unless its
    // target is the default graph and that has no triple after it.
    (
        "each upload that is opened takes a record, and a cancel leaves it",
        "counts\n0 open put <http://e/g>\ncounts\n0 open put <http://e/g>\n1 open new\ncounts\n2 open post default\ncounts\n0 cancel\n1 cancel\n2 cancel\ncounts\nreclaim 2\nreclaim 2\ncounts\n",
        "nodes 0 triples 0\nopened 1\nnodes 1 triples 0\nrefused WrongPhase\nopened 2\nnodes 2 triples 0\nopened 3\nnodes 3 triples 0\ncancelled\ncancelled\ncancelled\nnodes 3 triples 0\nreclaimed 2 more\nreclaimed 1 done\nnodes 0 triples 0\n",
    ),
    (
        "an empty default graph has no record, and the one of its upload is waste",
        "0 open put default\n0 commit\ncounts\nreclaim 9\ncounts\n0 open put default\n0 stage <http://e/s> <http://e/p> \"1\" .\n0 commit\ncounts\n0 open put default\n0 commit\ncounts\nreclaim 9\ncounts\n0 delete default\ncounts\n",
        "opened 1\n204\nnodes 1 triples 0\nreclaimed 1 done\nnodes 0 triples 0\nopened 2\nstaged\n204\nnodes 2 triples 1\nopened 3\n204\nnodes 3 triples 0\nreclaimed 3 done\nnodes 0 triples 0\n204\nnodes 0 triples 0\n",
    ),
    (
        "an empty graph with a name has a record, which a read keeps when it is deleted",
        "0 open new\n0 commit\ncounts\n1 pin <http://localhost/graphs/n1-0>\n0 delete <http://localhost/graphs/n1-0>\ncounts\nreclaim 9\n1 piece 1\nreclaim 9\ncounts\n",
        "opened 1\n201 http://localhost/graphs/n1-0\nnodes 1 triples 0\n200\n204\nnodes 1 triples 0\nreclaimed 0 more\nend\nreclaimed 1 done\nnodes 0 triples 0\n",
    ),
    // The record of what is read is born by the first commit, at which the read is pinned, and ended by the third. Were it born by the
    // second, no pin would need it.
    (
        "a record is born by the commit of its write, so a read from then on keeps it",
        "0 open put <http://e/g>\n0 stage <http://e/s> <http://e/p> \"1\" .\n0 commit\n1 pin <http://e/g>\n0 open put <http://e/h>\n0 commit\n0 open put <http://e/g>\n0 commit\nreclaim 9\n1 piece 9\nreclaim 9\ncounts\n",
        "opened 1\nstaged\n201\n200\nopened 2\n201\nopened 3\n204\nreclaimed 0 more\n<http://e/s> <http://e/p> \"1\" .\nend\nreclaimed 2 done\nnodes 2 triples 0\n",
    ),
    (
        "a reclaim of one frees a node or a record",
        "0 open put default\n0 stage <http://e/s> <http://e/p> \"1\" .\n0 cancel\ncounts\nreclaim 1\ncounts\nreclaim 1\ncounts\nreclaim 1\n",
        "opened 1\nstaged\ncancelled\nnodes 2 triples 0\nreclaimed 1 more\nnodes 1 triples 0\nreclaimed 1 done\nnodes 0 triples 0\nreclaimed 0 done\n",
    ),
    (
        "a post that brings nothing ends the record of the version before, which a read keeps",
        "0 open put <http://e/g>\n0 stage <http://e/s> <http://e/p> \"1\" .\n0 commit\n1 pin <http://e/g>\n0 open post <http://e/g>\n0 stage <http://e/s> <http://e/p> \"1\" .\ncounts\n0 commit\ncounts\nreclaim 9\n1 piece 9\nreclaim 9\ncounts\n",
        "opened 1\nstaged\n201\n200\nopened 2\nstaged\nnodes 4 triples 1\n204\nnodes 3 triples 1\nreclaimed 0 more\n<http://e/s> <http://e/p> \"1\" .\nend\nreclaimed 1 done\nnodes 2 triples 1\n",
    ),
];
