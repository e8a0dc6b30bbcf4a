//! Schedules of patches, worked by hand.
use crate::rows::Row;

pub const PATCHES: [Row; 32] = [
    (
        "an operation takes effect on what the ones before it left",
        "0 open patch default\n0 patch INSERT DATA { _:x <http://e/p> 1 } ; DELETE WHERE { ?s <http://e/p> 1 } ; INSERT DATA { <http://e/a> a 01 }\n0 pin default\n0 piece 9\n",
        "opened 1\n204\n200\n<http://e/a> <http://www.w3.org/1999/02/22-rdf-syntax-ns#type> \"01\"^^<http://www.w3.org/2001/XMLSchema#integer> .\nend\n",
    ),
    (
        "patterns take out all their instances together",
        "0 open put default\n0 stage <http://e/1> <http://e/p> <http://e/2> .\n0 stage <http://e/2> <http://e/q> \"z\" .\n0 stage <http://e/3> <http://e/p> <http://e/4> .\n0 stage <http://e/5> <http://e/q> \"y\" .\n0 commit\n0 open patch default\n0 patch DELETE WHERE { ?s <http://e/p> ?o . ?o <http://e/q> ?z }\n0 pin default\n0 piece 9\n0 open patch default\n0 patch CLEAR ALL\n0 open patch default\n0 patch DELETE DATA { _:x <http://e/p> 1 }\n0 open patch <http://e/g>\n0 patch\n",
        "opened 1\nstaged\nstaged\nstaged\nstaged\n204\nopened 2\n204\n200\n<http://e/3> <http://e/p> <http://e/4> .\n<http://e/5> <http://e/q> \"y\" .\nend\nopened 3\nfault 422\nopened 4\nfault 400\nopened 5\n404\n",
    ),
    (
        "texts with a fault, and a collection that stands alone",
        "0 open patch default\n0 patch DELETE WHERE { }\n0 open patch default\n0 patch INSERT DATA { GRAPH <http://e/g> { } }\n0 open patch default\n0 patch INSERT DATA { <http://e/a> a _:x } ; INSERT DATA { _:x a 1 }\n0 open patch default\n0 patch DELETE DATA { ?s a 1 }\n0 open patch default\n0 patch INSERT DATA { ( 1 2 ) }\n0 open patch default\n0 patch INSERT DATA { ( ) }\ncounts\n",
        "opened 1\nfault 422\nopened 2\nfault 422\nopened 3\nfault 400\nopened 4\nfault 400\nopened 5\n204\nopened 6\nfault 400\nnodes 10 triples 4\n",
    ),
    (
        "a patch on a seat that has none",
        "0 patch\n4 patch\n65535 patch CLEAR ALL\n0 open put default\n0 patch INSERT DATA { <http://e/a> a 1 }\n0 commit\n0 pin default\n0 patch\n0 piece 1\n0 patch\n0 pin default\n0 piece 1\n",
        "refused WrongPhase\nrefused BadSeat\nrefused BadSeat\nopened 1\nrefused WrongPhase\n204\n200\nrefused WrongPhase\nend\nrefused WrongPhase\n200\nend\n",
    ),
    (
        "an update without an operation",
        "0 open patch default\n0 patch\n0 open patch default\n0 patch \n0 open patch default\n0 patch  \n0 open patch default\n0 patch PREFIX e: <http://e/> BASE <x> # no more\n0 pin default\n0 piece 1\ncounts\n",
        "opened 1\n204\nopened 2\n204\nopened 3\n204\nopened 4\n204\n200\nend\nnodes 4 triples 0\n",
    ),
    (
        "a patch of a missing graph makes none, and one that is made after the opening is patched",
        "0 open patch <http://e/g>\n0 patch INSERT DATA { <http://e/s> <http://e/p> \"1\" }\n0 head <http://e/g>\n0 patch\n0 open patch <http://e/g>\n0 patch CLEAR ALL\n0 open patch <http://e/g>\n1 open put <http://e/g>\n1 commit\n0 patch INSERT DATA { <a> <http://e/p> \"1\" }\n0 pin <http://e/g>\n0 piece 9\n",
        "opened 1\n404\n404\nrefused WrongPhase\nopened 2\nfault 422\nopened 3\nopened 4\n201\n204\n200\n<http://e/a> <http://e/p> \"1\" .\nend\n",
    ),
    (
        "a graph that is deleted after the opening is missing",
        "0 open put <http://e/g>\n0 commit\n0 open patch <http://e/g>\n1 delete <http://e/g>\n0 patch\n0 head <http://e/g>\n",
        "opened 1\n201\nopened 2\n204\n404\n404\n",
    ),
    (
        "the default graph has the base of the store",
        "0 open patch default\n0 patch INSERT DATA { <x> <#p> <../y> }\n0 pin default\n0 piece 9\n",
        "opened 1\n204\n200\n<http://localhost/x> <http://localhost/store#p> <http://localhost/y> .\nend\n",
    ),
    (
        "each seat's text is read under its own graph's name",
        "0 open put <http://e/f/g>\n0 commit\n0 open put <http://d/h>\n0 commit\n0 open patch <http://e/f/g>\n1 open patch <http://d/h>\n1 patch INSERT DATA { <i> <j> \"1\" }\n0 patch INSERT DATA { <i> <j> \"1\" }\n2 pin <http://e/f/g>\n2 piece 9\n2 pin <http://d/h>\n2 piece 9\n",
        "opened 1\n201\nopened 2\n201\nopened 3\nopened 4\n204\n204\n200\n<http://e/f/i> <http://e/f/j> \"1\" .\nend\n200\n<http://d/i> <http://d/j> \"1\" .\nend\n",
    ),
    (
        "blank nodes have the number of their patch's request",
        "0 open new\n0 commit\n0 open patch <http://localhost/graphs/n1-0>\n1 open put default\n0 patch INSERT DATA { _:x <http://e/p> _:y . [] <http://e/p> _:x }\n0 pin <http://localhost/graphs/n1-0>\n0 piece 9\n",
        "opened 1\n201 http://localhost/graphs/n1-0\nopened 2\nopened 3\n204\n200\n_:b2_1 <http://e/p> _:b2_2 .\n_:b2_3 <http://e/p> _:b2_1 .\nend\n",
    ),
    (
        "a cancelled patch leaves no change and keeps its number",
        "0 open patch default\n0 cancel\n0 patch\n0 open patch default\n0 patch INSERT DATA { <http://e/s> <http://e/p> \"1\" }\n0 pin default\n0 piece 9\n",
        "opened 1\ncancelled\nrefused WrongPhase\nopened 2\n204\n200\n<http://e/s> <http://e/p> \"1\" .\nend\n",
    ),
    (
        "a read keeps its lines while the graph is patched",
        "0 open put default\n0 stage <http://e/s> <http://e/p> \"1\" .\n0 stage <http://e/s> <http://e/p> \"2\" .\n0 commit\n1 pin default\n1 piece 1\n0 open patch default\n0 patch DELETE DATA { <http://e/s> <http://e/p> \"1\" , \"2\" } ; INSERT DATA { <http://e/s> <http://e/p> \"3\" }\n1 piece 1\n1 pin default\n1 piece 9\n",
        "opened 1\nstaged\nstaged\n204\n200\n<http://e/s> <http://e/p> \"1\" .\nmore\nopened 2\n204\n<http://e/s> <http://e/p> \"2\" .\nend\n200\n<http://e/s> <http://e/p> \"3\" .\nend\n",
    ),
    (
        "a read of all graphs keeps its lines while one of them is patched",
        "0 open put <http://e/g>\n0 stage <http://e/s> <http://e/p> \"1\" .\n0 stage <http://e/s> <http://e/p> \"2\" .\n0 commit\n1 pin all\n1 piece 1\n0 open patch <http://e/g>\n0 patch DELETE DATA { <http://e/s> <http://e/p> \"1\" , \"2\" } ; INSERT DATA { <http://e/s> <http://e/p> \"3\" }\n0 open patch default\n0 patch INSERT DATA { <http://e/s> <http://e/p> \"4\" }\n1 piece 1\n1 pin all\n1 piece 9\n",
        "opened 1\nstaged\nstaged\n201\n200\n<http://e/s> <http://e/p> \"1\" <http://e/g> .\nmore\nopened 2\n204\nopened 3\n204\n<http://e/s> <http://e/p> \"2\" <http://e/g> .\nend\n200\n<http://e/s> <http://e/p> \"4\" .\n<http://e/s> <http://e/p> \"3\" <http://e/g> .\nend\n",
    ),
    // In these two rows a read of the default graph has a version before that of the patch, and the first triple is above the second. Of
    // records two go: that of the patch's version, and that of the PUT of the default graph, which did not use it.
    (
        "what an insertion copies is not needed before its commit",
        "0 open put <http://e/g>\n0 stage <http://e/s> <http://e/p> \"1\" .\n0 commit\n1 open put default\n1 commit\n1 pin default\n0 open patch <http://e/g>\n0 patch INSERT DATA { <http://e/s> <http://e/p> \"2\" }\n0 open put <http://e/g>\n0 commit\nreclaim 9\n",
        "opened 1\nstaged\n201\nopened 2\n204\n200\nopened 3\n204\nopened 4\n204\nreclaimed 4 more\n",
    ),
    (
        "what a removal copies is not needed before its commit",
        "0 open put <http://e/g>\n0 stage <http://e/s> <http://e/p> \"1\" .\n0 stage <http://e/s> <http://e/p> \"2\" .\n0 commit\n1 open put default\n1 commit\n1 pin default\n0 open patch <http://e/g>\n0 patch DELETE DATA { <http://e/s> <http://e/p> \"2\" }\n0 open put <http://e/g>\n0 commit\nreclaim 9\n",
        "opened 1\nstaged\nstaged\n201\nopened 2\n204\n200\nopened 3\n204\nopened 4\n204\nreclaimed 3 more\n",
    ),
    (
        "two seats patch a graph in the order of their texts",
        "0 open patch default\n1 open patch default\n1 patch INSERT DATA { <http://e/s> <http://e/p> \"1\" , \"2\" }\n0 patch DELETE DATA { <http://e/s> <http://e/p> \"1\" } ; INSERT DATA { _:x <http://e/p> \"0\" }\n2 pin default\n2 piece 9\ncounts\n",
        "opened 1\nopened 2\n204\n204\n200\n<http://e/s> <http://e/p> \"2\" .\n_:b1_1 <http://e/p> \"0\" .\nend\nnodes 6 triples 2\n",
    ),
    (
        "a seat that patches takes nothing but its patch",
        "0 open patch default\n0 feed nt <http://e/s> <http://e/p> \"1\" .\n0 feed ttl \n0 stage <http://e/s> <http://e/p> \"1\" .\n0 commit\n0 open put default\n0 open patch default\n0 pin default\n0 pin all\n0 piece 1\n0 delete default\n0 head default\n0 head all\n0 patch\ncounts\n",
        "opened 1\nrefused WrongPhase\nrefused WrongPhase\nrefused WrongPhase\nrefused WrongPhase\nrefused WrongPhase\nrefused WrongPhase\nrefused WrongPhase\nrefused WrongPhase\nrefused WrongPhase\nrefused WrongPhase\nrefused WrongPhase\nrefused WrongPhase\n204\nnodes 1 triples 0\n",
    ),
    (
        "a patch in the middle of an upload is refused, and the upload goes on",
        "0 open post default\n0 feed ttl <a> <b>\n0 patch INSERT DATA { <http://e/s> <http://e/p> \"1\" }\n0 feed ttl \"1\" .\n0 commit\n0 pin default\n0 piece 9\n",
        "opened 1\nfed\nrefused WrongPhase\nfed\n204\n200\n<http://localhost/a> <http://localhost/b> \"1\" .\nend\n",
    ),
    (
        "an upload after a patch is a new text",
        "0 open patch default\n0 patch INSERT DATA { _:x <http://e/p> \"1\" }\n0 open post default\n0 feed nt _:y <http://e/p> \"1\" .\n0 commit\n0 open patch default\n0 patch DELETE WHERE { ?s <http://e/p> \"2\" } ; INSERT DATA { _:x <http://e/p> \"2\" }\n0 pin default\n0 piece 9\n",
        "opened 1\n204\nopened 2\nfed\n204\nopened 3\n204\n200\n_:b1_1 <http://e/p> \"1\" .\n_:b2_1 <http://e/p> \"1\" .\n_:b3_1 <http://e/p> \"2\" .\nend\n",
    ),
    (
        "the operations before a fault have no effect",
        "0 open patch default\n0 patch INSERT DATA { <http://e/s> <http://e/p> \"1\" } ; INSERT DATA { <s> }\n0 patch\n0 open patch default\n0 patch INSERT DATA { <http://e/s> <http://e/p> \"1\" } ; LOAD <http://e/x>\n0 pin default\n0 piece 1\n",
        "opened 1\nfault 400\nrefused WrongPhase\nopened 2\nfault 422\n200\nend\n",
    ),
    (
        "no patch takes effect after the last commit, and it stays open",
        "store 4 999999999999999999 0\n0 open patch default\n0 patch\n1 open patch <http://e/g>\n1 patch\n0 patch CLEAR ALL\n0 patch\n",
        "opened 1\nrefused LastNumber\nopened 2\n404\nfault 422\nrefused WrongPhase\n",
    ),
    (
        "no patch is opened after the last request",
        "store 4 0 999999999999999999\n0 open patch default\n0 patch\n",
        "refused LastNumber\nrefused WrongPhase\n",
    ),
    // An Open of a patch takes a record, too. A patch that takes effect uses it, also where it changes nothing, unless its target is the
    // default graph and that has no triple after it.
    (
        "a patch that is opened takes a record, and a cancel leaves it",
        "0 open patch default\ncounts\n0 cancel\ncounts\nreclaim 9\ncounts\n",
        "opened 1\nnodes 1 triples 0\ncancelled\nnodes 1 triples 0\nreclaimed 1 done\nnodes 0 triples 0\n",
    ),
    (
        "a patch of a missing graph leaves its record",
        "0 open patch <http://e/g>\n0 patch INSERT DATA { <http://e/s> <http://e/p> \"1\" }\ncounts\nreclaim 9\ncounts\n",
        "opened 1\n404\nnodes 1 triples 0\nreclaimed 1 done\nnodes 0 triples 0\n",
    ),
    (
        "a patch that changes nothing ends the record of the version before, which a read keeps",
        "0 open put <http://e/g>\n0 stage <http://e/s> <http://e/p> \"1\" .\n0 commit\n1 pin <http://e/g>\n0 open patch <http://e/g>\n0 patch\ncounts\nreclaim 9\n0 open patch <http://e/g>\n0 patch DELETE DATA { <http://e/s> <http://e/p> \"2\" } ; INSERT DATA { <http://e/s> <http://e/p> \"1\" }\ncounts\nreclaim 9\n1 piece 9\nreclaim 9\ncounts\n",
        "opened 1\nstaged\n201\n200\nopened 2\n204\nnodes 3 triples 1\nreclaimed 0 more\nopened 3\n204\nnodes 4 triples 1\nreclaimed 1 more\n<http://e/s> <http://e/p> \"1\" .\nend\nreclaimed 1 done\nnodes 2 triples 1\n",
    ),
    (
        "a patch that takes the last triple of the default graph leaves its record unused",
        "0 open put default\n0 stage <http://e/s> <http://e/p> \"1\" .\n0 commit\n0 open patch default\n0 patch DELETE DATA { <http://e/s> <http://e/p> \"1\" }\ncounts\nreclaim 9\ncounts\n",
        "opened 1\nstaged\n204\nopened 2\n204\nnodes 3 triples 0\nreclaimed 3 done\nnodes 0 triples 0\n",
    ),
    // A condition is tested after it is seen that the graph is there, and before all else.
    (
        "a patch that changes nothing is a write all the same",
        "0 open put <http://e/g>\n0 stage <http://e/s> <http://e/p> \"1\" .\n0 commit\n0 open patch <http://e/g> since 1\n0 patch\n0 open patch <http://e/g> since 1\n0 patch INSERT DATA { <http://e/s> <http://e/p> \"2\" }\n0 open patch <http://e/g> since 2\n0 patch INSERT DATA { <http://e/s> <http://e/p> \"1\" } ; DELETE DATA { <http://e/s> <http://e/p> \"3\" }\n0 delete <http://e/g> since 2\n0 pin <http://e/g>\n0 piece 9\n0 delete <http://e/g> since 3\n",
        "opened 1\nstaged\n201\nopened 2\n204\nopened 3\n412 2\nopened 4\n204\n412 3\n200\n<http://e/s> <http://e/p> \"1\" .\nend\n204\n",
    ),
    (
        "a patch of a missing graph is missing before it is late, and a late one is given up",
        "0 open put <http://e/g>\n0 commit\n0 open patch <http://e/g> since 0\n1 delete <http://e/g>\n0 patch\n0 patch\n0 open patch <http://e/g> since 0\n0 patch\n0 open put <http://e/g>\n0 commit\n0 open patch <http://e/g> since 2\n0 patch\n0 patch\n0 cancel\n0 open patch <http://e/g> since 3\n0 patch INSERT DATA { <http://e/s> <http://e/p> \"1\" }\n",
        "opened 1\n201\nopened 2\n204\n404\nrefused WrongPhase\nopened 3\n404\nopened 4\n201\nopened 5\n412 3\nrefused WrongPhase\nrefused WrongPhase\nopened 6\n204\n",
    ),
    (
        "a text with a fault is one, whatever the condition of its patch",
        "0 open put <http://e/g>\n0 commit\n0 open patch <http://e/g> since 0\n0 patch INSERT DATA { <s> }\n0 open patch <http://e/g> since 0\n0 patch CLEAR ALL\n0 open patch <http://e/g> since 0\n0 cancel\n0 open patch <http://e/g>\n0 patch INSERT DATA { <a> <b> \"1\" }\n0 open patch <http://e/g> since 1\n0 patch DELETE WHERE { ?s <b> ?o }\n0 pin <http://e/g>\n0 piece 9\n",
        "opened 1\n201\nopened 2\nfault 400\nopened 3\nfault 422\nopened 4\ncancelled\nopened 5\n204\nopened 6\n412 2\n200\n<http://e/a> <http://e/b> \"1\" .\nend\n",
    ),
    (
        "a patch of the default graph is late after a post of nothing, and a put after a patch",
        "0 open patch default since 0\n1 open post default since 0\n1 commit\n0 patch INSERT DATA { <http://e/s> <http://e/p> \"1\" }\n0 open patch default since 1\n1 open put default since 1\n0 patch INSERT DATA { <http://e/s> <http://e/p> \"1\" }\n1 commit\n0 pin default\n0 piece 9\n",
        "opened 1\nopened 2\n204\n412 1\nopened 3\nopened 4\n204\n412 2\n200\n<http://e/s> <http://e/p> \"1\" .\nend\n",
    ),
    (
        "a late patch leaves its record",
        "0 open put <http://e/g>\n0 stage <http://e/s> <http://e/p> \"1\" .\n0 commit\n0 open patch <http://e/g> since 0\ncounts\n0 patch INSERT DATA { <http://e/s> <http://e/p> \"2\" }\ncounts\nreclaim 9\ncounts\n",
        "opened 1\nstaged\n201\nopened 2\nnodes 3 triples 1\n412 1\nnodes 3 triples 1\nreclaimed 1 done\nnodes 2 triples 1\n",
    ),
    (
        "a late patch is late after the last commit too",
        "store 4 999999999999999999 0\n0 open patch default since 0\n0 patch\n0 open patch default since 999999999999999999\n0 patch\n0 cancel\n0 open patch <http://e/g> since 0\n0 patch\n",
        "opened 1\n412 999999999999999999\nopened 2\nrefused LastNumber\ncancelled\nopened 3\n404\n",
    ),
];
