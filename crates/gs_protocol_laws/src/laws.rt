//! Laws of the protocol, proved: each body is empty, and the contract is the law.
ghost use Rattle.std.specs.Prelude.{List, ℕ};
ghost use Rattle.gs_model.specs.Triples.{RdfTriple};
ghost use Rattle.gs_event.specs.Datasets.{Dataset};
ghost use Rattle.gs_protocol_laws.specs.Writes.{PutsLeave, PostsLeave, CreatesLeave};
ghost use Rattle.gs_protocol_laws.specs.Writes.{PatchesLeave, DeletesLeave, OthersLeaveAll};
ghost use Rattle.gs_protocol_laws.specs.Reads.{GetsGiveTheirLines, CutGetsGiveTheFirst};
ghost use Rattle.gs_protocol_laws.specs.ReadBack.{PutsAreReadBack, PostsAreReadBack, CreatesAreReadBack};
ghost use Rattle.gs_protocol_laws.specs.ReadBack.{PatchesAreReadBack, DeletesAreReadBack, GetsAgree};
ghost use Rattle.gs_protocol_laws.specs.Unchanged.{OnlyWritesChange, OnlyWritesChangeNumbers};
ghost use Rattle.gs_protocol_laws.specs.Unchanged.{UnwrittenIsMissing, HeadsAgree};
ghost use Rattle.gs_protocol_laws.specs.AllGraphs.{AllGetsGiveTheDataset, AllHeadsAreOk, AllPinsAreOk};
ghost use Rattle.gs_protocol_laws.specs.AllGraphs.{AllGetsAgree, AllGetsHaveEachGraph, PutsAreInAllGets};
ghost use Rattle.gs_protocol_laws.specs.DatasetLines.{DefaultIsFirst, NamedAreInOrder};
ghost use Rattle.gs_protocol_laws.specs.DatasetLines.{LinesAreAsManyAsTriples};
ghost use Rattle.gs_protocol_laws.specs.GivenUp.{OpenUploadsLeaveNothing, GivenUpUploadsLeaveNothing};
ghost use Rattle.gs_protocol_laws.specs.Uploads.{PutUploadsAreReadBack, PostUploadsAreReadBack};
ghost use Rattle.gs_protocol_laws.specs.Uploads.{NewUploadsAreReadBack};
ghost use Rattle.gs_protocol_laws.specs.Patches.{WholePatchesAreReadBack, WholeDeletesAreReadBack};
ghost use Rattle.gs_protocol_laws.specs.Statuses.{IdleHeadsAreTold, IdlePinsAreTold};
ghost use Rattle.gs_protocol_laws.specs.Statuses.{MadeGraphsWereMissing, ChangedGraphsWereThere};
ghost use Rattle.gs_protocol_laws.specs.Statuses.{MissingGraphsWereMissing};
ghost use Rattle.gs_protocol_laws.specs.Statuses.{NewGraphsAreNamed, OnlyNewGraphsAreNamed};
ghost use Rattle.gs_protocol_laws.specs.Numbers.{CommitsCountWrites, PinsReportTheCommit};
ghost use Rattle.gs_protocol_laws.specs.Numbers.{HeadsReportTheCommit, WritesReportTheirCommit};
ghost use Rattle.gs_protocol_laws.specs.Numbers.{ConditionsLoseNothing, LateWritesWereLate};
ghost use Rattle.gs_protocol_laws.specs.Lines.{StandsInLine, QuadLinesTell};

/// What a write that was answered 201 or 204 leaves at its target stays there until a later write of that
/// target takes effect; any other status changes nothing.
pub fn writes_stay()
    ensures put { PutsLeave }
    ensures post { PostsLeave }
    ensures create { CreatesLeave }
    ensures patch { PatchesLeave }
    ensures delete { DeletesLeave }
    ensures others { OthersLeaveAll }
{}

/// A GET is given the lines that its graph had, or all graphs, when it was pinned, whatever others write
/// meanwhile; one that is cut off is given the first of them; and two of a graph between whose pins nothing
/// wrote it are given the same.
pub fn gets_give_their_lines()
    ensures lines { GetsGiveTheirLines }
    ensures cut { CutGetsGiveTheFirst }
    ensures agree { GetsAgree }
{}

/// Nothing changes but by a write that is answered 201 or 204, no graph and no number: so a target that
/// nothing wrote is missing, and two HEADs between which nothing wrote it have one status.
pub fn only_writes_change()
    ensures others { OnlyWritesChange }
    ensures state { OnlyWritesChangeNumbers }
    ensures unwritten { UnwrittenIsMissing }
    ensures heads { HeadsAgree }
{}

/// A write is read back: where it was answered 201 or 204, and no later write of its target took effect,
/// a later GET is given the lines of the graph that it left, and a HEAD has the same status.
pub fn writes_are_read_back()
    ensures put { PutsAreReadBack }
    ensures post { PostsAreReadBack }
    ensures create { CreatesAreReadBack }
    ensures patch { PatchesAreReadBack }
    ensures delete { DeletesAreReadBack }
{}

/// The same of an upload, by the events of its seat alone: what it staged between its opening and its commit
/// is read back.
pub fn uploads_are_read_back()
    ensures put { PutUploadsAreReadBack }
    ensures post { PostUploadsAreReadBack }
    ensures new { NewUploadsAreReadBack }
{}

/// So is what a patch made of a graph, and that a graph was taken away.
pub fn patches_and_deletes_are_read_back()
    ensures patch { WholePatchesAreReadBack }
    ensures delete { WholeDeletesAreReadBack }
{}

/// A GET of all graphs is given the lines of the whole dataset as it was when it was pinned, whatever others
/// write meanwhile. It is answered 200, and so is a HEAD. Two between whose pins nothing was written are
/// given the same. Among its lines are those of each graph that was there, in a row: so a PUT is read back
/// there too.
pub fn all_graphs_are_read()
    ensures lines { AllGetsGiveTheDataset }
    ensures head { AllHeadsAreOk }
    ensures get { AllPinsAreOk }
    ensures agree { AllGetsAgree }
    ensures graph { AllGetsHaveEachGraph }
    ensures put { PutsAreInAllGets }
{}

/// The lines of a dataset are in order, and nothing else is among them: first those of the default graph,
/// and then only lines of named graphs, each graph's in a row, in the order of the bytes of `<name>`. There
/// are as many as all graphs have triples.
pub fn lines_of_a_dataset_are_in_order()
    ensures first { (m : Dataset) → DefaultIsFirst m }
    ensures order { NamedAreInOrder }
    ensures count { LinesAreAsManyAsTriples }
{}

/// An upload or a patch that was given up, or was not committed yet, leaves nothing: the points are those of
/// the history without it.
pub fn given_up_uploads_leave_nothing()
    ensures open { OpenUploadsLeaveNothing }
    ensures given_up { GivenUpUploadsLeaveNothing }
{}

/// At an idle seat a HEAD has one legal answer: 200 where its graph is there and else 404, and no name. Of
/// all graphs it is 200. A GET is pinned with that status. Neither is refused.
pub fn idle_seats_are_told()
    ensures head { IdleHeadsAreTold }
    ensures get { IdlePinsAreTold }
{}

/// 201 tells that the target was missing and was made, 204 that it was there, and 404 that it was missing.
pub fn statuses_tell_what_was_there()
    ensures made { MadeGraphsWereMissing }
    ensures changed { ChangedGraphsWereThere }
    ensures missing { MissingGraphsWereMissing }
{}

/// A new graph that took effect is answered 201 and its name, and no other answer has a name.
pub fn only_new_graphs_are_named()
    ensures named { NewGraphsAreNamed }
    ensures only { OnlyNewGraphsAreNamed }
{}

/// A GET and a HEAD report the number of the last commit, and a write that was answered 201 or 204 that of its
/// own. The last commit's number is the start's, and one more for each such write.
pub fn numbers_are_of_commits()
    ensures count { CommitsCountWrites }
    ensures get { PinsReportTheCommit }
    ensures head { HeadsReportTheCommit }
    ensures write { WritesReportTheirCommit }
{}

/// A write on condition loses nothing: where it took effect since the number that a GET had reported, nobody
/// wrote its target between, and the target had the graph still that the GET was given.
pub fn conditions_lose_nothing()
    ensures { ConditionsLoseNothing }
{}

/// A write that was answered 412 came too late: it had a condition, whose number is less than the one that it
/// was answered; and that is the number of the last write of its target, or, where there is no such graph,
/// of the last Delete of a name.
pub fn late_writes_were_late()
    ensures { LateWritesWereLate }
{}

/// A triple's line with a graph's name is its line with the name before the dot, and tells both.
pub fn lines_with_names_are_lines()
    ensures line { (name : List ℕ) (t : RdfTriple) → StandsInLine name t }
    ensures tell { QuadLinesTell }
{}
