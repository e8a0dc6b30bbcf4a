//! Laws of the records, proved: each body is empty, and the contract is the law.
ghost use Rattle.gs_records.specs.Order.{AreListedInOrder};
ghost use Rattle.gs_records.specs.Laws.{LastAreCurrent, CommitsEndOne, WalksHaveAll};

/// By the listed numbers, a version of the dataset has its default graph, where there is a record of it,
/// and then its graphs with names, in the order of these.
pub fn graphs_are_listed_in_order()
    ensures { AreListedInOrder }
{}

/// The graphs of the last commit, and of versions after it, are those of now.
pub fn last_graphs_are_current()
    ensures { LastAreCurrent }
{}

/// What one commit ends of one graph is one lifetime at most, which began before the commit and ends
/// with it.
pub fn commits_end_one_record()
    ensures { CommitsEndOne }
{}

/// Pieces of a walk over the listed numbers, joined to its end, have just what a version has of all that
/// is listed after the beginning; each piece begins after the last number of the one before.
pub fn walks_have_all_numbers()
    ensures { WalksHaveAll }
{}
