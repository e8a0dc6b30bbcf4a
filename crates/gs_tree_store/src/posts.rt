//! The commit of a POST: the upload's keys go out of its own tree and into the target's, by copies.
ghost use Rattle.std.specs.Prelude.{◌≡◌, None};
ghost use Rattle.gs_event.specs.declared.events.Action.TheVariants.{Commit};
ghost use Rattle.gs_event.specs.declared.events.UploadKind.TheVariants.{Post};
ghost use Rattle.gs_tree_store.specs.declared.books.Seat.TheVariants.{Writing};
ghost use Rattle.gs_tree_store.specs.LastWrites.{late_write_of};
ghost use Rattle.gs_tree_store.specs.Opened.{HasRecord, KeepsRecords};
ghost use Rattle.gs_tree_store.specs.Actions.{ActsAny, IsReadyAny};

use crate::books::{self, Books, Seat};
use crate::commits::keep_version;
use crate::drafts::united;
use crate::uploads::{make_again, take_keys};
use crate::verdicts::{holdings, place};
use gs_catalogue::GraphVersion;
use gs_changes::take_back;
use gs_event::{Answer, Change, UploadKind, Verdict, verdict_on};
use gs_model::Refusal;
use gs_term::Target;
use std::alloc::Global;

/// Unites the target's graph with the upload, which does not come too late.
pub fn commit_post(
    books: &mut Books,
    seat: &mut Seat,
    alloc: Global,
    target: Target,
    request: u64,
    upload: GraphVersion,
    opened: u32,
    since: Option<u64>,
) -> Answer
    requires ready { IsReadyAny books.old (Writing (Post target) request upload opened since) }
    requires opened { HasRecord books.old (Writing (Post target) request upload opened since) }
    requires in_time { late_write_of books.old target since ≡ None }
    requires idle { seat.old ≡ Seat.Idle }
    ensures acts { ActsAny books.old books.new (Writing (Post target) request upload opened since) seat.new
        Commit result }
    ensures records { KeepsRecords books.old books.new (Writing (Post target) request upload opened since)
        seat.new Commit result }
{
    let held = holdings(books);
    let place = place(books, &target);
    let old = books::version_of(books, &target);
    let birth = books.versions.commit() + 1;
    let Ok(keys) = take_keys(alloc, &books.dict, &mut books.pool, upload) else {
        leave_open(seat, target, request, upload, opened, since);
        return Answer::Refused(Refusal::NoMemory);
    };
    let run = keys.as_slice();
    let Ok(draft) = united(&books.dict, &mut books.pool, old, run, birth) else {
        let upload = make_again(&mut books.pool, run, birth);
        leave_open(seat, target, request, upload, opened, since);
        return Answer::Refused(Refusal::NoMemory);
    };
    match verdict_on(&held, &place, Change::Stores(draft.triples, true)) {
        Verdict::Missing => unreachable!(),
        Verdict::Full => {
            take_back(&mut books.pool, draft.root, birth);
            books.records.give_up(opened);
            Answer::Status(507, None, books.versions.commit())
        }
        Verdict::LastNumber => {
            take_back(&mut books.pool, draft.root, birth);
            let upload = make_again(&mut books.pool, run, birth);
            leave_open(seat, target, request, upload, opened, since);
            Answer::Refused(Refusal::LastNumber)
        }
        Verdict::Granted(status, _, _) => {
            keep_version(books, opened, target, draft, birth);
            Answer::Status(status, None, books.versions.commit())
        }
    }
}

// A commit that is refused leaves the upload open.
fn leave_open(
    seat: &mut Seat,
    target: Target,
    request: u64,
    upload: GraphVersion,
    opened: u32,
    since: Option<u64>,
)
    ensures { seat.new ≡ Writing (Post target) request upload opened since }
{
    *seat = Seat::Writing(UploadKind::Post(target), request, upload, opened, since);
}
