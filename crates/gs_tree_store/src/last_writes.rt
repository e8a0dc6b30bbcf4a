//! The commit numbers of last writes, and whether a write comes too late.
ghost use Rattle.std.specs.Prelude.{◌≡◌};
ghost use Rattle.gs_event.specs.Conditions.{last_write_on};
ghost use Rattle.gs_tree_store.specs.Books.{totals_of};
ghost use Rattle.gs_tree_store.specs.LastWrites.{by_target as by_target_of, late_write_of, late_upload_of};

use crate::books::Books;
use gs_event::{UploadKind, is_late};
use gs_term::Target;

/// One number for the default graph, and another for a name.
pub fn by_target(target: &Target, default: u64, named: u64) -> u64
    ensures { result ≡ by_target_of target.now default named }
{
    match target {
        Target::Default => default,
        Target::Named(_) => named,
    }
}

/// The commit number of the last write on the target; of a name that is missing that of the last Delete of
/// any name.
pub fn last_write(books: &Books, target: &Target) -> u64
    ensures { result ≡ last_write_on (totals_of books.now).last_writes target.now }
{
    match target {
        Target::Default => books.default_write,
        Target::Named(_) => books.records.birth(target).unwrap_or(books.last_delete),
    }
}

/// The same, where it comes after the commit of this number. Nothing is looked for where there is no such
/// number.
pub fn late_write(books: &Books, target: &Target, since: Option<u64>) -> Option<u64>
    ensures { result ≡ late_write_of books.now target.now since }
{
    if since.is_none() {
        return None;
    }
    let number = last_write(books, target);
    if is_late(number, since) {
        Some(number)
    } else {
        None
    }
}

/// The same for the target of an upload. A new graph has no condition.
pub fn late_upload(books: &Books, kind: &UploadKind, since: Option<u64>) -> Option<u64>
    ensures { result ≡ late_upload_of books.now kind.now since }
{
    match kind {
        UploadKind::Put(target) | UploadKind::Post(target) => late_write(books, target, since),
        UploadKind::New => None,
    }
}
