//! The numbers of the last writes, and whether a write comes too late.
ghost use Rattle.std.specs.Prelude.{◌≡◌};
ghost use Rattle.gs_plain.specs.LastWrites.{default_after as default_after_of, removal_after as removal_after_of};
ghost use Rattle.gs_plain.specs.LastWrites.{last_write_by, FindsLate, FindsLateUpload};

use crate::books::{self, Books};
use gs_event::{UploadKind, is_late};
use gs_term::Target;

/// The number of the last write on the default graph, once the commit of this number wrote the target.
pub fn default_after(last: u64, target: &Target, commit: u64) -> u64
    ensures { result ≡ default_after_of last target.now commit }
{
    match target {
        Target::Default => commit,
        Target::Named(_) => last,
    }
}

/// The number of the last Delete of a name, once the commit of this number deleted the target.
pub fn removal_after(last: u64, target: &Target, commit: u64) -> u64
    ensures { result ≡ removal_after_of last target.now commit }
{
    match target {
        Target::Default => last,
        Target::Named(_) => commit,
    }
}

/// The number of the last write on the target; of a missing name that of the last Delete of any name.
fn last_write(books: &Books, target: &Target) -> u64
    ensures { result ≡ last_write_by books.now target.now }
{
    match target {
        Target::Default => books.default_write,
        Target::Named(_) => match books::newest(books.rows.as_slice(), target) {
            None => books.last_removal,
            Some(i) => books.rows[i].birth,
        },
    }
}

/// The number of the last write on the target, where it is above the condition. The rows are looked
/// through only where there is a condition.
pub fn late_write(books: &Books, target: &Target, since: Option<u64>) -> Option<u64>
    ensures { FindsLate books.now target.now since result }
{
    if since.is_none() {
        return None;
    }
    let write = last_write(books, target);
    if is_late(write, since) {
        Some(write)
    } else {
        None
    }
}

/// The same for the target of an upload. A new graph has no condition.
pub fn late_upload(books: &Books, kind: &UploadKind, since: Option<u64>) -> Option<u64>
    ensures { FindsLateUpload books.now kind.now since result }
{
    match kind {
        UploadKind::Put(target) | UploadKind::Post(target) => late_write(books, target, since),
        UploadKind::New => None,
    }
}
