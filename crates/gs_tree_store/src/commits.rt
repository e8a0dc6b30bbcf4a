//! What a write makes of the books: a target's graph gets a tree, or goes. None of it takes memory.
ghost use Rattle.std.specs.Prelude.{◌≡◌, ◌<◌};
ghost use Rattle.gs_model.specs.Limits.{last_number};
ghost use Rattle.gs_tree_store.specs.Books.{IsSound, IsFound};
ghost use Rattle.gs_tree_store.specs.Opened.{IsOpened};
ghost use Rattle.gs_tree_store.specs.Writes.{HasUpload, HasAny, Puts, Removes, StoresDraft, GivesUpUpload};

use crate::books::{self, Books};
use crate::last_writes::by_target;
use gs_catalogue::GraphVersion;
use gs_commit::{drop_tree, end_tree, keep_draft};
use gs_term::Target;

/// Gives the target the upload's tree, as it is, by the next commit. The open record is that of it then.
/// The target's graph was found to have this version, or to be missing.
pub fn put_version(
    books: &mut Books,
    opened: u32,
    target: Target,
    found: Option<GraphVersion>,
    upload: GraphVersion,
)
    requires sound { IsSound books.old }
    requires found { IsFound books.old target found }
    requires upload { HasUpload books.old upload }
    requires opened { IsOpened books.old opened }
    requires number { books.old.versions.commit < last_number }
    ensures { Puts books.old books.new opened target upload }
{
    let old = books::or_empty(found);
    end_tree(&mut books.pool, &mut books.versions, old.root);
    let number = books.versions.commit();
    books.default_write = by_target(&target, number, books.default_write);
    books.records.put(opened, target, upload, number);
}

/// Takes the target's graph away, by the next commit: the default graph is empty then. It was found to
/// have this version, or to be missing.
pub fn remove_version(books: &mut Books, target: &Target, found: Option<GraphVersion>)
    requires sound { IsSound books.old }
    requires found { IsFound books.old target.now found }
    requires ledger { HasAny books.old }
    requires number { books.old.versions.commit < last_number }
    ensures { Removes books.old books.new target.now }
{
    let old = books::or_empty(found);
    end_tree(&mut books.pool, &mut books.versions, old.root);
    let commit = books.versions.commit();
    books.default_write = by_target(target, commit, books.default_write);
    books.last_delete = by_target(target, books.last_delete, commit);
    books.records.remove(target, commit);
}

/// Gives the target a draft of its tree, by the next commit, which is of this number. The open record is
/// that of it then.
pub fn keep_version(
    books: &mut Books,
    opened: u32,
    target: Target,
    draft: GraphVersion,
    commit: u64,
)
    requires opened { IsOpened books.old opened }
    requires later { books.old.records.latest < commit }
    requires number { books.old.versions.commit < last_number }
    ensures { StoresDraft books.old books.new opened target draft commit }
{
    keep_draft(&mut books.pool, &mut books.versions);
    books.default_write = by_target(&target, commit, books.default_write);
    books.records.put(opened, target, draft, commit);
}

/// Gives an upload up, with its record.
pub fn drop_upload(books: &mut Books, upload: GraphVersion, opened: u32)
    requires upload { HasUpload books.old upload }
    requires opened { IsOpened books.old opened }
    ensures { GivesUpUpload books.old books.new opened upload }
{
    drop_tree(&mut books.pool, upload.root);
    books.records.give_up(opened);
}
