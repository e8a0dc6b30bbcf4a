//! What becomes of a write, by the books alone.
ghost use Rattle.std.specs.Prelude.{◌≡◌};
ghost use Rattle.gs_event.specs.Verdicts.{place_in, holdings_of, DecidesRemoval};
ghost use Rattle.gs_datasets.specs.Standing.{IsVersion};
ghost use Rattle.gs_tree_store.specs.Books.{dataset_of, books_setting, IsFound};
ghost use Rattle.gs_tree_store.specs.Verdicts.{place_by, verdict_by, DecidesUpload, HasCounts};

use crate::books::{self, Books};
use gs_catalogue::GraphVersion;
use gs_event::{Change, Holdings, Place, Verdict, verdict_on};
use gs_term::Target;

/// What the books hold.
pub fn holdings(books: &Books) -> Holdings
    requires { HasCounts books.now }
    ensures { result
        ≡ holdings_of (books_setting books.now) (dataset_of books.now) books.now.versions.commit }
{
    // The triples of all graphs are nodes in use, which are fewer than 2^32.
    let _used = books.pool.nodes_in_use();
    Holdings {
        triples: books.records.triples() as u64,
        names: books.records.names() as u64,
        commit: books.versions.commit(),
        limits: books.limits,
    }
}

/// The target of a write, whose graph was found to have this version, or to be missing.
fn place_of(target: &Target, found: Option<GraphVersion>) -> Place
    ensures { result ≡ place_by target.now found }
{
    Place {
        is_name: matches!(target, Target::Named(_)),
        is_there: found.is_some(),
        triples: books::or_empty(found).triples,
    }
}

/// The target of a write.
pub fn place(books: &Books, target: &Target) -> Place
    requires { HasCounts books.now }
    ensures { result ≡ place_in (dataset_of books.now) target.now }
{
    place_of(target, books.records.get(target))
}

/// What becomes of a write that changes its target so.
fn verdict(books: &Books, target: &Target, found: Option<GraphVersion>, change: Change) -> Verdict
    requires counts { HasCounts books.now }
    requires found { IsFound books.now target.now found }
    ensures { result ≡ verdict_by books.now target.now change }
{
    let held = holdings(books);
    let place = place_of(target, found);
    verdict_on(&held, &place, change)
}

/// What becomes of a write that makes the upload its target's graph, and may create it. The graph was
/// found to have this version, or to be missing.
pub fn verdict_on_upload(
    books: &Books,
    target: &Target,
    found: Option<GraphVersion>,
    upload: GraphVersion,
) -> Verdict
    requires counts { HasCounts books.now }
    requires found { IsFound books.now target.now found }
    requires version { IsVersion books.now.dict.terms books.now.pool upload }
    ensures { DecidesUpload books.now target.now upload result }
{
    verdict(books, target, found, Change::Stores(upload.triples, true))
}

/// What becomes of a write that takes the target's graph away, which was found to have this version, or
/// to be missing.
pub fn verdict_on_removal(books: &Books, target: &Target, found: Option<GraphVersion>) -> Verdict
    requires counts { HasCounts books.now }
    requires found { IsFound books.now target.now found }
    ensures { DecidesRemoval (dataset_of books.now) books.now.versions.commit target.now result }
{
    verdict(books, target, found, Change::Removes)
}
