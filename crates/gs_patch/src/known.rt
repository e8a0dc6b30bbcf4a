//! Keys of triples whose terms all have numbers.
ghost use Rattle.std.specs.Prelude.{◌<◌, length, IfOk, MatchOption};
ghost use Rattle.gs_staging.specs.Keys.{IsKeyOf};
ghost use Rattle.gs_patch.specs.Known.{AreFound, IsMissing, IsFound, HasPlaces, AreKnown};

use gs_dict::{Dict, TermId};
use gs_pool::Key;
use gs_term::TermText;
use gs_triple_lists::{TripleList, TripleNumbers};
use std::alloc::{AllocError, Global};

/// For each term of a list its number, where it has one.
fn find_all(
    alloc: Global,
    dict: &Dict,
    terms: &[TermText],
) -> Result<Vec<Option<TermId>>, AllocError>
    ensures { IfOk result (λ ids. AreFound dict.now.terms terms.now ids.items) }
{
    let mut ids = Vec::with_capacity(alloc, terms.len())?;
    for term in terms {
        ids.push_reserved(dict.find(term));
    }
    Ok(ids)
}

/// The key of a triple of a list, unless one of its terms has no number.
fn key_in(ids: &[Option<TermId>], numbers: TripleNumbers) -> Option<Key>
    requires { HasPlaces ids.now numbers }
    ensures { MatchOption result (IsMissing ids.now numbers) (IsFound ids.now numbers) }
{
    let subject = ids[numbers.subject as usize]?;
    let predicate = ids[numbers.predicate as usize]?;
    let object = ids[numbers.object as usize]?;
    Some(Key {
        subject: subject.number,
        predicate: predicate.number,
        object: object.number,
    })
}

/// The keys of those of some triples whose terms all have numbers. A triple with another term is in
/// no graph of these numbers. Each term of the list is looked up once, however often it comes.
pub fn known_keys(alloc: Global, dict: &Dict, triples: &TripleList) -> Result<Vec<Key>, AllocError>
    ensures { IfOk result (λ keys. AreKnown dict.now.terms triples.now.items keys.items) }
{
    let (terms, numbers) = triples.parts();
    let ids = find_all(alloc, dict, terms)?;
    let mut keys = Vec::new(alloc);
    for three in numbers {
        let Some(key) = key_in(ids.as_slice(), *three) else {
            continue;
        };
        keys.push(key)?;
    }
    Ok(keys)
}
