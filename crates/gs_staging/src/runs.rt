//! A list of triples as a run of keys.
ghost use Rattle.std.specs.Prelude.{◌≡◌, IfOk, IfErr};
ghost use Rattle.gs_model.specs.declared.refusals.Refusal.TheVariants.{NoMemory};
ghost use Rattle.gs_staging.specs.Keys.{Grows, GivesOnly, IsTermIn, IsRunOfTriples};

use crate::keys::keys_of;
use crate::orders::put_in_order;
use gs_dict::Dict;
use gs_keys::ByText;
use gs_model::Refusal;
use gs_pool::Key;
use gs_triple_lists::TripleList;
use std::alloc::Global;

/// The keys of a list whose triples were not put in order, sorted by the texts of their terms, each
/// once.
fn sorted_run_of(alloc: Global, dict: &mut Dict, triples: &TripleList) -> Result<Vec<Key>, Refusal>
    ensures grows { Grows dict.old dict.new }
    ensures only { GivesOnly (IsTermIn triples.now.items) dict.old.terms dict.new.terms }
    ensures ok { IfOk result (λ run. IsRunOfTriples dict.new.terms triples.now.items run.items) }
    ensures refused { IfErr result (λ r. r ≡ NoMemory) }
{
    let (terms, numbers) = triples.parts();
    let mut keys = keys_of(alloc, dict, terms, numbers)?;
    // That no term has two numbers.
    let _terms = dict.len();
    let order = ByText::new(dict);
    put_in_order(&order, &mut keys);
    Ok(keys)
}

/// The keys of some triples in the order of their texts, each once, as `gs_tree::union` takes them.
/// Where the list's triples were put in order, their keys are too, and they are not compared with one
/// another. New terms are given numbers; those that were given some before a refusal keep them. Memory
/// is wanted for a number for each term of the list, for a key for each triple and for the new terms;
/// that no number is left counts as want of memory.
pub fn run_of(alloc: Global, dict: &mut Dict, triples: &TripleList) -> Result<Vec<Key>, Refusal>
    ensures grows { Grows dict.old dict.new }
    ensures only { GivesOnly (IsTermIn triples.now.items) dict.old.terms dict.new.terms }
    ensures ok { IfOk result (λ run. IsRunOfTriples dict.new.terms triples.now.items run.items) }
    ensures refused { IfErr result (λ r. r ≡ NoMemory) }
{
    match triples.ordered_parts() {
        Some((terms, numbers)) => keys_of(alloc, dict, terms, numbers),
        None => sorted_run_of(alloc, dict, triples),
    }
}
