//! Triples by number.
ghost use Rattle.std.specs.Prelude.{◌≡◌, ◌+◌, ◌<◌, ◌≤◌, length, vec_len, vec_capacity, IfOk, IfErr};
ghost use Rattle.std.specs.List.{All};
ghost use Rattle.gs_model.specs.declared.refusals.Refusal.TheVariants.{NoMemory};
ghost use Rattle.gs_triple_lists.specs.Kept.{term_of_number, triple_of_numbers, IsTripleIn, AreTriplesIn, triples_of_numbers};
ghost use Rattle.gs_dict.specs.Numbering.{Interns};
ghost use Rattle.gs_staging.specs.Keys.{Grows, GivesOnly, IsTermOf, IsTermIn, IsKeyOf, AreKeysOf};
ghost use Rattle.gs_staging.specs.Noted.{IsGuess, AreGuesses, AreNoted};

use gs_dict::{Dict, GUESSED_TOGETHER, NO_TERM, TermId};
use gs_model::Refusal;
use gs_pool::Key;
use gs_term::TermText;
use gs_triple_lists::TripleNumbers;
use std::alloc::{AllocError, Global};

/// The numbers of so few terms are not guessed.
const FEW: usize = 64;

/// What is noted of a term of a list: its number where that is known, and else a guess of it.
#[derive(Clone, Copy, Drop)]
struct Noted {
    id: TermId,
    is_known: bool,
}

/// Nothing is noted.
const NO_GUESS: Noted = Noted {
    id: NO_TERM,
    is_known: false,
};

/// Guesses of the numbers of terms that are looked up together.
fn guesses_of(dict: &Dict, together: &[TermText]) -> [Noted; GUESSED_TOGETHER]
    requires { 0 < length together.now }
    ensures { All IsGuess result }
{
    let mut known = [&together[0]; GUESSED_TOGETHER];
    for (place, term) in known.iter_mut().zip(together.iter()) {
        *place = term;
    }
    dict.guesses(&known).map(|id| Noted {
        id,
        is_known: false,
    })
}

/// For each term of a list a guess of its number. Fewer terms than are guessed together get none.
fn guesses(alloc: Global, dict: &Dict, terms: &[TermText]) -> Result<Vec<Noted>, AllocError>
    ensures { IfOk result (λ v. AreGuesses (length terms.now) v.items) }
{
    let mut noted = Vec::with_capacity(alloc, terms.len())?;
    for together in terms.chunks_exact(GUESSED_TOGETHER) {
        let guessed = guesses_of(dict, together);
        noted.extend_from_slice(guessed.as_slice())?;
    }
    noted.resize(terms.len(), NO_GUESS)?;
    Ok(noted)
}

/// The number of a term of a list, which is given one where it has none. The first time that the term
/// comes it is compared with that of its guess, or looked up; afterwards its number is known.
fn number_of(
    dict: &mut Dict,
    terms: &[TermText],
    noted: &mut [Noted],
    number: u32,
) -> Result<TermId, Refusal>
    requires given { number < length terms.now }
    requires noted { AreNoted dict.old.terms terms.now noted.old }
    ensures value { Interns dict.old (term_of_number terms.now number) result dict.new }
    ensures noted { AreNoted dict.new.terms terms.now noted.new }
{
    let before = noted[number as usize];
    if before.is_known {
        return Ok(before.id);
    }
    let id = dict.intern_near(before.id, &terms[number as usize])?;
    noted[number as usize] = Noted { id, is_known: true };
    Ok(id)
}

/// The key of a triple of a list, whose terms are given numbers where they have none.
fn key_of(
    dict: &mut Dict,
    terms: &[TermText],
    noted: &mut [Noted],
    numbers: TripleNumbers,
) -> Result<Key, Refusal>
    requires known { IsTripleIn terms.now numbers }
    requires noted { AreNoted dict.old.terms terms.now noted.old }
    ensures noted { AreNoted dict.new.terms terms.now noted.new }
    ensures grows { Grows dict.old dict.new }
    ensures only { GivesOnly (IsTermOf (triple_of_numbers terms.now numbers)) dict.old.terms dict.new.terms }
    ensures ok { IfOk result (IsKeyOf dict.new.terms (triple_of_numbers terms.now numbers)) }
    ensures refused { IfErr result (λ r. r ≡ NoMemory) }
{
    let subject = number_of(dict, terms, noted, numbers.subject)?;
    let predicate = number_of(dict, terms, noted, numbers.predicate)?;
    let object = number_of(dict, terms, noted, numbers.object)?;
    Ok(Key {
        subject: subject.number,
        predicate: predicate.number,
        object: object.number,
    })
}

/// The keys of triples of a list, in their order, in one reserved list, with what is noted of each
/// term.
fn keys_by(
    alloc: Global,
    dict: &mut Dict,
    terms: &[TermText],
    noted: &mut [Noted],
    numbers: &[TripleNumbers],
) -> Result<Vec<Key>, Refusal>
    requires known { AreTriplesIn terms.now numbers.now }
    requires noted { AreNoted dict.old.terms terms.now noted.old }
    ensures grows { Grows dict.old dict.new }
    ensures only { GivesOnly (IsTermIn (triples_of_numbers terms.now numbers.now)) dict.old.terms
        dict.new.terms }
    ensures ok { IfOk result (λ keys. AreKeysOf dict.new.terms (triples_of_numbers terms.now numbers.now)
        keys.items) }
    ensures refused { IfErr result (λ r. r ≡ NoMemory) }
{
    let mut keys = Vec::with_capacity(alloc, numbers.len())?;
    for three in numbers {
        let key = key_of(dict, terms, noted, *three)?;
        keys.push_reserved(key);
    }
    Ok(keys)
}

/// The keys of triples of a list, in their order, in one reserved list. A term of the list is looked
/// up once, however often it comes.
pub fn keys_of(
    alloc: Global,
    dict: &mut Dict,
    terms: &[TermText],
    numbers: &[TripleNumbers],
) -> Result<Vec<Key>, Refusal>
    requires { AreTriplesIn terms.now numbers.now }
    ensures grows { Grows dict.old dict.new }
    ensures only { GivesOnly (IsTermIn (triples_of_numbers terms.now numbers.now)) dict.old.terms
        dict.new.terms }
    ensures ok { IfOk result (λ keys. AreKeysOf dict.new.terms (triples_of_numbers terms.now numbers.now)
        keys.items) }
    ensures refused { IfErr result (λ r. r ≡ NoMemory) }
{
    if terms.len() <= FEW {
        let mut noted = [NO_GUESS; FEW];
        return keys_by(alloc, dict, terms, noted.as_mut_slice(), numbers);
    }
    let mut noted = guesses(alloc, dict, terms)?;
    keys_by(alloc, dict, terms, noted.as_mut_slice(), numbers)
}
