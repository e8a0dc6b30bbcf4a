//! The dictionary.
ghost use Rattle.std.specs.Prelude.{◌≡◌, ◌+◌, ◌<◌, ◌≤◌, ◌^◌, length, min, nat_lt, is_some, Some, MatchResult, ℕ, IfOk, IfSome, IfNone};
ghost use Rattle.std.specs.Bool.{Decides};
ghost use Rattle.std.specs.Option.{option_map};
ghost use Rattle.gs_model.specs.Terms.{Term, text_of, IsTerm};
ghost use Rattle.gs_model.specs.Limits.{last_term};
ghost use Rattle.gs_dict.specs.Numbering.{IsNumberOf, HasTerm, IsDistinct, LooksUp, Interns, none_numbered, term_given};
ghost use Rattle.gs_dict.specs.Chains.{IsTable};
ghost use Rattle.gs_dict.specs.Kept.{hash_of as hash_of_text, has_bytes, IsEmptyNumber, PutsText, ClearsPlaces};
ghost use Rattle.gs_dict.specs.Sweeping.{Sweeps};
ghost use Rattle.gs_dict.specs.TermLines.{lines_of_terms};

use crate::builders::TermLinesBuilder;
use crate::chains::{self, Entry, GUESSED_TOGETHER, LOOKED_AT};
use crate::compaction;
use crate::numbers::TermId;
use gs_model::{LAST_TERM, Refusal};
use gs_term::TermText;
use gs_texts::{Place, Texts};
use std::alloc::{AllocError, Global};
use std::hash::{FoldHasher, Hasher};
use std::marker::Model;

/// The buckets of a dictionary without terms. They are doubled as terms are added.
const FIRST_BUCKETS: usize = 1024;

/// Terms by number. Each text stands once; a number is found by the hash of its text, which a seed
/// keeps from strangers. A contract sees the terms, in the order of their numbers, and the greatest
/// number that may be given.
#[derive(Drop)]
pub struct Dict {
    texts: Texts,
    entries: Vec<Entry>,
    heads: Vec<u32>,
    /// A hasher that has been given the seed.
    seeded: FoldHasher,
    /// No number is greater.
    last: u32,
    /// From where a number without a term is looked for. Each number before it has one.
    next_empty: usize,
}

impl Model for Dict {
    ghost use Rattle.gs_dict.specs.Numbering.{Numbered, numbered_code};

    ghost Value = { Numbered };

    ghost coded = { numbered_code };

    ghost use Rattle.gs_dict.specs.Kept.{terms_of, IsDict};

    ghost view = { λ d. record { terms = terms_of d.texts d.entries.items; last = d.last } };

    ghost invariant = { λ d. IsDict d.texts d.entries.items d.heads.items d.seeded d.last };
}

#[tactic(auto, unfolding(crate::specs::Kept::hash_of))]
fn hash_of(seeded: FoldHasher, text: &[u8]) -> u32
    ensures { result ≡ hash_of_text seeded text.now }
{
    let mut hasher = seeded;
    hasher.write(text);
    (hasher.finish() & 0xFFFF_FFFF) as u32
}

/// Whether this number is given and has a text.
fn has_text(entries: &[Entry], number: usize) -> bool
    ensures { result ≡ has_bytes entries.now number }
{
    entries
        .get(number)
        .is_some_and(|entry| entry.place.length() != 0)
}

/// A number without a text, if there is one among the `LOOKED_AT` from one on. The next is looked for
/// from it on, or after those that were looked at, so that each is looked at once or twice between two
/// sweeps.
fn next_empty(entries: &[Entry], from: &mut usize) -> Option<u32>
    ensures { IfSome result (IsEmptyNumber entries.now) }
{
    let found = chains::empty_number(entries, *from);
    *from = match found {
        Some(number) => number as usize,
        None => entries.len().min(from.saturating_add(LOOKED_AT)),
    };
    found
}

/// Gives a text the number that has none, or else the next one.
fn put(
    texts: &mut Texts,
    entries: &mut Vec<Entry>,
    heads: &mut Vec<u32>,
    empty: Option<u32>,
    text: &[u8],
    hash: u32,
) -> Result<u32, AllocError>
    requires table { IsTable texts.old entries.old.items heads.old.items }
    requires empty { IfSome empty (IsEmptyNumber entries.old.items) }
    requires few { length entries.old.items < 2 ^ 32 }
    requires room { IfNone empty (length entries.old.items + 1 < 2 ^ 32) }
    requires short { length text.now < 2 ^ 16 }
    ensures table { IsTable texts.new entries.new.items heads.new.items }
    ensures value { PutsText texts.old entries.old.items hash text.now result texts.new entries.new.items }
    ensures count { IfSome empty (λ n. length entries.new.items ≡ length entries.old.items) }
{
    match empty {
        Some(number) => {
            chains::give(texts, entries, heads, number, text, hash)?;
            Ok(number)
        }
        None => chains::add(texts, entries, heads, text, hash),
    }
}

/// Takes the texts of the entries of `count` numbers from `from` on, but of those that are marked.
fn clear_places(entries: &mut [Entry], marks: &[bool], from: usize, count: usize)
    ensures { ClearsPlaces marks.now from (from + count) entries.old entries.new }
{
    let end = entries.len().min(from.saturating_add(count));
    for number in from..end {
        if !marks.get(number).copied().unwrap_or(false) {
            entries[number].place = Place::new(0, 0, 0);
        }
    }
}

impl Dict {
    /// One without terms. Where strangers choose the terms, the seed is a random number that is kept
    /// from them. No number is greater than `last`, nor than 4,294,967,294.
    pub fn new(alloc: Global, seed: u64, last: u32) -> Result<Dict, Refusal>
        ensures { MatchResult result (λ d. d ≡ none_numbered (min last last_term))
            (λ e. e ≡ Refusal.NoMemory) }
    {
        let mut seeded = FoldHasher::default();
        seeded.write_u64(seed);
        let texts = Texts::new(alloc)?;
        let heads = chains::empty_buckets(alloc, FIRST_BUCKETS)?;
        Ok(Dict {
            texts,
            entries: Vec::new(alloc),
            heads,
            seeded,
            last: last.min(LAST_TERM),
            next_empty: 0,
        })
    }

    /// How many bytes the texts take, with those that were swept and whose room did not come back. No clause
    /// speaks of it: by it a store sees when a sweep is worth its time.
    pub fn text_bytes(&self) -> usize {
        self.texts.size()
    }

    /// How many numbers there are.
    pub fn len(&self) -> usize
        ensures value { result ≡ length self.now.terms }
        ensures fits { length self.now.terms ≤ self.now.last + 1 }
        ensures small { self.now.last ≤ last_term }
        ensures distinct { IsDistinct self.now.terms }
    {
        self.entries.len()
    }

    /// Whether all numbers are given, so that a new term gets one that has no term, or none.
    fn is_full(&self) -> bool
        ensures { result ≡ nat_lt self.now.last (length self.now.terms) }
    {
        self.len() > self.last as usize
    }

    /// Whether this number has a term.
    pub fn has(&self, id: TermId) -> bool
        ensures { result ≡ is_some (term_given self.now.terms id.number) }
    {
        has_text(&self.entries, id.number as usize)
    }

    /// The canonical text of a number that has a term.
    pub fn text(&self, id: TermId) -> &[u8]
        requires { HasTerm self.now.terms id.number }
        ensures value { option_map text_of (term_given self.now.terms id.number) ≡ Some result.now }
        ensures valid { (t : Term) → IsNumberOf self.now.terms id.number t → IsTerm t }
    {
        chains::text_at(&self.texts, &self.entries, id.number as usize)
    }

    /// No lines of its terms, with room for so many.
    pub fn lines(&self, alloc: Global, count: usize) -> Result<TermLinesBuilder<'_>, AllocError>
        ensures { IfOk result (λ b. b ≡ lines_of_terms self.now.terms) }
    {
        TermLinesBuilder::new(alloc, &self.texts, self.entries.as_slice(), count)
    }

    /// Whether this number is the term's: one comparison of texts, and no hash.
    pub fn is_number_of(&self, id: TermId, term: &TermText) -> bool
        ensures { Decides result (IsNumberOf self.now.terms id.number term.now) }
    {
        if !self.has(id) {
            return false;
        }
        self.text(id) == term.as_bytes()
    }

    /// The number of a term that has one.
    pub fn find(&self, term: &TermText) -> Option<TermId>
        ensures { LooksUp self.now.terms term.now result }
    {
        let text = term.as_bytes();
        let hash = hash_of(self.seeded, text);
        let number = chains::find(&self.texts, &self.entries, &self.heads, text, hash)?;
        Some(TermId { number })
    }

    /// For each of 16 terms a number to be tried first by `intern_near`: the term's own where it is
    /// the newest of its bucket, and else mostly `NO_TERM`. They are looked up together, so that
    /// memory answers them at once, and the first bytes of what `intern_near` then compares have been
    /// fetched. Nothing rests on a guess.
    pub fn guesses(&self, terms: &[&TermText; GUESSED_TOGETHER]) -> [TermId; GUESSED_TOGETHER] {
        let mut hashes = [0; GUESSED_TOGETHER];
        let mut firsts = [0; GUESSED_TOGETHER];
        for i in 0..GUESSED_TOGETHER {
            let text = terms[i].as_bytes();
            hashes[i] = hash_of(self.seeded, text);
            firsts[i] = text.first().copied().unwrap_or(0);
        }
        chains::guesses(&self.texts, &self.entries, &self.heads, &hashes, &firsts).map(
            |number| TermId { number },
        )
    }

    /// The number of a term, which is given one where it has none: one without a term, if there is one
    /// among the few that are looked at, and else the next. Wants memory for a new term alone; that the
    /// numbers are used up, and none is found, counts as want of memory.
    pub fn intern(&mut self, term: &TermText) -> Result<TermId, Refusal>
        ensures value { Interns self.old term.now result self.new }
        ensures distinct { IsDistinct self.new.terms }
        ensures fits { length self.new.terms ≤ self.new.last + 1 }
        ensures small { self.new.last ≤ last_term }
    {
        let text = term.as_bytes();
        let hash = hash_of(self.seeded, text);
        if let Some(number) = chains::find(&self.texts, &self.entries, &self.heads, text, hash) {
            return Ok(TermId { number });
        }
        let full = self.is_full();
        let empty = next_empty(&self.entries, &mut self.next_empty);
        if full && empty.is_none() {
            return Err(Refusal::NoMemory);
        }
        let number = put(
            &mut self.texts,
            &mut self.entries,
            &mut self.heads,
            empty,
            text,
            hash,
        )?;
        Ok(TermId { number })
    }

    /// The number of a term, as `intern` gives it, with a number to try first: a guess that the caller
    /// has, as one of `guesses`. Where it is the term's, the hash and the walk of the chain are saved.
    pub fn intern_near(&mut self, guess: TermId, term: &TermText) -> Result<TermId, Refusal>
        ensures { Interns self.old term.now result self.new }
    {
        if self.is_number_of(guess, term) {
            return Ok(guess);
        }
        self.intern(term)
    }

    /// Takes the terms of `count` numbers from `from` on, but of those that are marked. Such a number
    /// may be given to another term. Takes no memory; the room of texts comes back by `compact`.
    pub fn sweep(&mut self, marks: &[bool], from: usize, count: usize)
        ensures { Sweeps marks.now from count self.old self.new }
    {
        clear_places(&mut self.entries, marks, from, count);
        self.next_empty = self.next_empty.min(from);
    }

    /// Gives back the room of texts that were swept, where a block has few others. Where memory is
    /// wanted, some stays.
    pub fn compact(&mut self)
        ensures { self.new ≡ self.old }
    {
        let _ = compaction::compact(&mut self.texts, &mut self.entries);
    }
}
