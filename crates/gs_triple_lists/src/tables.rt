//! Terms by number, mostly each once.
ghost use Rattle.std.specs.Prelude.{◌≡◌, [], true, slice_get, Some, IfOk, IfSome};
ghost use Rattle.gs_triple_lists.specs.Kept.{HasMore};

use crate::candidates::Candidate;
use gs_term::TermText;
use std::alloc::{AllocError, Global};
use std::hash::{FoldHasher, Hasher};

/// So many terms come first, and are in no chain: a short list is done before a chain would help.
const FEW: usize = 16;

/// For so many terms there is room once there is one.
const FIRST_TERMS: usize = 24;

/// How many buckets there are at first. Each begins a chain, of the terms whose hashes lead to it. When a
/// term is added while as many are in chains as there are buckets, these become four times as many.
const FIRST_BUCKETS: usize = 64;

/// How many terms of a bucket are looked at, the newest first. So terms that are made to collide cost
/// their memory again, and at most 16 comparisons each.
const LOOKS: usize = 16;

/// What is kept of a term in a chain: the hash of its text, and where the link of the next term of the
/// chain stands. All links stand in one list, by the numbers of their terms. `next` and the heads of the
/// buckets are places in this list, plus 1; 0 stands for none.
#[derive(Clone, Copy, Debug, Drop)]
struct Link {
    next: u32,
    hash: u32,
}

/// Terms by number, and chains by which a term is found. What is found is compared, so nothing rests on
/// the chains: a term that is not found is there again, under another number.
#[derive(Debug, Drop)]
pub struct TermTable {
    pub terms: Vec<TermText>,
    links: Vec<Link>,
    heads: Vec<u32>,
}

/// The hash of a text.
fn hash_of(text: &[u8]) -> u32 {
    let mut hasher = FoldHasher::default();
    hasher.write(text);
    (hasher.finish() & 0xFFFF_FFFF) as u32
}

/// The bucket of a hash, of a power of two.
fn bucket(hash: u32, buckets: usize) -> usize {
    hash as usize & buckets.saturating_sub(1)
}

/// Puts the link at this place, whose term has this hash, before the others of its bucket, and gives its
/// `next`, which leads to these.
fn link_before(heads: &mut [u32], hash: u32, place: u32) -> u32 {
    let bucket = bucket(hash, heads.len());
    match heads.get_mut(bucket) {
        None => 0,
        Some(head) => {
            let next = *head;
            *head = place.wrapping_add(1);
            next
        }
    }
}

/// Puts all links into chains, in the order of their places.
fn relink(links: &mut [Link], heads: &mut [u32]) {
    let mut place = 0u32;
    for link in links.iter_mut() {
        link.next = link_before(heads, link.hash, place);
        place = place.wrapping_add(1);
    }
}

impl TermTable {
    /// Without terms. Takes no memory.
    pub fn new(alloc: Global) -> TermTable
        ensures { result.terms.items ≡ [] }
    {
        TermTable {
            terms: Vec::new(alloc),
            links: Vec::new(alloc),
            heads: Vec::new(alloc),
        }
    }

    /// Whether this number is the term's.
    #[inline(always)]
    pub fn is_number_of<C: Candidate>(&self, number: u32, candidate: &C) -> bool
        ensures { result ≡ true → slice_get self.now.terms.items number ≡ Some (C.term candidate.now) }
    {
        match self.terms.get(number as usize) {
            None => false,
            Some(known) => known.as_bytes() == candidate.text(),
        }
    }

    /// A number of a term, looked for among the newest ones of its bucket.
    #[inline(always)]
    fn find<C: Candidate>(&self, candidate: &C, hash: u32) -> Option<u32>
        ensures { IfSome result (λ n. slice_get self.now.terms.items n ≡ Some (C.term candidate.now)) }
    {
        let mut link = *self.heads.get(bucket(hash, self.heads.len()))?;
        for _ in 0..LOOKS {
            let entry = *self.links.get(link.checked_sub(1)? as usize)?;
            let number = link.wrapping_add(FEW as u32 - 1);
            if entry.hash == hash && self.is_number_of(number, candidate) {
                return Some(number);
            }
            link = entry.next;
        }
        None
    }

    /// More buckets, where there are as many terms in chains.
    fn grow(&mut self) -> Result<(), AllocError>
        ensures { self.new.terms ≡ self.old.terms }
    {
        if self.links.len() < self.heads.len() {
            return Ok(());
        }
        let count = self.heads.len().saturating_mul(4).max(FIRST_BUCKETS);
        let mut heads = vec![in *self.heads.allocator(); 0u32; count]?;
        relink(&mut self.links, &mut heads);
        self.heads = heads;
        Ok(())
    }

    /// Adds a term, which has the next number.
    fn add(&mut self, term: TermText) -> Result<u32, AllocError>
        ensures more { HasMore self.old.terms.items self.new.terms.items }
        ensures ok { IfOk result (λ n. slice_get self.new.terms.items n ≡ Some term) }
        ensures links { self.new.links ≡ self.old.links }
    {
        let Ok(number) = u32::try_from(self.terms.len()) else {
            return Err(AllocError);
        };
        if self.terms.is_empty() {
            self.terms.reserve(FIRST_TERMS)?;
        }
        self.terms.push(term)?;
        Ok(number)
    }

    /// A number of a term, which is added to a chain where it is in none.
    fn number_by_hash<C: Candidate>(&mut self, candidate: C) -> Result<u32, AllocError>
        ensures more { HasMore self.old.terms.items self.new.terms.items }
        ensures ok { IfOk result (λ n. slice_get self.new.terms.items n ≡ Some (C.term candidate)) }
    {
        let hash = hash_of(candidate.text());
        if let Some(number) = self.find(&candidate, hash) {
            return Ok(number);
        }
        self.grow()?;
        self.links.reserve(1)?;
        let number = self.add(candidate.into_term()?)?;
        let place = (self.links.len() & 0xFFFF_FFFF) as u32;
        let next = link_before(&mut self.heads, hash, place);
        self.links.push_reserved(Link { next, hash });
        Ok(number)
    }

    /// A number of a term, which is added where it is not found. Among few it is not looked for.
    pub fn number_of<C: Candidate>(&mut self, candidate: C) -> Result<u32, AllocError>
        ensures more { HasMore self.old.terms.items self.new.terms.items }
        ensures ok { IfOk result (λ n. slice_get self.new.terms.items n ≡ Some (C.term candidate)) }
    {
        if self.terms.len() < FEW {
            return self.add(candidate.into_term()?);
        }
        self.number_by_hash(candidate)
    }

    /// Without terms again.
    pub fn clear(&mut self)
        ensures { self.new.terms.items ≡ [] }
    {
        self.terms.clear();
        self.links.clear();
        self.heads.clear();
    }
}
