//! An entry for each text, and chains of entries by their hashes.
ghost use Rattle.std.specs.Prelude.{◌≡◌, ◌+◌, ◌-◌, ◌<◌, ◌≤◌, ◌^◌, length, slice_index, slice_set, ℕ, IfOk, IfSome, OnOk, OnErr};
ghost use Rattle.std.specs.Bool.{Decides};
ghost use Rattle.gs_dict.specs.Chains.{IsLinked, IsLinkedPast, IsLinkedBut, IsLeastAbove, IsLinkSet, AreInBlocks, IsTable, AreEnough, EntryHas, Meets, Agree, KeepsTexts, KeepsOtherTexts, AddsText, text_at as text_of_number, dict_entry_at, bucket_of, bucket_at, link_after, link_from as link_from_number};
ghost use Rattle.gs_texts.specs.Places.{length_of};

use crate::numbers::NO_TERM;
use gs_texts::{Place, Texts};
use std::alloc::{AllocError, Global};

/// Where a text stands, the next link of its chain, and its hash. A link is a number plus one, and 0 at
/// the end of a chain. 16 bytes.
#[derive(Clone, Copy, Debug, Drop)]
pub struct Entry {
    pub place: Place,
    pub next: u32,
    pub hash: u32,
}

/// The bucket of a hash.
#[tactic(auto, using(std::proofs::lemmas::Nat::and_le_r), unfolding(crate::specs::Chains::bucket_of))]
fn bucket(hash: u32, buckets: usize) -> usize
    requires { 0 < buckets }
    ensures value { result ≡ bucket_of buckets hash }
    ensures inside { result < buckets }
{
    hash as usize & (buckets - 1)
}

/// The text of a number.
#[tactic(auto, unfolding(crate::specs::Chains::text_at))]
pub fn text_at<'a>(texts: &'a Texts, entries: &[Entry], number: usize) -> &'a [u8]
    requires given { number < length entries.now }
    requires placed { AreInBlocks texts.now entries.now }
    ensures { result.now ≡ text_of_number texts.now entries.now number }
{
    texts.get(entries[number].place)
}

/// Whether a number has this hash and this text. Few texts are compared: most hashes differ.
fn has(texts: &Texts, entries: &[Entry], number: usize, text: &[u8], hash: u32) -> bool
    requires given { number < length entries.now }
    requires placed { AreInBlocks texts.now entries.now }
    ensures { Decides result (EntryHas texts.now entries.now number hash text.now) }
{
    entries[number].hash == hash && text_at(texts, entries, number) == text
}

/// The number of a text, looked for along the chain of its hash.
pub fn find(texts: &Texts, entries: &[Entry], heads: &[u32], text: &[u8], hash: u32) -> Option<u32>
    requires { IsTable texts.now entries.now heads.now }
    ensures { Meets texts.now entries.now hash text.now result }
{
    let mut link = heads[bucket(hash, heads.len())];
    while link > 0 {
        let number = link - 1;
        if has(texts, entries, number as usize, text, hash) {
            return Some(number);
        }
        link = entries[number as usize].next;
    }
    None
}

/// How many terms are guessed together.
pub const GUESSED_TOGETHER: usize = 16;

/// The newest number in the chain of each hash, and 0 where there is none.
fn newest(heads: &[u32], hashes: &[u32; GUESSED_TOGETHER]) -> [u32; GUESSED_TOGETHER]
    requires { 0 < length heads.now }
{
    let mut numbers = [0; GUESSED_TOGETHER];
    for i in 0..GUESSED_TOGETHER {
        numbers[i] = heads[bucket(hashes[i], heads.len())].saturating_sub(1);
    }
    numbers
}

/// Those of the numbers whose entry has the hash, in their places, and `NO_TERM`'s in the others.
fn with_hash(
    entries: &[Entry],
    numbers: &[u32; GUESSED_TOGETHER],
    hashes: &[u32; GUESSED_TOGETHER],
) -> [u32; GUESSED_TOGETHER] {
    let mut found = [NO_TERM.number; GUESSED_TOGETHER];
    for i in 0..GUESSED_TOGETHER {
        if let Some(entry) = entries.get(numbers[i] as usize) {
            found[i] = if entry.hash == hashes[i] {
                numbers[i]
            } else {
                NO_TERM.number
            };
        }
    }
    found
}

/// Those of the numbers whose text begins with the byte, in their places, and `NO_TERM`'s in the
/// others.
fn with_first(
    texts: &Texts,
    entries: &[Entry],
    numbers: &[u32; GUESSED_TOGETHER],
    firsts: &[u8; GUESSED_TOGETHER],
) -> [u32; GUESSED_TOGETHER]
    requires { AreInBlocks texts.now entries.now }
{
    let mut found = [NO_TERM.number; GUESSED_TOGETHER];
    for i in 0..GUESSED_TOGETHER {
        if let Some(entry) = entries.get(numbers[i] as usize) {
            let first = texts.get(entry.place).first().copied().unwrap_or(0);
            found[i] = if first == firsts[i] {
                numbers[i]
            } else {
                NO_TERM.number
            };
        }
    }
    found
}

/// For each hash and first byte the newest number of the hash's chain, where its entry has the hash
/// and its text begins with the byte, and else `NO_TERM`'s. Heads are read first, then entries, then
/// texts; within a step no term waits for another. The byte is compared so that the text is fetched.
pub fn guesses(
    texts: &Texts,
    entries: &[Entry],
    heads: &[u32],
    hashes: &[u32; GUESSED_TOGETHER],
    firsts: &[u8; GUESSED_TOGETHER],
) -> [u32; GUESSED_TOGETHER]
    requires { IsTable texts.now entries.now heads.now }
{
    let numbers = with_hash(entries, &newest(heads, hashes), hashes);
    with_first(texts, entries, &numbers, firsts)
}

/// Puts all entries into chains, in the order of their numbers.
fn relink(entries: &mut [Entry], heads: &mut [u32])
    requires few { length entries.old < 2 ^ 32 }
    requires bucketed { 0 < length heads.old }
    requires empty { (b : ℕ) → slice_index heads.old b ≡ 0 }
    ensures linked { IsLinked (length entries.old) entries.new heads.new }
    ensures kept { Agree entries.old entries.new }
{
    for i in 0..entries.len() {
        let b = bucket(entries[i].hash, heads.len());
        entries[i].next = heads[b];
        heads[b] = i as u32 + 1;
    }
}

/// So many buckets, without entries.
pub fn empty_buckets(alloc: Global, count: usize) -> Result<Vec<u32>, AllocError>
    ensures count { IfOk result (λ v. length v.items ≡ count) }
    ensures empty { IfOk result (λ v. (b : ℕ) → slice_index v.items b ≡ 0) }
{
    vec![in alloc; 0u32; count]
}

/// Twice as many buckets, where there are as many entries as buckets.
fn grow(entries: &mut Vec<Entry>, heads: &mut Vec<u32>) -> Result<(), AllocError>
    requires few { length entries.old.items < 2 ^ 32 }
    requires enough { AreEnough (length heads.old.items) (length entries.old.items) }
    requires linked { IsLinked (length entries.old.items) entries.old.items heads.old.items }
    ensures linked { IsLinked (length entries.old.items) entries.new.items heads.new.items }
    ensures enough { AreEnough (length heads.new.items) (length entries.new.items) }
    ensures another { OnOk result (length entries.new.items < length heads.new.items) }
    ensures kept { Agree entries.old.items entries.new.items }
{
    if entries.len() < heads.len() {
        return Ok(());
    }
    let mut more = empty_buckets(*heads.allocator(), 2 * heads.len())?;
    relink(entries, &mut more);
    *heads = more;
    Ok(())
}

/// Adds a text, which has the next number. Where memory is wanted, nothing is added.
pub fn add(
    texts: &mut Texts,
    entries: &mut Vec<Entry>,
    heads: &mut Vec<u32>,
    text: &[u8],
    hash: u32,
) -> Result<u32, AllocError>
    requires table { IsTable texts.old entries.old.items heads.old.items }
    requires few { length entries.old.items + 1 < 2 ^ 32 }
    requires short { length text.now < 2 ^ 16 }
    ensures table { IsTable texts.new entries.new.items heads.new.items }
    ensures kept { KeepsTexts texts.old entries.old.items texts.new entries.new.items }
    ensures value { AddsText (length entries.old.items) texts.new entries.new.items hash text.now result }
    ensures err { OnErr result (texts.new ≡ texts.old) }
{
    grow(entries, heads)?;
    entries.reserve(1)?;
    let place = texts.push(text)?;
    let b = bucket(hash, heads.len());
    let number = entries.len() as u32;
    entries.push(Entry {
        place,
        next: heads[b],
        hash,
    })?;
    heads[b] = number + 1;
    Ok(number)
}

/// How many entries are looked at for one without a text.
pub const LOOKED_AT: usize = 64;

/// A number whose text is empty, looked for among so many from `from` on.
pub fn empty_number(entries: &[Entry], from: usize) -> Option<u32>
    ensures { IfSome result (λ i. (i < length entries.now)
        × (length_of (dict_entry_at entries.now i).place ≡ 0)) }
{
    let end = entries.len().min(from.saturating_add(LOOKED_AT));
    for i in from..end {
        if entries[i].place.length() == 0 {
            return u32::try_from(i).ok();
        }
    }
    None
}

/// The least number of the bucket's chain that is greater than this one, if there is one.
fn above(entries: &[Entry], heads: &[u32], bucket: usize, number: usize) -> Option<usize>
    requires inside { bucket < length heads.now }
    requires linked { IsLinkedPast (length entries.now) number entries.now heads.now }
    ensures { IsLeastAbove (length entries.now) number (bucket_at (length heads.now) entries.now)
        (link_after entries.now) (slice_index heads.now) bucket result }
{
    let mut above = None;
    let mut link = heads[bucket] as usize;
    while link > 0 && link - 1 > number {
        above = Some(link - 1);
        link = entries[link - 1].next as usize;
    }
    above
}

/// The link after the number above, or the bucket's, where there is none.
fn link_from(entries: &[Entry], heads: &[u32], bucket: usize, above: Option<usize>) -> u32
    requires inside { bucket < length heads.now }
    requires given { IfSome above (λ a. a < length entries.now) }
    ensures { result ≡ link_from_number (link_after entries.now) (slice_index heads.now) bucket above }
{
    match above {
        None => heads[bucket],
        Some(number) => entries[number].next,
    }
}

/// Writes the link after the number above, or the bucket's, where there is none.
fn set_link(
    entries: &mut [Entry],
    heads: &mut [u32],
    bucket: usize,
    above: Option<usize>,
    link: u32,
)
    requires inside { bucket < length heads.old }
    requires given { IfSome above (λ a. a < length entries.old) }
    ensures set { IsLinkSet bucket above link (link_after entries.old) (slice_index heads.old)
        (link_after entries.new) (slice_index heads.new) }
    ensures kept { Agree entries.old entries.new }
{
    match above {
        None => heads[bucket] = link,
        Some(number) => entries[number].next = link,
    }
}

/// Takes a number out of the chain of its hash.
#[tactic(auto, using(crate::proofs::GiveLemmas::linked_out))]
fn take_out(entries: &mut [Entry], heads: &mut [u32], number: usize)
    requires some { 0 < length heads.old }
    requires given { number < length entries.old }
    requires linked { IsLinked (length entries.old) entries.old heads.old }
    ensures linked { IsLinkedBut (length entries.new) number entries.new heads.new }
    ensures kept { Agree entries.old entries.new }
{
    let bucket = bucket(entries[number].hash, heads.len());
    let above = above(entries, heads, bucket, number);
    let next = entries[number].next;
    set_link(entries, heads, bucket, above, next);
}

/// Puts a number into the chain of its hash, in which it was not.
#[tactic(auto, using(crate::proofs::GiveLemmas::linked_in))]
fn put_in(entries: &mut [Entry], heads: &mut [u32], number: usize)
    requires some { 0 < length heads.old }
    requires given { number < length entries.old }
    requires few { length entries.old < 2 ^ 32 }
    requires linked { IsLinkedBut (length entries.old) number entries.old heads.old }
    ensures linked { IsLinked (length entries.new) entries.new heads.new }
    ensures kept { Agree entries.old entries.new }
{
    let bucket = bucket(entries[number].hash, heads.len());
    let above = above(entries, heads, bucket, number);
    entries[number].next = link_from(entries, heads, bucket, above);
    set_link(entries, heads, bucket, above, number as u32 + 1);
}

/// Gives a number this place and this hash, and moves it to the chain of this hash.
#[tactic(auto, using(crate::proofs::GiveLemmas::but_set, crate::proofs::GiveLemmas::moved))]
fn move_to(entries: &mut [Entry], heads: &mut [u32], number: usize, place: Place, hash: u32)
    requires some { 0 < length heads.old }
    requires given { number < length entries.old }
    requires few { length entries.old < 2 ^ 32 }
    requires linked { IsLinked (length entries.old) entries.old heads.old }
    ensures linked { IsLinked (length entries.new) entries.new heads.new }
    ensures moved { Agree (slice_set entries.old number (record { place = place; next = 0; hash = hash }))
        entries.new }
{
    take_out(entries, heads, number);
    entries[number] = Entry {
        place,
        next: entries[number].next,
        hash,
    };
    put_in(entries, heads, number);
}

/// Gives another text to a number that has one. Where memory is wanted, nothing changes.
pub fn give(
    texts: &mut Texts,
    entries: &mut Vec<Entry>,
    heads: &mut Vec<u32>,
    number: u32,
    text: &[u8],
    hash: u32,
) -> Result<(), AllocError>
    requires table { IsTable texts.old entries.old.items heads.old.items }
    requires given { number < length entries.old.items }
    requires few { length entries.old.items < 2 ^ 32 }
    requires short { length text.now < 2 ^ 16 }
    ensures table { IsTable texts.new entries.new.items heads.new.items }
    ensures others { KeepsOtherTexts number texts.old entries.old.items texts.new entries.new.items }
    ensures ok { OnOk result (EntryHas texts.new entries.new.items number hash text.now) }
    ensures count { length entries.new.items ≡ length entries.old.items }
    ensures err { OnErr result ((texts.new ≡ texts.old) × (entries.new.items ≡ entries.old.items)
        × (heads.new.items ≡ heads.old.items)) }
{
    let place = texts.push(text)?;
    move_to(entries, heads, number as usize, place, hash);
    Ok(())
}
