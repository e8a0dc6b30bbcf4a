//! Triples in the order of their lines, each once. To sort them, their terms are sorted by their texts,
//! which are compared there alone, and then the triples by the ranks of their terms.
ghost use Rattle.std.specs.Prelude.{◌≡◌, ◌-◌, ◌<◌, true, length, slice_index, IfOk};
ghost use Rattle.std.specs.List.{range_with_len};
ghost use Rattle.std.specs.List.Sorted.{IsPermutation, IsSorted, IsStrictlySortedBy};
ghost use Rattle.gs_model.specs.Terms.{text_of as text_of_term};
ghost use Rattle.gs_model.specs.Triples.{triple_cmp};
ghost use Rattle.gs_triple_lists.specs.Kept.{term_of_number, triple_of_numbers, triples_of_numbers, AreTriplesIn};
ghost use Rattle.gs_triple_lists.specs.Orders.{IsOrderOf, text_cmp, AreByText, IsRankOf, AreRanks, rank_cmp, has_same_ranks};

use crate::lists::TripleNumbers;
use gs_term::TermText;
use std::alloc::{AllocError, Global};
use std::cmp::Ordering;

/// What a list knows of the order of its triples.
#[derive(Clone, Copy, Debug, Drop)]
pub enum Order {
    /// Nothing.
    Unknown,
    /// They came in order, each once.
    AsTheyCame,
    /// They stand in order apart, each once.
    Apart,
}

/// The text of a number, which is `<>` where no term has it.
fn text_of(terms: &[TermText], number: u32) -> &[u8]
    ensures { result.now ≡ text_of_term (term_of_number terms.now number) }
{
    match terms.get(number as usize) {
        None => b"<>",
        Some(term) => term.as_bytes(),
    }
}

/// How the texts of two numbers compare. Those of one number are not read.
fn compare_texts(terms: &[TermText], a: u32, b: u32) -> Ordering
    ensures { result ≡ text_cmp terms.now a b }
{
    if a == b {
        return Ordering::Equal;
    }
    text_of(terms, a).cmp(&text_of(terms, b))
}

/// How two triples compare, by their texts.
fn compare(terms: &[TermText], a: TripleNumbers, b: TripleNumbers) -> Ordering
    ensures { result ≡ triple_cmp (triple_of_numbers terms.now a) (triple_of_numbers terms.now b) }
{
    match compare_texts(terms, a.subject, b.subject) {
        Ordering::Equal => {}
        other => return other,
    }
    match compare_texts(terms, a.predicate, b.predicate) {
        Ordering::Equal => compare_texts(terms, a.object, b.object),
        other => other,
    }
}

/// Whether each triple comes before the next.
pub fn is_rising(terms: &[TermText], numbers: &[TripleNumbers]) -> bool
    ensures { result ≡ true → IsStrictlySortedBy triple_cmp (triples_of_numbers terms.now numbers.now) }
{
    for next in 1..numbers.len() {
        if !matches!(
            compare(terms, numbers[next - 1], numbers[next]),
            Ordering::Less
        ) {
            return false;
        }
    }
    true
}

/// The numbers from 0 on, so many.
fn first_numbers(alloc: Global, count: u32) -> Result<Vec<u32>, AllocError>
    ensures { IfOk result (λ v. v.items ≡ range_with_len 0 count) }
{
    let mut numbers = Vec::with_capacity(alloc, count as usize)?;
    for number in 0..count {
        numbers.push(number)?;
    }
    Ok(numbers)
}

/// Sorts numbers by their texts.
fn sort_by_text(terms: &[TermText], numbers: &mut [u32])
    ensures permutation { IsPermutation numbers.old numbers.new }
    ensures sorted { IsSorted (text_cmp terms.now) numbers.new }
{
    numbers.sort_unstable_by(|a, b| compare_texts(terms, *a, *b));
}

/// The numbers of all terms, in the order of their texts.
fn numbers_by_text(alloc: Global, terms: &[TermText]) -> Result<Vec<u32>, AllocError>
    ensures { IfOk result (λ v. AreByText terms.now v.items) }
{
    let Ok(count) = u32::try_from(terms.len()) else {
        return Err(AllocError);
    };
    let mut numbers = first_numbers(alloc, count)?;
    sort_by_text(terms, numbers.as_mut_slice());
    Ok(numbers)
}

/// The rank of the term at a place, after the rank of the one before it: its place, or that rank
/// where the two have one text.
fn rank_at(terms: &[TermText], by_text: &[u32], place: usize, before: u32) -> u32
    requires sorted { AreByText terms.now by_text.now }
    requires within { place < length by_text.now }
    requires before { 0 < place
        → IsRankOf terms.now by_text.now (term_of_number terms.now (slice_index by_text.now (place - 1)))
        before }
    ensures { IsRankOf terms.now by_text.now (term_of_number terms.now (slice_index by_text.now place))
        result }
{
    if place == 0 {
        return 0;
    }
    match compare_texts(terms, by_text[place - 1], by_text[place]) {
        Ordering::Less => place as u32,
        _ => before,
    }
}

/// The ranks of all terms, by number. Terms of one text have one rank.
fn ranks_of(alloc: Global, terms: &[TermText], by_text: &[u32]) -> Result<Vec<u32>, AllocError>
    requires { AreByText terms.now by_text.now }
    ensures { IfOk result (λ v. AreRanks terms.now v.items) }
{
    let mut ranks = vec![in alloc; 0u32; terms.len()]?;
    let mut rank = 0u32;
    for place in 0..by_text.len() {
        rank = rank_at(terms, by_text, place, rank);
        ranks[by_text[place] as usize] = rank;
    }
    Ok(ranks)
}

/// The rank of a number, which is 0 where it has none.
fn rank_of(ranks: &[u32], number: u32) -> u32
    ensures { result ≡ slice_index ranks.now number }
{
    ranks.get(number as usize).copied().unwrap_or(0)
}

/// How two triples compare, by their ranks.
fn compare_ranks(ranks: &[u32], a: TripleNumbers, b: TripleNumbers) -> Ordering
    ensures { result ≡ rank_cmp ranks.now a b }
{
    match rank_of(ranks, a.subject).cmp(&rank_of(ranks, b.subject)) {
        Ordering::Equal => {}
        other => return other,
    }
    match rank_of(ranks, a.predicate).cmp(&rank_of(ranks, b.predicate)) {
        Ordering::Equal => rank_of(ranks, a.object).cmp(&rank_of(ranks, b.object)),
        other => other,
    }
}

/// Whether two triples have the same ranks.
fn is_same(ranks: &[u32], a: TripleNumbers, b: TripleNumbers) -> bool
    ensures { result ≡ has_same_ranks ranks.now a b }
{
    matches!(compare_ranks(ranks, a, b), Ordering::Equal)
}

/// Sorts triples by their ranks.
fn sort_by_rank(ranks: &[u32], numbers: &mut [TripleNumbers])
    ensures permutation { IsPermutation numbers.old numbers.new }
    ensures sorted { IsSorted (rank_cmp ranks.now) numbers.new }
{
    numbers.sort_unstable_by(|a, b| compare_ranks(ranks, *a, *b));
}

/// Puts triples in order by their ranks, and drops repeats.
fn put_in_order(terms: &[TermText], ranks: &[u32], numbers: &mut Vec<TripleNumbers>)
    requires ranks { AreRanks terms.now ranks.now }
    requires known { AreTriplesIn terms.now numbers.old.items }
    ensures { IsOrderOf terms.now (triples_of_numbers terms.now numbers.old.items) numbers.new.items }
{
    sort_by_rank(ranks, numbers.as_mut_slice());
    numbers.dedup_by(|a, b| is_same(ranks, *a, *b));
}

/// The triples in order, each once.
pub fn sorted(
    alloc: Global,
    terms: &[TermText],
    numbers: &[TripleNumbers],
) -> Result<Vec<TripleNumbers>, AllocError>
    requires { AreTriplesIn terms.now numbers.now }
    ensures { IfOk result (λ v. IsOrderOf terms.now (triples_of_numbers terms.now numbers.now) v.items) }
{
    let by_text = numbers_by_text(alloc, terms)?;
    let ranks = ranks_of(alloc, terms, &by_text)?;
    let mut order = Vec::from_slice(alloc, numbers)?;
    put_in_order(terms, &ranks, &mut order);
    Ok(order)
}
