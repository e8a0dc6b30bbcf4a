//! As how many triples a page counts what it stores. What takes more memory counts as more, so that a page
//! has a bound in bytes.
ghost use Rattle.std.specs.Prelude.{◌≡◌, ◌+◌, ◌/◌, ◌<◌, ◌^◌};
ghost use Rattle.std.specs.List.{sum_by};
ghost use Rattle.gs_triple_lists.specs.Readers.{triple_listed};
ghost use Rattle.gs_chronicle.specs.Sizes.{triple_size as size_of_triple, triples_size, pattern_part_bytes, pattern_size as size_of_pattern, stopped_count, triple_times, op_size as size_of_op, ops_size as size_of_ops};

use crate::kept_ops::MOST_FORMS;
use gs_event::Op;
use gs_term::{Part, Pattern};
use gs_triple_lists::{ListedTriple, TripleList};

/// So many bytes of texts count as one triple more.
const BYTES: usize = 32;

/// As how many triples an operation of a patch counts beside those that it has. Its form takes some 230 bytes
/// beside its texts, and what it was made of some 300.
const OPERATION: usize = 16;

/// How often each pattern of a patch counts, and each triple of a patch of very many operations: these are
/// kept as they came, and take some 200 bytes beside their texts.
const TIMES: usize = 8;

/// As how many triples three texts of so many bytes count.
fn texts_size(first: usize, second: usize, third: usize) -> usize
    ensures value { result ≡ 1 + (first + second + third) / 32 }
    ensures few { result < 2 ^ 61 }
{
    let rest = first % BYTES + second % BYTES + third % BYTES;
    1 + first / BYTES + second / BYTES + third / BYTES + rest / BYTES
}

/// As how many a triple counts.
fn triple_size(triple: ListedTriple) -> usize
    ensures { result ≡ size_of_triple (triple_listed triple.entry) }
{
    texts_size(
        triple.subject().as_bytes().len(),
        triple.predicate().as_bytes().len(),
        triple.object().as_bytes().len(),
    )
}

/// As how many triples a list counts: each once, and once more for each 32 bytes of its texts. Linear in
/// its triples.
pub fn list_size(list: &TripleList) -> usize
    ensures { result ≡ triples_size list.now.items }
{
    let mut size = 0usize;
    let mut left = list.triples();
    while let Some(triple) = left.next() {
        size = size.saturating_add(triple_size(triple));
    }
    size
}

/// How many bytes a part of a pattern has.
fn part_bytes(part: &Part) -> usize
    ensures { result ≡ pattern_part_bytes part.now }
{
    match part {
        Part::Term(term) => term.as_bytes().len(),
        Part::Variable(name) => name.as_str().len(),
    }
}

/// As how many triples a pattern counts.
fn pattern_size(pattern: &Pattern) -> usize
    ensures { result ≡ size_of_pattern pattern.now }
{
    texts_size(
        part_bytes(&pattern.subject),
        part_bytes(&pattern.predicate),
        part_bytes(&pattern.object),
    )
}

/// As how many triples patterns count.
fn patterns_size(patterns: &[Pattern]) -> usize
    ensures { result ≡ stopped_count (sum_by size_of_pattern patterns.now) }
{
    let mut size = 0usize;
    for pattern in patterns {
        size = size.saturating_add(pattern_size(pattern));
    }
    size
}

/// As how many triples an operation counts, each of whose triples counts so often.
fn op_size(op: &Op, times: usize) -> usize
    ensures { result ≡ stopped_count (size_of_op times op.now) }
{
    let size = match op {
        Op::Insert(triples) => list_size(triples).saturating_mul(times),
        Op::DeleteData(triples) => list_size(triples).saturating_mul(times),
        Op::DeleteWhere(patterns) => patterns_size(patterns).saturating_mul(TIMES),
    };
    size.saturating_add(OPERATION)
}

/// How often each triple counts of a patch of so many operations.
fn times_of(count: usize) -> usize
    ensures { result ≡ triple_times count }
{
    if count > MOST_FORMS { TIMES } else { 1 }
}

/// As how many triples these operations count, with repeats: each 16, each triple as one of a list does, or
/// eight times where there are more than 1,024 operations, and each pattern eight times, and eight times more
/// for each 32 bytes of its texts.
pub fn ops_size(ops: &[Op]) -> usize
    ensures { result ≡ size_of_ops ops.now }
{
    let times = times_of(ops.len());
    let mut size = 0usize;
    for op in ops {
        size = size.saturating_add(op_size(op, times));
    }
    size
}
