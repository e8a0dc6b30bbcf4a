//! Keys in the order of their texts, each once.
ghost use Rattle.std.specs.Prelude.{◌≡◌, ◌&&◌, ◌==◌, ◌<◌, ◌≤◌, ◌++◌, true, length, take, drop};
ghost use Rattle.std.specs.List.Sorted.{IsPermutation, IsSorted};
ghost use Rattle.gs_dict.specs.Numbering.{IsDistinct};
ghost use Rattle.gs_tree.specs.Keys.{AllKeys};
ghost use Rattle.gs_keys.specs.Texts.{key_cmp, IsGiven, dict_of};
ghost use Rattle.gs_staging.specs.Keys.{is_same as is_same_key, IsRunOf};
ghost use Rattle.gs_staging.specs.Groups.{is_before as is_before_by, IsInOrder, SortsWithin, MayFollowKey, MayPrecede};

use gs_keys::ByText;
use gs_pool::Key;
use gs_tree::{KeyOrder, is_rising};
use std::cmp::Ordering;

/// How many keys a group may pass on the way to its place. A group that belongs farther away is
/// left to the library's sort, so that long lists in no order take no time that grows by the square.
const FARTHEST: usize = 1024;

/// Whether two keys have the same numbers. No text is read.
fn is_same(a: Key, b: Key) -> bool
    ensures { result ≡ is_same_key a b }
{
    a.subject == b.subject && a.predicate == b.predicate && a.object == b.object
}

/// Whether a quarter of the keys, rounded down, have the subject of the key before them. No text is read.
fn has_groups(keys: &[Key]) -> bool {
    let mut again = 0usize;
    for next in 1..keys.len() {
        if keys[next].subject == keys[next - 1].subject {
            again = again.saturating_add(1);
        }
    }
    again >= keys.len() / 4
}

/// Where the keys end that have the subject of the key at `from`.
fn group_end(keys: &[Key], from: usize) -> usize
    requires { from < length keys.now }
    ensures some { from < result }
    ensures within { result ≤ length keys.now }
{
    let subject = keys[from].subject;
    let mut end = from + 1;
    'group: while end < keys.len() {
        if keys[end].subject != subject {
            return end;
        }
        end += 1;
    }
    end
}

/// Sorts the keys from `from` up to `end`.
fn sort_group(order: &ByText, keys: &mut [Key], from: usize, end: usize)
    requires some { from < end }
    requires within { end ≤ length keys.old }
    ensures permutation { IsPermutation keys.old keys.new }
    ensures sorted { SortsWithin order.now.dict.now.terms keys.old keys.new from end }
{
    keys[from..end].sort_unstable_by(|a, b| order.compare(*a, *b));
}

/// Whether a key comes before another.
fn is_before(order: &ByText, a: Key, b: Key) -> bool
    ensures { result ≡ is_before_by order.now.dict.now.terms a b }
{
    matches!(order.compare(a, b), Ordering::Less)
}

/// Whether the key at `from` may stand right after those before `place`.
fn may_follow(order: &ByText, keys: &[Key], place: usize, from: usize) -> bool
    requires before { place ≤ from }
    requires within { from < length keys.now }
    ensures { result ≡ true → MayFollowKey order.now.dict.now.terms keys.now place from }
{
    if place == 0 {
        return true;
    }
    !is_before(order, keys[from], keys[place - 1])
}

/// Whether the key right before `end` may stand right before the key at `place`.
fn may_precede(order: &ByText, keys: &[Key], place: usize, end: usize) -> bool
    requires before { place < end }
    requires within { end ≤ length keys.now }
    ensures { result ≡ true → MayPrecede order.now.dict.now.terms keys.now place end }
{
    !is_before(order, keys[place], keys[end - 1])
}

/// The place of a key among those before `end`, by halves, where they are in order.
fn place_among(order: &ByText, keys: &[Key], end: usize, key: Key) -> usize
    requires { end ≤ length keys.now }
    ensures { result ≤ end }
{
    let mut low = end.saturating_sub(FARTHEST);
    let mut high = end;
    'halves: while low < high {
        let middle = low + (high - low) / 2;
        if is_before(order, keys[middle], key) {
            low = middle + 1;
        } else {
            high = middle;
        }
    }
    low
}

/// Has the keys from `mid` on stand before the others.
fn turn(keys: &mut [Key], mid: usize)
    requires { mid ≤ length keys.old }
    ensures { keys.new ≡ drop mid keys.old ++ take mid keys.old }
{
    let (low, high) = keys.split_at_mut(mid);
    low.reverse();
    high.reverse();
    keys.reverse();
}

/// Sorts a group, and puts it in its place among the keys before it, which are in order: whether
/// it was found.
fn settle_group(order: &ByText, keys: &mut [Key], from: usize, end: usize) -> bool
    requires some { from < end }
    requires within { end ≤ length keys.old }
    ensures permutation { IsPermutation keys.old keys.new }
    ensures sorted { result ≡ true → IsInOrder order.now.dict.now.terms keys.old from
        → IsInOrder order.now.dict.now.terms keys.new end }
{
    sort_group(order, keys, from, end);
    if may_follow(order, keys, from, from) {
        return true;
    }
    let place = place_among(order, keys, from, keys[from]);
    if !may_follow(order, keys, place, from) {
        return false;
    }
    if !may_precede(order, keys, place, end) {
        return false;
    }
    turn(&mut keys[place..end], from - place);
    true
}

/// Sorts keys that stand in groups of one subject, which are nearly in order: whether that was done.
/// Within a group no text of a subject is read.
fn sort_groups(order: &ByText, keys: &mut [Key]) -> bool
    ensures permutation { IsPermutation keys.old keys.new }
    ensures sorted { result ≡ true → IsInOrder order.now.dict.now.terms keys.new (length keys.new) }
{
    if !has_groups(keys) {
        return false;
    }
    let mut from = 0;
    'groups: while from < keys.len() {
        let end = group_end(keys, from);
        if !settle_group(order, keys, from, end) {
            return false;
        }
        from = end;
    }
    true
}

/// Sorts keys: by groups of one subject, or else by the library.
fn sort(order: &ByText, keys: &mut [Key])
    ensures permutation { IsPermutation keys.old keys.new }
    ensures sorted { IsSorted (key_cmp order.now.dict.now.terms) keys.new }
{
    if sort_groups(order, keys) {
        return;
    }
    keys.sort_unstable_by(|a, b| order.compare(*a, *b));
}

/// Puts keys into their order, and drops repeats. Keys that rise already stay as they are. Takes
/// no memory.
pub fn put_in_order(order: &ByText, keys: &mut Vec<Key>)
    requires distinct { IsDistinct (dict_of order.now).terms }
    requires given { AllKeys (IsGiven (dict_of order.now).terms) keys.old.items }
    ensures { IsRunOf (dict_of order.now).terms keys.old.items keys.new.items }
{
    if is_rising(order, keys.as_slice()) {
        return;
    }
    sort(order, keys.as_mut_slice());
    keys.dedup_by(|a, b| is_same(*a, *b));
}
