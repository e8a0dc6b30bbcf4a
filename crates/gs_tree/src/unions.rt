//! Keys into a set: a run of keys as one union, and a key as the union of one.
ghost use Rattle.std.specs.Prelude.{◌≡◌, ℕ, ◌+◌, ◌^◌, ◌<◌, ◌≤◌, [], ◌∷◌, length, drop, Option, IsOk, IfOk, OnOk, OnErr, IfSome, OnSome, true};
ghost use Rattle.gs_pool.specs.Pool.{room};
ghost use Rattle.std.specs.declared.cmp.Ordering.TheVariants.{Less};
ghost use Rattle.gs_tree.specs.Keys.{AllKeys, IsRising, Places};
ghost use Rattle.gs_tree.specs.Merging.{BuiltAt, CanMergeAt, MergesAt, CutAtKey, IsAsHigh};
ghost use Rattle.gs_tree.specs.Tree.{IsRoot, height_at};
ghost use Rattle.gs_tree.specs.Steps.{SameTotal};
ghost use Rattle.gs_tree.specs.Reading.{keys_at};
ghost use Rattle.gs_tree.specs.Sets.{IsSetAt, UnitesAt, GainsKey, IsCheap, HasUnionRoom};

use crate::balance::{copy_if_older, height_of, link, rejoin};
use crate::orders::KeyOrder;
use crate::room::copy_bound;
use gs_pool::{Key, Node, Pool};
use std::alloc::AllocError;
use std::cmp::Ordering;

// Where a key stands in a run: the keys before `before` are below it, those from `after` on above it.
#[derive(Clone, Copy)]
struct Place {
    before: usize,
    after: usize,
}

// A key's place in a run: the last and the first key are tried, and then the halves.
fn find_place<O: KeyOrder>(order: &O, run: &[Key], key: Key) -> Place
    requires rising { IsRising (O.compare order.now) run.now }
    requires some { 0 < length run.now }
    ensures { Places (O.compare order.now) key run.now result.before result.after }
{
    let last = run.len() - 1;
    match order.compare(run[last], key) {
        Ordering::Less => {
            return Place {
                before: last + 1,
                after: last + 1,
            };
        }
        Ordering::Equal => {
            return Place {
                before: last,
                after: last + 1,
            };
        }
        Ordering::Greater => {}
    }
    if last == 0 {
        return Place {
            before: 0,
            after: 0,
        };
    }
    match order.compare(run[0], key) {
        Ordering::Greater => {
            return Place {
                before: 0,
                after: 0,
            };
        }
        Ordering::Equal => {
            return Place {
                before: 0,
                after: 1,
            };
        }
        Ordering::Less => {}
    }
    find_below(order, run, key, last)
}

// A key's place in a run, by halves, where the keys from `end` on are above it.
fn find_below<O: KeyOrder>(order: &O, run: &[Key], key: Key, end: usize) -> Place
    requires rising { IsRising (O.compare order.now) run.now }
    requires within { end ≤ length run.now }
    requires above { AllKeys (λ x. O.compare order.now key x ≡ Less) (drop end run.now) }
    ensures { Places (O.compare order.now) key run.now result.before result.after }
{
    let mut from = 0;
    let mut to = end;
    'halves: while from < to {
        let middle = from + (to - from) / 2;
        match order.compare(run[middle], key) {
            Ordering::Less => from = middle + 1,
            Ordering::Equal => {
                return Place {
                    before: middle,
                    after: middle + 1,
                };
            }
            Ordering::Greater => to = middle,
        }
    }
    Place {
        before: from,
        after: from,
    }
}

/// Makes a tree of new nodes, one for each key of a run, by halves. Takes no memory.
pub fn build(pool: &mut Pool, run: &[Key], birth: u64) -> Option<u32>
    requires { length run.now ≤ room pool.old }
    ensures { BuiltAt birth pool.old pool.new run.now result }
{
    if run.is_empty() {
        return None;
    }
    let (low, rest) = run.split_at(run.len() / 2);
    let (_, high) = rest.split_at(1);
    let key = rest[0];
    let left = build(pool, low, birth);
    let top = pool.alloc_reserved(Node {
        key,
        left: None,
        right: None,
        height: 1,
        birth,
    });
    let right = build(pool, high, birth);
    link(pool, top, left, key, right, birth);
    Some(top)
}

/// A set after a run of keys went into it, and how many of them it lacked.
#[derive(Clone, Copy)]
pub struct Merged {
    pub root: Option<u32>,
    pub added: usize,
}

// How many keys of a run both sides lacked.
fn lacked(left: usize, right: usize) -> usize
    requires { left + right < 2 ^ 64 }
    ensures { result ≡ left + right }
{
    left + right
}

// The keys of a run below a key, and those above it.
fn cut_at<'a, O: KeyOrder>(order: &O, run: &'a [Key], key: Key) -> (&'a [Key], &'a [Key])
    requires rising { IsRising (O.compare order.now) run.now }
    requires some { 0 < length run.now }
    ensures { CutAtKey (O.compare order.now) key run.now result.0.now result.1.now }
{
    let at = find_place(order, run, key);
    let (low, _) = run.split_at(at.before);
    let (_, high) = run.split_at(at.after);
    (low, high)
}

// Whether a side is as high as it was. One that gained no key is not read.
fn is_as_high(pool: &Pool, side: Merged, before: u16) -> bool
    requires { IsRoot pool.now side.root }
    ensures { result ≡ true → IsAsHigh pool.now side before }
{
    side.added == 0 || height_of(pool, side.root) == before
}

// The height that a node keeps, where both sides are as high as they were.
fn kept_height(
    pool: &Pool,
    height: u16,
    left: Merged,
    left_before: u16,
    right: Merged,
    right_before: u16,
) -> Option<u16>
    requires left { IsRoot pool.now left.root }
    requires right { IsRoot pool.now right.root }
    ensures height { IfSome result (λ h. h ≡ height) }
    ensures left { OnSome result (IsAsHigh pool.now left left_before) }
    ensures right { OnSome result (IsAsHigh pool.now right right_before) }
{
    if is_as_high(pool, left, left_before) && is_as_high(pool, right, right_before) {
        Some(height)
    } else {
        None
    }
}

// The union of a tree with a run. Where nothing is added, nothing is copied. The sides' heights are read
// before texts are compared, so that memory brings the next node and the texts at once.
fn union_at<O: KeyOrder>(
    pool: &mut Pool,
    order: &O,
    root: Option<u32>,
    run: &[Key],
    since: u64,
    birth: u64,
) -> Merged
    requires can { CanMergeAt (O.compare order.now) since pool.old root run.now }
    requires birth { since ≤ birth }
    ensures { MergesAt (O.compare order.now) since birth pool.old pool.new root run.now result }
{
    if run.is_empty() {
        return Merged { root, added: 0 };
    }
    let Some(id) = root else {
        let made = build(pool, run, birth);
        return Merged {
            root: made,
            added: run.len(),
        };
    };
    let node = pool.get(id);
    let left_before = height_of(pool, node.left);
    let right_before = height_of(pool, node.right);
    let (low, high) = cut_at(order, run, node.key);
    let left = union_at(pool, order, node.left, low, since, birth);
    let right = union_at(pool, order, node.right, high, since, birth);
    let added = lacked(left.added, right.added);
    if added == 0 {
        return Merged { root, added: 0 };
    }
    let top = copy_if_older(pool, id, since, birth);
    let kept = kept_height(pool, node.height, left, left_before, right, right_before);
    let root = Some(rejoin(
        pool, left.root, top, node.key, right.root, kept, since, birth,
    ));
    Merged { root, added }
}

/// Adds a run of keys to a set; those that the set has already stay as they are. Nodes older than
/// `since` stay, so every older root means what it meant. Where memory is refused, nothing changes.
pub fn union<O: KeyOrder>(
    pool: &mut Pool,
    order: &O,
    root: Option<u32>,
    run: &[Key],
    since: u64,
    birth: u64,
) -> Result<Merged, AllocError>
    requires set { IsSetAt (O.compare order.now) pool.old root }
    requires rising { IsRising (O.compare order.now) run.now }
    requires birth { since ≤ birth }
    ensures ok { IfOk result (UnitesAt (O.compare order.now) since birth pool.old pool.new root run.now) }
    ensures had_room { HasUnionRoom since pool.old root (length run.now) → IsOk result }
    ensures total { SameTotal pool.old pool.new }
    ensures kept { OnErr result (pool.new ≡ pool.old) }
{
    let most = run
        .len()
        .saturating_mul(4 * height_of(pool, root) as usize)
        .saturating_add(2);
    let copies = copy_bound(pool, root, since, most);
    pool.reserve(run.len().saturating_add(copies))?;
    Ok(union_at(pool, order, root, run, since, birth))
}

/// Adds a key to a set. It makes at most 8 d + 1 nodes, where the set's size has d binary digits,
/// and none where the set has the key.
pub fn insert<O: KeyOrder>(
    pool: &mut Pool,
    order: &O,
    root: Option<u32>,
    key: Key,
    since: u64,
    birth: u64,
) -> Result<Merged, AllocError>
    requires set { IsSetAt (O.compare order.now) pool.old root }
    requires birth { since ≤ birth }
    ensures ok { IfOk result (UnitesAt (O.compare order.now) since birth pool.old pool.new root (key ∷ [])) }
    ensures keys { IfOk result (GainsKey (O.compare order.now) pool.old pool.new root key) }
    ensures cost { OnOk result (IsCheap (length (keys_at pool.old root)) pool.old pool.new) }
    ensures had_room { HasUnionRoom since pool.old root 1 → IsOk result }
    ensures kept { OnErr result (pool.new ≡ pool.old) }
{
    union(pool, order, root, &[key], since, birth)
}
