//! Marks for the numbers of terms.
ghost use Rattle.std.specs.Prelude.{◌≡◌, ℕ, is_some, slice_set, true};
ghost use Rattle.gs_pool.specs.Pool.{node_at};
ghost use Rattle.gs_keys.specs.Marks.{KeepsMarked, IsMarkedKey, IsMarkedNode, MarksOnlyKey, MarksOnlyNodes};

use gs_pool::{Key, Pool};

// Marks a number, where there is a mark for it.
#[tactic(auto, using(std::proofs::lemmas::List::set_past))]
fn mark_number(number: u32, marks: &mut [bool])
    ensures { marks.new ≡ slice_set marks.old number true }
{
    let place = number as usize;
    if place < marks.len() {
        marks[place] = true;
    }
}

/// Marks the numbers of a key's terms. Numbers past the marks are left out.
#[tactic(auto, using(crate::proofs::KeyMarkLemmas::key_kept, crate::proofs::KeyMarkLemmas::key_marked, crate::proofs::KeyMarkLemmas::key_only))]
pub fn mark_key(key: Key, marks: &mut [bool])
    ensures kept { KeepsMarked marks.old marks.new }
    ensures marked { IsMarkedKey marks.new key }
    ensures only { MarksOnlyKey key marks.old marks.new }
{
    mark_number(key.subject, marks);
    mark_number(key.predicate, marks);
    mark_number(key.object, marks);
}

// Marks the numbers of a node's key, and answers whether the node is in use.
fn mark_node(pool: &Pool, id: u32, marks: &mut [bool]) -> bool
    ensures used { result ≡ is_some (node_at pool.now id) }
    ensures kept { KeepsMarked marks.old marks.new }
    ensures marked { IsMarkedNode pool.now marks.new id }
    ensures only { MarksOnlyNodes pool.now marks.old marks.new }
{
    let used = pool.is_in_use(id);
    if used {
        mark_key(pool.get(id).key, marks);
    }
    used
}

/// Marks the numbers of the terms of all nodes' keys in a pool. Linear in its numbers. Takes no memory.
pub fn mark_nodes(pool: &Pool, marks: &mut [bool])
    ensures kept { KeepsMarked marks.old marks.new }
    ensures marked { (id : ℕ) → IsMarkedNode pool.now marks.new id }
    ensures only { MarksOnlyNodes pool.now marks.old marks.new }
{
    let mut left = pool.nodes_in_use();
    let mut id = 0;
    while left > 0 {
        if mark_node(pool, id, marks) {
            left -= 1;
        }
        id += 1;
    }
}
