//! Orders of keys, and runs that rise in one.
ghost use Rattle.std.specs.Prelude.{◌≡◌};
ghost use Rattle.std.specs.Bool.{Decides};
ghost use Rattle.gs_tree.specs.Keys.{IsRising};
ghost use Rattle.gs_tree.specs.Reading.{is_less};

use gs_pool::Key;
use std::cmp::Ordering;

/// An order of keys.
pub trait KeyOrder {
    ghost use Rattle.gs_pool.specs.declared.nodes.Key.{Key};
    ghost use Rattle.std.specs.declared.cmp.Ordering.{Ordering};
    ghost use Rattle.std.specs.Cmp.{IsTotalOrder};

    ghost compare: { Self → Key → Key → Ordering };

    fn compare(&self, a: Key, b: Key) -> Ordering
        ensures { result ≡ compare self.now a b };

    ghost total: { (order : Self) → IsTotalOrder (compare order) };
}

// Whether a key is below another.
fn is_below<O: KeyOrder>(order: &O, a: Key, b: Key) -> bool
    ensures { result ≡ is_less (O.compare order.now a b) }
{
    matches!(order.compare(a, b), Ordering::Less)
}

/// Whether each key of a run is below all later ones, as `union` asks for.
pub fn is_rising<O: KeyOrder>(order: &O, run: &[Key]) -> bool
    ensures { Decides result (IsRising (O.compare order.now) run.now) }
{
    let mut next = 1;
    'keys: while next < run.len() {
        if !is_below(order, run[next - 1], run[next]) {
            return false;
        }
        next += 1;
    }
    true
}
