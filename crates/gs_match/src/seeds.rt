//! Lists that leave few numbers for a variable.
ghost use Rattle.std.specs.Prelude.{◌≡◌, true, MatchOption};
ghost use Rattle.gs_match.specs.Seeds.{IsNamed, IsTurnOf, IsSeed};

use gs_joins::{Item, Lot, Sought, Turn};
use gs_term::VariableName;

/// How many keys a list may have whose numbers are looked up one by one.
const FEW: usize = 1_024;

/// A list that leaves few numbers for a variable, and where they stand in its keys.
#[derive(Clone, Copy)]
pub struct Seed {
    pub at: usize,
    pub turn: Turn,
}

/// Whether an item is this variable.
fn is_named(item: &Item, name: &VariableName) -> bool
    ensures { result ≡ true → IsNamed item.now name.now }
{
    match item {
        Item::Number(_) => false,
        Item::Variable(other) => other.as_str() == name.as_str(),
    }
}

/// Where a pattern has a variable.
pub fn turn_of(sought: &Sought, name: &VariableName) -> Option<Turn>
    ensures { MatchOption result (Unit {0}) (IsTurnOf sought.now name.now) }
{
    if is_named(&sought.subject, name) {
        return Some(Turn::Subject);
    }
    if is_named(&sought.predicate, name) {
        return Some(Turn::Predicate);
    }
    if is_named(&sought.object, name) {
        return Some(Turn::Object);
    }
    None
}

/// The list with the fewest keys of those that have few, and this variable in their patterns.
pub fn seed_for(lots: &[Lot], name: &VariableName) -> Option<Seed>
    ensures { MatchOption result (Unit {0}) (IsSeed lots.now name.now) }
{
    let mut seed = None;
    let mut least = FEW;
    for (at, lot) in lots.iter().enumerate() {
        if lot.keys.len() > least {
            continue;
        }
        if let Some(turn) = turn_of(&lot.sought, name) {
            least = lot.keys.len();
            seed = Some(Seed { at, turn });
        }
    }
    seed
}
