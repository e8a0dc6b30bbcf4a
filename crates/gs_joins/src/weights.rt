//! Keys as one number, whose first digits are any of their places.
ghost use Rattle.std.specs.Prelude.{◌≡◌};
ghost use Rattle.gs_joins.specs.Lots.{joined_numbers as joined_of, weight_of, first_of};

use gs_pool::Key;

/// Which place of a key comes first. The others follow it in their circle.
#[derive(Clone, Copy)]
pub enum Turn {
    Subject,
    Predicate,
    Object,
}

/// Three numbers as one, the first counting most.
fn joined(first: u32, second: u32, third: u32) -> u128
    ensures { result ≡ joined_of first second third }
{
    (u128::from(first) * 4_294_967_296 + u128::from(second)) * 4_294_967_296 + u128::from(third)
}

/// The number that comes first.
pub fn first_number(turn: Turn, key: Key) -> u32
    ensures { result ≡ first_of turn key }
{
    match turn {
        Turn::Subject => key.subject,
        Turn::Predicate => key.predicate,
        Turn::Object => key.object,
    }
}

/// The numbers of a key as one, from one of its places on.
pub fn weight(turn: Turn, key: Key) -> u128
    ensures { result ≡ weight_of turn key }
{
    match turn {
        Turn::Subject => joined(key.subject, key.predicate, key.object),
        Turn::Predicate => joined(key.predicate, key.object, key.subject),
        Turn::Object => joined(key.object, key.subject, key.predicate),
    }
}
