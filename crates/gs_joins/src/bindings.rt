//! Variables and the numbers that they are bound to.
ghost use Rattle.std.specs.Prelude.{◌≡◌, IfOk};
ghost use Rattle.gs_joins.specs.Numbers.{number_for as number_for_of, numbers_of, known_number, Binds, BindsKey, Chooses};

use crate::sought::{Item, Sought};
use gs_pool::Key;
use gs_term::VariableName;
use std::alloc::AllocError;

/// A number that no term has: it stands where none is known.
pub const NO_NUMBER: u32 = 4_294_967_295;

/// A variable and the number of the term that it is bound to.
#[derive(Clone, Copy)]
pub struct Bound<'a> {
    pub name: &'a VariableName,
    pub number: u32,
}

/// The number that the variable is bound to.
pub fn number_for(bound: &[Bound], name: &VariableName) -> Option<u32>
    ensures { result ≡ number_for_of (numbers_of bound.now) name.now }
{
    let mut found = None;
    for binding in bound {
        if binding.name.as_str() == name.as_str() {
            found = Some(binding.number);
        }
    }
    found
}

/// The number that an item stands for, where it is known.
pub fn known(item: &Item, bound: &[Bound]) -> u32
    ensures { result ≡ known_number (numbers_of bound.now) item.now }
{
    match item {
        Item::Number(number) => *number,
        Item::Variable(name) => match number_for(bound, name) {
            Some(number) => number,
            None => NO_NUMBER,
        },
    }
}

/// Whether the item stands for the number: it is the number, or a variable that is bound to it, be
/// it only now.
fn bind<'a>(bound: &mut Vec<Bound<'a>>, item: &Item<'a>, number: u32) -> Result<bool, AllocError>
    ensures { Binds bound.old.items bound.new.items item.now number result }
{
    match item {
        Item::Number(own) => Ok(*own == number),
        Item::Variable(name) => match number_for(bound.as_slice(), name) {
            Some(other) => Ok(other == number),
            None => {
                bound.push(Bound { name, number })?;
                Ok(true)
            }
        },
    }
}

/// Whether the key is the pattern's instance under what is bound and what is bound now besides.
fn bind_key<'a>(
    bound: &mut Vec<Bound<'a>>,
    sought: &Sought<'a>,
    key: Key,
) -> Result<bool, AllocError>
    ensures { BindsKey bound.old.items bound.new.items sought.now key result }
{
    if !bind(bound, &sought.subject, key.subject)? {
        return Ok(false);
    }
    if !bind(bound, &sought.predicate, key.predicate)? {
        return Ok(false);
    }
    bind(bound, &sought.object, key.object)
}

/// Whether the key is the pattern's instance under what is bound, and what is bound now besides:
/// nothing where it is not.
pub fn choose<'a>(
    bound: &mut Vec<Bound<'a>>,
    sought: &Sought<'a>,
    key: Key,
) -> Result<bool, AllocError>
    ensures { IfOk result (Chooses bound.old.items bound.new.items sought.now key) }
{
    let before = bound.len();
    let stands = bind_key(bound, sought, key)?;
    if !stands {
        bound.truncate(before);
    }
    Ok(stands)
}
