//! A name for a request, by a number.
ghost use Rattle.std.specs.Prelude.{◌≡◌, true, IfOk, string_bytes};
ghost use Rattle.gs_model.specs.Bases.{is_base};
ghost use Rattle.gs_event.specs.Names.{made_name as made_name_of};

use gs_model::Refusal;
use gs_term::GraphName;
use itoa::Buffer;
use std::alloc::{AllocError, Global};

/// `<base>/graphs/n<request>-<number>`, both in decimal. The numbers of a request are tried from 0 on.
pub fn made_name(
    alloc: Global,
    base: &str,
    request: u64,
    number: u64,
) -> Result<GraphName, AllocError>
    requires { is_base base.now ≡ true }
    ensures { IfOk result (λ name. name ≡ made_name_of base.now request number) }
{
    let text = name_text(alloc, base, request, number)?;
    match GraphName::new(alloc, text.as_str()) {
        Ok(name) => Ok(name),
        Err(refusal) => match refusal {
            Refusal::NoMemory => Err(AllocError),
            _ => unreachable!(),
        },
    }
}

// The text of the name.
fn name_text(alloc: Global, base: &str, request: u64, number: u64) -> Result<String, AllocError>
    ensures { IfOk result (λ text. string_bytes text ≡ made_name_of base.now request number) }
{
    let mut first = Buffer::new();
    let mut second = Buffer::new();
    let mut text = String::from_str(alloc, base)?;
    text.push_str("/graphs/n")?;
    text.push_str(first.format(request))?;
    text.push_str("-")?;
    text.push_str(second.format(number))?;
    Ok(text)
}
