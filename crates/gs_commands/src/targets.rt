//! Targets, and the condition that may stand after one.
ghost use Rattle.std.specs.Prelude.{◌≡◌, List, ℕ, IfOk, MatchOption};
ghost use Rattle.gs_commands.specs.Found.{Finds, FindsPair};
ghost use Rattle.gs_commands.specs.Targets.{SaysName, SaysTarget, SaysScope, SaysTargetSince, bracketed};

use crate::words::{after, number, split};
use gs_event::Scope;
use gs_model::memory_apart;
use gs_term::{GraphName, Target};
use std::alloc::{AllocError, Global};

/// The name of a graph, where the bytes are one.
fn read_name(alloc: Global, bytes: &[u8]) -> Result<Option<GraphName>, AllocError>
    ensures { IfOk result (Finds SaysName bytes.now) }
{
    let Ok(text) = str::from_utf8(bytes) else {
        return Ok(None);
    };
    Ok(memory_apart(GraphName::new(alloc, text))?.ok())
}

/// What stands between `<` and `>`.
fn between(text: &[u8]) -> Option<&[u8]>
    ensures { MatchOption result ((name : List ℕ) → ¬ (text.now ≡ bracketed name))
        (λ name. text.now ≡ bracketed name.now) }
{
    let Some((b'<', rest)) = text.split_first() else {
        return None;
    };
    let Some((b'>', name)) = rest.split_last() else {
        return None;
    };
    Some(name)
}

fn read_target(alloc: Global, text: &[u8]) -> Result<Option<Target>, AllocError>
    ensures { IfOk result (Finds SaysTarget text.now) }
{
    if text == b"default".as_slice() {
        return Ok(Some(Target::Default));
    }
    let Some(bytes) = between(text) else {
        return Ok(None);
    };
    match read_name(alloc, bytes)? {
        Some(name) => Ok(Some(Target::Named(name))),
        None => Ok(None),
    }
}

/// A target, or the word for all graphs, which is none.
pub fn read_scope(alloc: Global, text: &[u8]) -> Result<Option<Scope>, AllocError>
    ensures { IfOk result (Finds SaysScope text.now) }
{
    if text == b"all".as_slice() {
        return Ok(Some(Scope::All));
    }
    Ok(read_target(alloc, text)?.map(Scope::One))
}

/// A target, and the number after ` since ` where that stands.
pub fn read_target_since(
    alloc: Global,
    text: &[u8],
) -> Result<Option<(Target, Option<u64>)>, AllocError>
    ensures { IfOk result (FindsPair SaysTargetSince text.now) }
{
    let (front, rest) = split(text, b' ');
    if rest.is_empty() {
        return match read_target(alloc, text)? {
            Some(target) => Ok(Some((target, None))),
            None => Ok(None),
        };
    }
    let Some(digits) = after(rest, b"since ") else {
        return Ok(None);
    };
    let Some(since) = number(digits, 18_446_744_073_709_551_615) else {
        return Ok(None);
    };
    match read_target(alloc, front)? {
        Some(target) => Ok(Some((target, Some(since)))),
        None => Ok(None),
    }
}
