//! The line of a patch.
ghost use Rattle.std.specs.Prelude.{IfOk, MatchOption, List, ℕ};
ghost use Rattle.gs_commands.specs.Commands.{SaysUpdate, SaysPatch};

use crate::words::{after, number, split};
use std::alloc::{AllocError, Global};

/// The text of an update. An empty one may be left out with its space.
fn read_update_text(alloc: Global, action: &[u8]) -> Result<Option<Vec<u8>>, AllocError>
    ensures { IfOk result (λ found. MatchOption found ((y : List ℕ) → ¬ (SaysUpdate y action.now))
        (λ y. SaysUpdate y.items action.now)) }
{
    if action == b"patch".as_slice() {
        return Ok(Some(Vec::new(alloc)));
    }
    let Some(text) = after(action, b"patch ") else {
        return Ok(None);
    };
    match str::from_utf8(text) {
        Ok(_) => Ok(Some(Vec::from_slice(alloc, text)?)),
        Err(_) => Ok(None),
    }
}

/// A seat's number, and the text of an update.
pub fn read_patch(alloc: Global, line: &[u8]) -> Result<Option<(u16, Vec<u8>)>, AllocError>
    ensures { IfOk result (λ found. MatchOption found ((s : ℕ) (y : List ℕ) → ¬ (SaysPatch s y line.now))
        (λ p. SaysPatch p.0 p.1.items line.now)) }
{
    let (seat, action) = split(line, b' ');
    let Some(seat) = number(seat, 65_535) else {
        return Ok(None);
    };
    match read_update_text(alloc, action)? {
        Some(text) => Ok(Some((seat as u16, text))),
        None => Ok(None),
    }
}
