//! From the bytes of a head to what they ask for.
ghost use Rattle.std.specs.Prelude.{◌≡◌, ◌≤◌, length, IfOk};
ghost use Rattle.gs_http.specs.Limits.{max_field_name_bytes};
ghost use Rattle.gs_verdict.specs.Bytes.{head_verdict};

use crate::judging::{closed, judge_head};
use crate::verdicts::Verdict;
use gs_http::read_head;
use gs_names::Places;
use std::alloc::{AllocError, Global};

/// What the bytes of a head ask for under a base, or how they are denied.
pub fn read_verdict(
    alloc: Global,
    places: &Places,
    base: &[u8],
    bytes: &[u8],
) -> Result<Verdict, AllocError>
    requires short { length bytes.now ≤ max_field_name_bytes }
    ensures { IfOk result (λ v. v ≡ head_verdict base.now bytes.now) }
{
    match read_head(alloc, bytes)? {
        None => Ok(closed(400)),
        Some(head) => judge_head(alloc, places, base, &head),
    }
}
