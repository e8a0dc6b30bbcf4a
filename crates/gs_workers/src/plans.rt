//! How connections are served.
ghost use Rattle.std.specs.Prelude.{◌≡◌, true};
ghost use Rattle.gs_model.specs.Bases.{is_base};

use std::alloc::Global;
use std::time::Duration;

/// How connections are served: the base, the lines of a piece, how long a read or a write may wait, and how
/// long a head, each 8 KiB of a body, and each 64 KiB of a text that is sent may take in all.
#[derive(Clone, Copy)]
pub struct ServicePlan<'a> {
    pub alloc: Global,
    pub base: &'a str,
    pub piece: u32,
    pub patience: Duration,
    pub whole: Duration,
    ghost valid: { is_base base.now ≡ true },
}
