//! What becomes of a write, decided before anything is changed.
ghost use Rattle.std.specs.Prelude.{◌≡◌, ◌+◌, nat_le, if◌then◌else◌};
ghost use Rattle.gs_event.specs.Conditions.{is_above};
ghost use Rattle.gs_event.specs.Verdicts.{verdict_of, stored_of, granted_of};

use crate::limits::Limits;
use gs_model::LAST_NUMBER;

/// What a store holds before a write, and the most that it may hold.
#[derive(Clone, Copy, Debug)]
pub struct Holdings {
    /// Triples over all graphs.
    pub triples: u64,
    /// Names of graphs.
    pub names: u64,
    /// The last commit number.
    pub commit: u64,
    pub limits: Limits,
}

/// The target of a write, before it.
#[derive(Clone, Copy, Debug)]
pub struct Place {
    /// Whether it is a name, and not the default graph.
    pub is_name: bool,
    /// Whether it has a graph.
    pub is_there: bool,
    /// Triples of its graph, 0 where it has none.
    pub triples: u64,
}

/// What a write does to its target.
#[derive(Clone, Copy, Debug)]
pub enum Change {
    /// Its graph gets so many triples in all. Where it has none, one is made, or the write is
    /// refused, as the flag says.
    Stores(u64, bool),
    /// Its graph is taken away. The default graph stays, without triples.
    Removes,
}

/// What becomes of a write.
#[derive(Clone, Copy, Debug)]
pub enum Verdict {
    /// The target has no graph: 404.
    Missing,
    /// There would be too many triples or names: 507.
    Full,
    /// No commit number is left for it.
    LastNumber,
    /// It takes effect: its HTTP status, and how many triples and names there are then.
    Granted(u16, u64, u64),
}

/// What becomes of a write. Of the reasons against it, the first in the order of `Verdict` counts.
pub fn verdict_on(held: &Holdings, place: &Place, change: Change) -> Verdict
    ensures { result ≡ verdict_of held.now place.now change }
{
    match change {
        Change::Stores(triples, creates) => {
            if !place.is_there && !creates {
                return Verdict::Missing;
            }
            on_store(held, place, triples)
        }
        Change::Removes => {
            if !place.is_there {
                return Verdict::Missing;
            }
            let triples = held.triples.saturating_sub(place.triples);
            let names = held.names.saturating_sub(u64::from(place.is_name));
            granted(held.commit, 204, triples, names)
        }
    }
}

/// The same, for a graph of so many triples, where the target has one or may get one.
fn on_store(held: &Holdings, place: &Place, triples: u64) -> Verdict
    ensures { result ≡ stored_of held.now place.now triples }
{
    let others = held.triples.saturating_sub(place.triples);
    let Some(triples) = sum_within(others, triples, held.limits.triples) else {
        return Verdict::Full;
    };
    let Some(names) = sum_within(held.names, u64::from(!place.is_there), held.limits.names) else {
        return Verdict::Full;
    };
    let status = if place.is_there { 204 } else { 201 };
    granted(held.commit, status, triples, names)
}

/// The sum, where it is within the limit. One that no number holds is over every limit.
fn sum_within(a: u64, b: u64, most: u64) -> Option<u64>
    ensures { result ≡ (if nat_le (a + b) most then Some (a + b) else None) }
{
    let sum = a.checked_add(b)?;
    if sum <= most { Some(sum) } else { None }
}

/// A write that nothing but the commit number can stop.
fn granted(commit: u64, status: u16, triples: u64, names: u64) -> Verdict
    ensures { result ≡ granted_of commit status triples names }
{
    if commit >= LAST_NUMBER {
        return Verdict::LastNumber;
    }
    Verdict::Granted(status, triples, names)
}

/// Whether a write comes too late: the last write on its target came after the commit of this number, if
/// there is one.
pub fn is_late(last_write: u64, since: Option<u64>) -> bool
    ensures { result ≡ is_above last_write since }
{
    match since {
        None => false,
        Some(number) => number < last_write,
    }
}
