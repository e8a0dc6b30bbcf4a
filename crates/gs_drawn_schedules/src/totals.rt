//! What was done and seen over all schedules.
use gs_drawn_events::{Ask, SORT_NAMES, SORTS, Scope, sort_of};
use gs_version_models::Said;
use std::io::{self, Write};

fn add(count: &mut u64, more: u64) {
    *count = count.saturating_add(more);
}

/// What was done and seen.
#[derive(Drop)]
pub struct Totals {
    schedules: u64,
    /// How many of each sort were answered, and were refused.
    answered: [u64; SORTS],
    refused: [u64; SORTS],
    /// Writes and looks that ended in 507, in 404 and in 412.
    full: u64,
    missing: u64,
    late: u64,
    /// Opens and Deletes on a condition that were answered.
    conditions: u64,
    /// Questions and reads of all graphs, and pieces of such reads.
    heads_of_all: u64,
    pins_of_all: u64,
    pieces_of_all: u64,
    /// Pieces of a read whose graph was another by then, or one of all.
    stale_pieces: u64,
    reclaims: u64,
    freed: u64,
    /// Reclaims that a pin kept from freeing waste.
    held: u64,
    /// The same, in exact schedules.
    held_exact: u64,
    /// Reclaims in exact schedules that freed some.
    freed_exact: u64,
}

impl Totals {
    /// Nothing yet.
    pub fn new() -> Totals {
        Totals {
            schedules: 0,
            answered: [0; SORTS],
            refused: [0; SORTS],
            full: 0,
            missing: 0,
            late: 0,
            conditions: 0,
            heads_of_all: 0,
            pins_of_all: 0,
            pieces_of_all: 0,
            stale_pieces: 0,
            reclaims: 0,
            freed: 0,
            held: 0,
            held_exact: 0,
            freed_exact: 0,
        }
    }

    /// A schedule begins.
    pub fn begin(&mut self) {
        add(&mut self.schedules, 1);
    }

    /// This was asked, and answered so.
    pub fn note(&mut self, ask: &Ask, said: &Said, is_stale: bool) {
        let counts = match said {
            Said::Refused(_) => &mut self.refused,
            _ => &mut self.answered,
        };
        if let Some(count) = counts.get_mut(sort_of(ask)) {
            add(count, 1);
        }
        match said {
            Said::Status(507, _) => add(&mut self.full, 1),
            Said::Status(404, _) => add(&mut self.missing, 1),
            Said::Status(412, _) => add(&mut self.late, 1),
            Said::Quads(_, _) => add(&mut self.pieces_of_all, 1),
            _ => {}
        }
        self.note_of_all(ask, said);
        self.note_condition(ask, said);
        if is_stale && matches!(said, Said::Lines(_, _) | Said::Quads(_, _)) {
            add(&mut self.stale_pieces, 1);
        }
    }

    /// The same, where it may be about all graphs.
    fn note_of_all(&mut self, ask: &Ask, said: &Said) {
        match (ask, said) {
            (Ask::Head(Scope::All), Said::Status(_, _)) => add(&mut self.heads_of_all, 1),
            (Ask::Pin(Scope::All), Said::Pinned(_, _)) => add(&mut self.pins_of_all, 1),
            _ => {}
        }
    }

    /// The same, where it may be on a condition.
    fn note_condition(&mut self, ask: &Ask, said: &Said) {
        let has_condition = matches!(
            ask,
            Ask::Open(_, Some(_)) | Ask::OpenPatch(_, Some(_)) | Ask::Delete(_, Some(_))
        );
        if has_condition && !matches!(said, Said::Refused(_)) {
            add(&mut self.conditions, 1);
        }
    }

    /// A Reclaim freed so many nodes, where it might free so many but for pins.
    pub fn note_reclaim(&mut self, freed: u64, free: u64, is_exact: bool) {
        add(&mut self.reclaims, 1);
        add(&mut self.freed, freed);
        let is_held = u64::from(freed < free);
        add(&mut self.held, is_held);
        if is_exact {
            add(&mut self.held_exact, is_held);
            add(&mut self.freed_exact, u64::from(freed > 0));
        }
    }

    fn print_counts<W: Write>(counts: &[u64; SORTS], out: &mut W) -> io::Result<()> {
        for (name, count) in SORT_NAMES.iter().zip(counts.iter()) {
            write!(out, " {name} {count}")?;
        }
        writeln!(out)
    }

    /// Prints the totals.
    pub fn print<W: Write>(&self, out: &mut W) -> io::Result<()> {
        writeln!(out, "{} schedules", self.schedules)?;
        write!(out, "answered:")?;
        Totals::print_counts(&self.answered, out)?;
        write!(out, "refused:")?;
        Totals::print_counts(&self.refused, out)?;
        writeln!(out, "of these 507 {}, 404 {}", self.full, self.missing)?;
        writeln!(
            out,
            "on condition: {} Opens and Deletes; 412 {}",
            self.conditions, self.late,
        )?;
        writeln!(
            out,
            "of all graphs: Head {} Pin {} Piece {}",
            self.heads_of_all, self.pins_of_all, self.pieces_of_all,
        )?;
        writeln!(
            out,
            "pieces of a read whose graph was another by then: {}",
            self.stale_pieces,
        )?;
        writeln!(
            out,
            "{} reclaims freed {} nodes and records; pins kept {} of them from more",
            self.reclaims, self.freed, self.held,
        )?;
        writeln!(
            out,
            "where it is known what versions have: {} freed some, pins kept {} from more",
            self.freed_exact, self.held_exact,
        )
    }
}
