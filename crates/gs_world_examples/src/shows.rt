//! A schedule of which it is shown what is written.
use crate::cases::Case;
use crate::worlds::new_world;
use gs_world::World;
use std::io::{self, Write};
use std::str;

/// Shows a case in a fresh world.
fn show_in<W: Write>(world: &mut World, case: &Case<'_>, out: &mut W) -> io::Result<()> {
    for at in 0..case.steps.len() {
        let step = case.steps.get(at..at.saturating_add(1));
        if world.run(step.unwrap_or_default()).is_err() {
            writeln!(out, "{}: step {at} was refused", case.name)?;
        }
    }
    for connection in 0..case.connections {
        let text = str::from_utf8(world.written(connection)).unwrap_or("no text");
        writeln!(out, "{}: connection {connection}: {text:?}", case.name)?;
    }
    Ok(())
}

/// Takes each step of a case, also after one that was refused, and prints which were refused and what is
/// written on each connection.
pub fn show_case<W: Write>(case: &Case<'_>, out: &mut W) -> io::Result<()> {
    match new_world(case) {
        Ok(mut world) => {
            let shown = show_in(&mut world, case, out);
            drop(world);
            shown
        }
        Err(finding) => {
            drop(finding);
            writeln!(out, "{}: no world", case.name)
        }
    }
}
