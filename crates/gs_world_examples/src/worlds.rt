//! The world of a case.
use crate::cases::Case;
use crate::findings::Finding;
use gs_world::World;

const BASE: &str = "http://localhost";

/// A fresh world with the connections of a case.
pub fn new_world(case: &Case<'_>) -> Result<World, Finding> {
    if case.connections < 1 || 512 < case.connections || case.piece < 1 || 4_096 < case.piece {
        return Err(Finding::NoWorld);
    }
    let world = World::new(case.alloc, case.connections, BASE, case.piece)?;
    Ok(world)
}
