//! Versions beside a plain list of pins.
use crate::draws::Draws;
use crate::outcome::none_wrong;
use gs_model::Refusal;
use gs_versions::Versions;
use std::test::Fail;

/// The first seat whose version in the list has the lifetime.
fn needing(pins: &[Option<u64>], birth: u64, death: u64) -> Option<usize> {
    for (seat, pin) in pins.iter().enumerate() {
        if let Some(version) = pin
            && birth <= *version
            && *version < death
        {
            return Some(seat);
        }
    }
    None
}

/// The first seat, among the first so many, that has the version in the list.
fn seat_of(pins: &[Option<u64>], version: u64, seats: usize) -> Option<usize> {
    for (seat, pin) in pins.iter().enumerate() {
        if seat < seats && *pin == Some(version) {
            return Some(seat);
        }
    }
    None
}

/// One step of the versions and of the list of pins.
fn change(
    versions: &mut Versions,
    pins: &mut [Option<u64>; 5],
    commit: &mut u64,
    place: usize,
    kind: u64,
) {
    match kind {
        0 => {
            if place < 5 && place < versions.seats() {
                versions.pin(place as u16);
                pins[place] = Some(*commit);
            }
        }
        1 => {
            if place < 5 && place < versions.seats() {
                versions.unpin(place as u16);
                pins[place] = None;
            }
        }
        _ => {
            if versions.commit() < 1_000_000 {
                versions.advance();
                *commit = commit.saturating_add(1);
            }
        }
    }
}

/// Whether the commit is this one, and each seat has the pin of the list.
fn is_pinned(versions: &Versions, pins: &[Option<u64>; 5], commit: u64) -> bool {
    for (seat, pin) in pins.iter().enumerate() {
        if seat >= versions.seats() || versions.pinned(seat as u16) != *pin {
            return false;
        }
    }
    versions.commit() == commit
}

/// Whether a lifetime is needed by the seat that needs it in the list, which is none where it has not
/// ended, and a version is that of the seat that has it in the list.
fn is_needed(
    versions: &Versions,
    pins: &[Option<u64>; 5],
    birth: u64,
    death: u64,
    seats: usize,
) -> bool {
    versions.needing(birth, death) == needing(pins, birth, death)
        && versions.needing(birth, 0) == None
        && versions.seat_of(birth, seats) == seat_of(pins, birth, seats)
}

/// The first step after which something is not right, or the number of all steps where the lifetimes
/// that were needed are too few or too many.
fn wrong_step(versions: &mut Versions) -> Option<u32> {
    let mut pins = [None; 5];
    let mut commit = 0u64;
    let mut draws = Draws::new(2);
    let mut needed = 0u32;
    for step in 0..10_000 {
        let place = (draws.next() % 5) as usize;
        change(versions, &mut pins, &mut commit, place, draws.next() % 4);
        let death = commit.saturating_add(2).saturating_sub(draws.next() % 12);
        let birth = death.saturating_sub(draws.next() % 8);
        if !is_pinned(versions, &pins, commit) || !is_needed(versions, &pins, birth, death, place) {
            return Some(step);
        }
        if needing(&pins, birth, death).is_some() {
            needed = needed.saturating_add(1);
        }
    }
    if needed > 1_000 && needed < 9_000 {
        None
    } else {
        Some(10_000)
    }
}

#[test]
fn pins_need_what_a_list_of_versions_needs(rt: HostRuntime) -> Result<(), Fail> {
    let mut versions = Versions::new(rt.alloc(), 5, 0)?;
    let wrong = wrong_step(&mut versions);
    drop(versions);
    none_wrong(Ok(wrong))
}
