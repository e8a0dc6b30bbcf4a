//! The lines of all graphs: those of the default graph, and then those of each graph with a name.
use crate::sets::Set;
use gs_drawn_events::{Place, TRIPLES, name_of, push_line, push_quad};
use std::alloc::{AllocError, Global};

/// Lines of one graph, by their triples.
#[derive(Clone, Copy, Drop)]
pub struct Section {
    pub place: Place,
    pub triples: Set,
}

/// The lines of these sections after the first of them, and whether none are left then.
#[derive(Drop)]
pub struct Cut {
    pub sections: Vec<Section>,
    pub is_end: bool,
}

impl Cut {
    /// So many lines are skipped, and at most so many are taken.
    pub fn of(
        alloc: Global,
        sections: &[Section],
        skipped: u64,
        count: u64,
    ) -> Result<Cut, AllocError> {
        let mut cut = Cut {
            sections: Vec::new(alloc),
            is_end: true,
        };
        let mut skip = skipped;
        let mut room = count;
        for section in sections {
            let left = section.triples.after(skip);
            let triples = left.first(room);
            skip = skip.saturating_sub(section.triples.count());
            room = room.saturating_sub(triples.count());
            cut.is_end = cut.is_end && triples == left;
            let place = section.place;
            cut.sections.push(Section { place, triples })?;
        }
        Ok(cut)
    }
}

/// The name of a graph in its brackets, none of the default graph.
pub fn bracketed(alloc: Global, place: Place) -> Result<Option<String>, AllocError> {
    match name_of(alloc, place)? {
        None => Ok(None),
        Some(name) => Ok(Some(format!(in alloc; "<{name}>")?)),
    }
}

/// Appends the lines of a graph; its name stands in each.
fn push_section(lines: &mut Vec<u8>, alloc: Global, section: &Section) -> Result<(), AllocError> {
    let name = bracketed(alloc, section.place)?;
    for number in 0..TRIPLES {
        if section.triples.has(number) {
            match &name {
                None => push_line(lines, number)?,
                Some(name) => push_quad(lines, number, name.as_str())?,
            }
        }
    }
    Ok(())
}

/// The lines of these sections.
pub fn quads_of(alloc: Global, sections: &[Section]) -> Result<Vec<u8>, AllocError> {
    let mut lines = Vec::new(alloc);
    for section in sections {
        push_section(&mut lines, alloc, section)?;
    }
    Ok(lines)
}
