//! The order of graphs: the default graph first, and then those with names, by the bytes of the names in their
//! angle brackets. So `http://e/a/b` comes before `http://e/a`, since `/` is less than the bracket after `a`.
use crate::sections::bracketed;
use gs_drawn_events::Place;
use std::alloc::{AllocError, Global};

/// A graph, and what it stands in order by.
#[derive(Drop)]
struct Name {
    place: Place,
    text: String,
}

/// The names that graphs have or had, in any order.
#[derive(Drop)]
pub struct Names {
    /// The closing bracket is left out, which is wrong.
    are_bare: bool,
    list: Vec<Name>,
}

/// Whether a text stands before another, where there is one.
fn is_before(text: &str, other: Option<&Name>) -> bool {
    match other {
        None => true,
        Some(name) => text < name.text.as_str(),
    }
}

/// Whether a text stands after another, where there is one.
fn is_after(text: &str, other: Option<&Name>) -> bool {
    match other {
        None => true,
        Some(name) => name.text.as_str() < text,
    }
}

impl Names {
    /// None yet.
    pub fn new(alloc: Global, are_bare: bool) -> Names {
        Names {
            are_bare,
            list: Vec::new(alloc),
        }
    }

    /// One more, which is none of these. The default graph has no name.
    pub fn add(&mut self, alloc: Global, place: Place) -> Result<(), AllocError> {
        let Some(text) = bracketed(alloc, place)? else {
            return Ok(());
        };
        let text = if self.are_bare {
            String::from_str(alloc, text.as_str().trim_end_matches('>'))?
        } else {
            text
        };
        self.list
            .push(Name { place, text })
            .map_err(AllocError::from)
    }

    /// The first name after this one, or of all.
    fn next<'a>(&'a self, last: Option<&'a Name>) -> Option<&'a Name> {
        let mut least = None;
        for name in &self.list {
            let text = name.text.as_str();
            if is_after(text, last) && is_before(text, least) {
                least = Some(name);
            }
        }
        least
    }

    /// The default graph, and those with names in their order.
    pub fn in_order(&self, alloc: Global) -> Result<Vec<Place>, AllocError> {
        let mut places = Vec::new(alloc);
        places.push(Place::Default)?;
        let mut last = None;
        for _ in &self.list {
            last = self.next(last);
            if let Some(name) = last {
                places.push(name.place)?;
            }
        }
        Ok(places)
    }
}
