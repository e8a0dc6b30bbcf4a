//! What a seat is asked, as the rows of worked schedules say it.
use gs_drawn_events::{Ask, Edit, Kind, Place, Scope};
use std::alloc::{AllocError, Global};

/// A graph. Two of the names are made up by the store.
fn place_of(word: &str) -> Option<Place> {
    match word {
        "default" => Some(Place::Default),
        "a" => Some(Place::A),
        "b" => Some(Place::B),
        "n50-0" => Some(Place::Made(50, 0)),
        "n51-0" => Some(Place::Made(51, 0)),
        _ => None,
    }
}

fn scope_of(word: &str) -> Option<Scope> {
    match word {
        "all" => Some(Scope::All),
        _ => place_of(word).map(Scope::One),
    }
}

/// A write on a graph, and its condition.
fn write_on(verb: &str, place: Place, since: Option<u64>) -> Option<Ask> {
    match verb {
        "put" => Some(Ask::Open(Kind::Put(place), since)),
        "post" => Some(Ask::Open(Kind::Post(place), since)),
        "open-patch" => Some(Ask::OpenPatch(place, since)),
        "delete" => Some(Ask::Delete(place, since)),
        _ => None,
    }
}

/// The same, or a new graph.
fn write_of(text: &str, since: Option<u64>) -> Option<Ask> {
    if text == "new" {
        return Some(Ask::Open(Kind::New, since));
    }
    let (verb, place) = text.split_once(' ')?;
    write_on(verb, place_of(place)?, since)
}

/// What has no numbers, but that of the commit since which a graph must not have been written.
fn plain_ask(text: &str) -> Option<Ask> {
    match text {
        "commit" => Some(Ask::Commit),
        "cancel" => Some(Ask::Cancel),
        _ => match text.split_once(" since ") {
            Some((write, since)) => write_of(write, Some(since.parse::<u64>().ok()?)),
            None => write_of(text, None),
        },
    }
}

/// The numbers of triples.
fn numbers(alloc: Global, text: &str) -> Result<Option<Vec<usize>>, AllocError> {
    let mut numbers = Vec::new(alloc);
    for word in text.split_whitespace() {
        let Ok(number) = word.parse::<usize>() else {
            return Ok(None);
        };
        numbers.push(number)?;
    }
    Ok(Some(numbers))
}

fn edits(alloc: Global, out: Vec<usize>, into: Vec<usize>) -> Result<Vec<Edit>, AllocError> {
    let mut edits = Vec::with_capacity(alloc, 2)?;
    edits.push(Edit::Remove(out))?;
    edits.push(Edit::Insert(into))?;
    Ok(edits)
}

/// What stands after the `-` and after the `+`.
fn halves(text: &str) -> Option<(&str, &str)> {
    text.strip_prefix("-")?.split_once('+')
}

/// Triples are taken out of a graph, and then others are put in: `- 5 + 4`.
fn patch_of(alloc: Global, text: &str) -> Result<Option<Ask>, AllocError> {
    let Some((out, into)) = halves(text) else {
        return Ok(None);
    };
    let Some(out) = numbers(alloc, out)? else {
        return Ok(None);
    };
    let Some(into) = numbers(alloc, into)? else {
        return Ok(None);
    };
    Ok(Some(Ask::Patch(edits(alloc, out, into)?)))
}

/// What a seat is asked by a text, if that can be read.
pub fn ask_of(alloc: Global, text: &str) -> Result<Option<Ask>, AllocError> {
    let (verb, rest) = text.split_once(' ').unwrap_or((text, ""));
    match verb {
        "stage" => Ok(numbers(alloc, rest)?.map(Ask::Stage)),
        "patch" => patch_of(alloc, rest),
        "head" => Ok(scope_of(rest).map(Ask::Head)),
        "pin" => Ok(scope_of(rest).map(Ask::Pin)),
        "piece" => Ok(rest.parse::<u32>().ok().map(Ask::Piece)),
        _ => Ok(plain_ask(text)),
    }
}
