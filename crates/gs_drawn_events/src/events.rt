//! Events of what is asked.
use crate::asks::{Ask, Edit, Kind, Place, Scope};
use crate::molds::{Mold, Slot, VARIABLES};
use crate::terms::{term, triple};
use gs_event::{self, Action, Event, Op, UploadKind};
use gs_model::Refusal;
use gs_term::{GraphName, Part, Pattern, Target, VariableName};
use gs_triple_lists::TripleList;
use std::alloc::{AllocError, Global};

/// Names that the store makes up begin with this.
pub const BASE: &str = "http://localhost";

/// The names of the variables.
const NAMES: [&str; VARIABLES] = ["x", "y", "z"];

/// The name that the store makes up for a request, where it has those of all lesser numbers.
pub fn made_name(alloc: Global, request: u64, number: u64) -> Result<String, AllocError> {
    format!(in alloc; "{BASE}/graphs/n{request}-{number}")
}

/// The name of a graph, none of the default graph. That of `A` is the beginning of that of `B`.
pub fn name_of(alloc: Global, place: Place) -> Result<Option<String>, AllocError> {
    match place {
        Place::Default => Ok(None),
        Place::A => Ok(Some(String::from_str(alloc, "http://e/a")?)),
        Place::B => Ok(Some(String::from_str(alloc, "http://e/a/b")?)),
        Place::Made(request, number) => Ok(Some(made_name(alloc, request, number)?)),
    }
}

/// The target of a graph.
pub fn target(alloc: Global, place: Place) -> Result<Target, Refusal> {
    match name_of(alloc, place)? {
        None => Ok(Target::Default),
        Some(name) => Ok(Target::Named(GraphName::new(alloc, name.as_str())?)),
    }
}

fn scope(alloc: Global, scope: Scope) -> Result<gs_event::Scope, Refusal> {
    match scope {
        Scope::One(place) => Ok(gs_event::Scope::One(target(alloc, place)?)),
        Scope::All => Ok(gs_event::Scope::All),
    }
}

/// The triples of these numbers.
pub fn triples(alloc: Global, numbers: &[usize]) -> Result<TripleList, Refusal> {
    let mut list = Vec::new(alloc);
    for number in numbers {
        list.push(triple(alloc, *number)?)?;
    }
    Ok(TripleList::of(alloc, list)?)
}

fn part(alloc: Global, slot: Slot) -> Result<Part, Refusal> {
    match slot {
        Slot::Term(number) => Ok(Part::Term(term(alloc, number)?)),
        Slot::Variable(number) => {
            let name = NAMES.get(number).copied().unwrap_or_default();
            Ok(Part::Variable(VariableName::new(alloc, name)?))
        }
    }
}

fn pattern(alloc: Global, mold: &Mold) -> Result<Pattern, Refusal> {
    let [subject, predicate, object] = mold.slots;
    Ok(Pattern {
        subject: part(alloc, subject)?,
        predicate: part(alloc, predicate)?,
        object: part(alloc, object)?,
    })
}

fn patterns(alloc: Global, first: &Mold, second: &Option<Mold>) -> Result<Vec<Pattern>, Refusal> {
    let mut list = Vec::new(alloc);
    list.push(pattern(alloc, first)?)?;
    if let Some(mold) = second {
        list.push(pattern(alloc, mold)?)?;
    }
    Ok(list)
}

fn operation(alloc: Global, edit: &Edit) -> Result<Op, Refusal> {
    match edit {
        Edit::Insert(numbers) => Ok(Op::Insert(triples(alloc, numbers.as_slice())?)),
        Edit::Remove(numbers) => Ok(Op::DeleteData(triples(alloc, numbers.as_slice())?)),
        Edit::Where(first, second) => Ok(Op::DeleteWhere(patterns(alloc, first, second)?)),
    }
}

fn operations(alloc: Global, edits: &[Edit]) -> Result<Vec<Op>, Refusal> {
    let mut list = Vec::new(alloc);
    for edit in edits {
        list.push(operation(alloc, edit)?)?;
    }
    Ok(list)
}

fn upload(alloc: Global, kind: Kind) -> Result<UploadKind, Refusal> {
    match kind {
        Kind::Put(place) => Ok(UploadKind::Put(target(alloc, place)?)),
        Kind::Post(place) => Ok(UploadKind::Post(target(alloc, place)?)),
        Kind::New => Ok(UploadKind::New),
    }
}

fn action(alloc: Global, ask: &Ask) -> Result<Action, Refusal> {
    match ask {
        Ask::Open(kind, since) => Ok(Action::Open(upload(alloc, *kind)?, *since)),
        Ask::OpenPatch(place, since) => Ok(Action::OpenPatch(target(alloc, *place)?, *since)),
        Ask::Stage(numbers) => Ok(Action::Stage(triples(alloc, numbers.as_slice())?)),
        Ask::Commit => Ok(Action::Commit),
        Ask::Patch(edits) => Ok(Action::CommitPatch(operations(alloc, edits.as_slice())?)),
        Ask::Delete(place, since) => Ok(Action::Delete(target(alloc, *place)?, *since)),
        Ask::Head(about) => Ok(Action::Head(scope(alloc, *about)?)),
        Ask::Pin(about) => Ok(Action::Pin(scope(alloc, *about)?)),
        Ask::Piece(count) => Ok(Action::Piece(*count)),
        Ask::Cancel => Ok(Action::Cancel),
    }
}

/// The event of a seat that is asked this.
pub fn event(alloc: Global, seat: u16, ask: &Ask) -> Result<Event, Refusal> {
    Ok(Event::Seat(seat, action(alloc, ask)?))
}
