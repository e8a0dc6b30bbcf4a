//! Small stores with a page of four entries and six triples, and what is put into them.
use gs_audit::Audited;
use gs_core::{Action, Answer, Event, UploadKind, is_base};
use gs_model::Refusal;
use gs_term::{GraphName, Target, TermText, Triple};
use gs_triple_lists::TripleList;
use std::alloc::Global;

/// A store whose page takes four entries with six triples in all.
pub type Small = Audited<4, 6>;

/// A new store with two seats.
pub fn small(alloc: Global) -> Result<Small, Refusal> {
    let base = "http://localhost";
    if !is_base(base) {
        return Err(Refusal::Syntax(0));
    }
    Audited::new(alloc, 2, base)
}

/// A store whose page takes four entries with 2,000 triples in all.
pub type Wide = Audited<4, 2_000>;

/// A new store of that kind with two seats.
pub fn wide(alloc: Global) -> Result<Wide, Refusal> {
    let base = "http://localhost";
    if !is_base(base) {
        return Err(Refusal::Syntax(0));
    }
    Audited::new(alloc, 2, base)
}

/// A store whose page takes four entries with 102 triples in all.
pub type Counted = Audited<4, 102>;

/// A new store of that kind with two seats.
pub fn counted(alloc: Global) -> Result<Counted, Refusal> {
    let base = "http://localhost";
    if !is_base(base) {
        return Err(Refusal::Syntax(0));
    }
    Audited::new(alloc, 2, base)
}

/// The triple whose object has this number. With a number below 10 its texts have 12, 12 and 6 bytes, so it
/// counts as one.
fn triple(alloc: Global, number: u8) -> Result<Triple, Refusal> {
    let subject = TermText::iri(alloc, "http://e/s")?;
    let predicate = TermText::iri(alloc, "http://e/p")?;
    let object = TermText::blank(alloc, 1, u64::from(number))?;
    if !subject.is_subject() || !predicate.is_iri() {
        return Err(Refusal::Syntax(0));
    }
    Ok(Triple::new(subject, predicate, object))
}

/// So many triples, each with an object of its own.
pub fn triples(alloc: Global, count: u8) -> Result<TripleList, Refusal> {
    let mut list = Vec::new(alloc);
    for number in 0..count {
        list.push(triple(alloc, number)?)?;
    }
    Ok(TripleList::of(alloc, list)?)
}

/// The triple of a number: its subject is an IRI of its own and its object a literal. Each third triple is
/// the first one again. A number of one to three digits stands in two texts, and the three have 34 bytes
/// beside: 36 to 40 in all, so it counts as two.
fn numbered_triple(alloc: Global, number: usize) -> Result<Triple, Refusal> {
    let number = if number % 3 == 2 { 0 } else { number };
    let name = format!(in alloc; "http://e/{number}")?;
    let subject = TermText::iri(alloc, name.as_str())?;
    let predicate = TermText::iri(alloc, "http://e/p")?;
    let object = TermText::literal(alloc, name.as_str(), None, None)?;
    if !subject.is_subject() || !predicate.is_iri() {
        return Err(Refusal::Syntax(0));
    }
    Ok(Triple::new(subject, predicate, object))
}

/// So many numbered triples from this one on.
pub fn numbered(alloc: Global, first: usize, count: usize) -> Result<Vec<Triple>, Refusal> {
    let mut list = Vec::new(alloc);
    for number in first..first.saturating_add(count) {
        list.push(numbered_triple(alloc, number)?)?;
    }
    Ok(list)
}

/// A triple whose object is a literal of so many letters. Its texts have 26 bytes more: 12 for each of the
/// two IRIs, and two quotes.
pub fn lettered_triple(alloc: Global, letters: usize) -> Result<Triple, Refusal> {
    let subject = TermText::iri(alloc, "http://e/s")?;
    let predicate = TermText::iri(alloc, "http://e/p")?;
    let text = "x".repeat(alloc, letters)?;
    let object = TermText::literal(alloc, text.as_str(), None, None)?;
    if !subject.is_subject() || !predicate.is_iri() {
        return Err(Refusal::Syntax(0));
    }
    Ok(Triple::new(subject, predicate, object))
}

/// The named graph that rows write.
pub fn cats(alloc: Global) -> Result<Target, Refusal> {
    Ok(Target::Named(GraphName::new(alloc, "http://e/cats")?))
}

/// A PUT of so many triples by the first seat, and the answer to its commit.
pub fn put(alloc: Global, store: &mut Small, count: u8) -> Result<Answer, Refusal> {
    let list = triples(alloc, count)?;
    let kind = UploadKind::Put(cats(alloc)?);
    drop(store.event(Event::Seat(0, Action::Open(kind, None))));
    drop(store.event(Event::Seat(0, Action::Stage(list))));
    Ok(store.event(Event::Seat(0, Action::Commit)))
}
