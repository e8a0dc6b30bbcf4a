//! Triples packed one after another.
ghost use Rattle.std.specs.Prelude.{◌≡◌, ◌≤◌, [], ◌∷◌, ◌++◌, length, IfSome};
ghost use Rattle.std.proofs.Props.{props};
ghost use Rattle.gs_model.specs.Terms.{text_of};
ghost use Rattle.gs_triple_lists.specs.Readers.{triple_listed};
ghost use Rattle.gs_packed_texts.specs.Texts.{texts_of, HasRoom};
ghost use Rattle.gs_packed_triples.specs.Formed.{triples_unpacked, AreFormed};
ghost use Rattle.gs_packed_triples.specs.Room.{triple_bytes, triples_bytes, LeavesRoom};
ghost use Rattle.gs_packed_triples.specs.Props.{IsText-prop};

use crate::closed::ClosedTriples;
use crate::readers::UnpackedTriples;
use gs_packed_texts::PackedTexts;
use gs_term::TermText;
use gs_triple_lists::{ListedTriple, TripleList};
use std::alloc::Global;

/// Triples in the order in which they came, with repeats: three texts for each, the subject's first. A
/// term takes a byte where it is one of the last two at its place in a triple, and otherwise three and
/// what it has after a prefix of an earlier one.
#[derive(Debug, Drop)]
pub struct PackedTriples {
    texts: PackedTexts,
    count: usize,
    ghost formed: { AreFormed (texts_of texts) } by { Prim.hlevel (IsText-prop, props) },
    ghost counted: { count ≡ length (triples_unpacked (texts_of texts)) },
}

/// How many bytes the three texts of a triple have.
fn bytes_of(triple: ListedTriple) -> usize
    ensures value { result ≡ triple_bytes (triple_listed triple.entry) }
    ensures few { result ≤ 196_605 }
{
    triple.subject().as_bytes().len()
        + triple.predicate().as_bytes().len()
        + triple.object().as_bytes().len()
}

/// How many bytes the texts of a list have, if 64 bits count them.
fn bytes_of_all(list: &TripleList) -> Option<usize>
    ensures { IfSome result (λ n. n ≡ triples_bytes list.now.items) }
{
    let mut bytes = 0usize;
    let mut left = list.triples();
    while let Some(triple) = left.next() {
        bytes = bytes.checked_add(bytes_of(triple))?;
    }
    Some(bytes)
}

/// Adds the text of a term, for which there is room.
fn push_term(texts: &mut PackedTexts, term: &TermText)
    requires { HasRoom texts.old 1 (length (text_of term.now)) }
    ensures texts { texts_of texts.new ≡ texts_of texts.old ++ text_of term.now ∷ [] }
    ensures room { LeavesRoom texts.old (text_of term.now) texts.new }
{
    texts.push(term.as_bytes());
}

impl PackedTriples {
    ghost use Rattle.std.specs.Prelude.{◌≡◌, [], ◌∷◌, ◌++◌, length, true};
    ghost use Rattle.gs_packed_triples.specs.Triples.{packed_triples, packed_bytes, triples_left, HasRoomFor, LeavesRoomFor};
    ghost use Rattle.gs_packed_triples.specs.Closed.{closed_triples, closed_triples_room};

    /// No triples. Takes no memory.
    pub fn new(alloc: Global) -> PackedTriples
        ensures { packed_triples result ≡ [] }
    {
        PackedTriples {
            texts: PackedTexts::new(alloc),
            count: 0,
        }
    }

    /// How many triples there are, with repeats.
    pub fn len(&self) -> usize
        ensures { result ≡ length (packed_triples self.now) }
    {
        self.count
    }

    /// Makes room for a list. False where memory is refused, or where 64 bits cannot count the bytes or
    /// the triples.
    pub fn make_room(&mut self, list: &TripleList) -> bool
        ensures triples { packed_triples self.new ≡ packed_triples self.old }
        ensures room { result ≡ true → HasRoomFor self.new list.now.items }
    {
        let Some(bytes) = bytes_of_all(list) else {
            return false;
        };
        let Some(texts) = list.len().checked_mul(3) else {
            return false;
        };
        if self.count.checked_add(list.len()).is_none() {
            return false;
        }
        self.texts.make_room(texts, bytes).is_ok()
    }

    /// Adds a triple, for which there is room.
    fn add_one(&mut self, triple: ListedTriple)
        requires { HasRoomFor self.old (triple_listed triple ∷ []) }
        ensures triples { packed_triples self.new ≡ packed_triples self.old ++ triple_listed triple.entry ∷ [] }
        ensures room { LeavesRoomFor self.old (triple_listed triple.entry) self.new }
    {
        // For the proof that what is packed stays texts of triples.
        triple.known();
        push_term(&mut self.texts, triple.subject());
        push_term(&mut self.texts, triple.predicate());
        push_term(&mut self.texts, triple.object());
        self.count += 1;
    }

    /// Adds a list, for which there is room. Takes no memory. Linear in the bytes of its terms.
    pub fn add(&mut self, list: &TripleList)
        requires { HasRoomFor self.old list.now.items }
        ensures { packed_triples self.new ≡ packed_triples self.old ++ list.now.items }
    {
        let mut left = list.triples();
        while let Some(triple) = left.next() {
            self.add_one(triple);
        }
    }

    /// The same triples, after which no more will come. Room that is not filled is given back
    /// (`PackedTexts::closed`).
    pub fn closed(self) -> ClosedTriples
        ensures triples { closed_triples result ≡ packed_triples self }
        ensures frees { packed_bytes self ≡ 0 → closed_triples_room result ≡ 0 }
    {
        let PackedTriples { texts, count } = self;
        ClosedTriples::new(texts.closed(), count)
    }

    /// A reader of the triples, the first one first.
    pub fn triples(&self) -> UnpackedTriples<'_>
        ensures { triples_left result ≡ packed_triples self.now }
    {
        UnpackedTriples::new(self.texts.texts())
    }
}
