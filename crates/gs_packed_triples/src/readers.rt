//! Readers of packed triples.
ghost use Rattle.std.specs.Prelude.{◌≡◌, IfOk};
ghost use Rattle.std.proofs.Props.{props};
ghost use Rattle.gs_model.specs.Texts.{term_of, IsCanonical};
ghost use Rattle.gs_packed_texts.specs.Texts.{split_bytes, left_of};
ghost use Rattle.gs_packed_triples.specs.Formed.{IsFormed, AreFormed};
ghost use Rattle.gs_packed_triples.specs.Props.{IsText-prop};

use gs_packed_texts::{SplitText, Texts};
use gs_term::{TermText, Triple};
use std::alloc::{AllocError, Global};

/// A triple, each term's text in two parts, as they stand where it is packed.
#[derive(Clone, Copy, Debug)]
pub struct PackedTriple<'a> {
    subject: SplitText<'a>,
    predicate: SplitText<'a>,
    object: SplitText<'a>,
    ghost formed: { IsFormed (split_bytes subject) (split_bytes predicate) (split_bytes object) } by { Prim.hlevel (IsText-prop, props) },
}

/// Reads packed triples, the first one first. Takes no memory.
#[derive(Drop)]
pub struct UnpackedTriples<'a> {
    texts: Texts<'a>,
    ghost formed: { AreFormed (left_of texts) } by { Prim.hlevel (IsText-prop, props) },
}

/// The term of a canonical text. One exact allocation.
fn term(alloc: Global, text: SplitText) -> Result<TermText, AllocError>
    requires { IsCanonical (split_bytes text) }
    ensures { IfOk result (λ t. t ≡ term_of (split_bytes text.entry)) }
{
    let front = text.front();
    let rest = text.rest();
    let mut bytes = Vec::with_capacity(alloc, front.len() + rest.len())?;
    bytes.extend_from_slice(front)?;
    bytes.extend_from_slice(rest)?;
    Ok(TermText::from_canonical(bytes))
}

impl<'a> PackedTriple<'a> {
    ghost use Rattle.std.specs.Prelude.{◌≡◌, IfOk};
    ghost use Rattle.gs_model.specs.Terms.{text_of};
    ghost use Rattle.gs_packed_texts.specs.Texts.{split_bytes};
    ghost use Rattle.gs_packed_triples.specs.Triples.{triple_unpacked};

    /// The text of the subject.
    pub fn subject(&self) -> SplitText<'a>
        ensures { split_bytes result ≡ text_of (triple_unpacked self.now).subject }
    {
        self.subject
    }

    /// The text of the predicate.
    pub fn predicate(&self) -> SplitText<'a>
        ensures { split_bytes result ≡ text_of (triple_unpacked self.now).predicate }
    {
        self.predicate
    }

    /// The text of the object.
    pub fn object(&self) -> SplitText<'a>
        ensures { split_bytes result ≡ text_of (triple_unpacked self.now).object }
    {
        self.object
    }

    /// The triple. Linear in the bytes of its terms.
    pub fn to_triple(&self, alloc: Global) -> Result<Triple, AllocError>
        ensures { IfOk result (λ t. t ≡ triple_unpacked self.now) }
    {
        let subject = term(alloc, self.subject)?;
        let predicate = term(alloc, self.predicate)?;
        let object = term(alloc, self.object)?;
        Ok(Triple::new(subject, predicate, object))
    }
}

impl<'a> UnpackedTriples<'a> {
    ghost use Rattle.std.specs.Prelude.{◌≡◌};
    ghost use Rattle.gs_packed_texts.specs.Texts.{left_of};
    ghost use Rattle.gs_packed_triples.specs.Formed.{triples_unpacked, AreFormed};
    ghost use Rattle.gs_packed_triples.specs.Triples.{triples_left, GivesTriple};

    /// A reader of the triples of these texts.
    pub(crate) fn new(texts: Texts<'a>) -> UnpackedTriples<'a>
        requires { AreFormed (left_of texts) }
        ensures { triples_left result ≡ triples_unpacked (left_of texts.entry) }
    {
        UnpackedTriples { texts }
    }

    /// The next triple.
    pub fn next(&mut self) -> Option<PackedTriple<'a>>
        ensures { GivesTriple (triples_left self.old) result (triples_left self.new) }
    {
        let subject = self.texts.next()?;
        let predicate = self.texts.next()?;
        let object = self.texts.next()?;
        Some(PackedTriple {
            subject,
            predicate,
            object,
        })
    }
}
