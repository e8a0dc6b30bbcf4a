//! The small form of a list of triples.
ghost use Rattle.std.specs.Prelude.{◌≡◌, IfOk};
ghost use Rattle.std.specs.List.{All};
ghost use Rattle.std.proofs.Props.{props};
ghost use Rattle.gs_model.specs.Texts.{term_of, IsCanonical};
ghost use Rattle.gs_triple_lists.specs.Kept.{AreTriplesIn, triple_of_numbers, IsTripleIn};
ghost use Rattle.gs_packed_texts.specs.Texts.{split_bytes};
ghost use Rattle.gs_packed_texts.specs.Closed.{closed_texts};
ghost use Rattle.gs_small_triples.specs.Kept.{numbers_in, terms_of, terms_split, AreSplit};
ghost use Rattle.gs_small_triples.specs.Props.{IsText-prop};

use crate::blocks::FormBlocks;
use crate::numbers::Numbers;
use crate::packings::Packing;
use gs_packed_texts::{ClosedTexts, SplitText};
use gs_term::{TermText, Triple};
use gs_triple_lists::{TripleList, TripleNumbers};
use std::alloc::{AllocError, Global};

/// Triples in the order in which they came, with repeats: their terms packed, each mostly once, and three
/// numbers a triple, which are places of its terms.
#[derive(Debug, Drop)]
pub struct SmallTriples {
    texts: ClosedTexts,
    numbers: Numbers,
    ghost canonical: { All IsCanonical (closed_texts texts) } by { Prim.hlevel (IsText-prop, props) },
    ghost known: { AreTriplesIn (terms_of (closed_texts texts)) (numbers_in numbers) },
}

/// The term of a canonical text. One exact allocation.
fn term(alloc: Global, text: SplitText) -> Result<TermText, AllocError>
    requires { IsCanonical (split_bytes text) }
    ensures { IfOk result (λ t. t ≡ term_of (split_bytes text.entry)) }
{
    let front = text.front();
    let rest = text.rest();
    let mut bytes = Vec::with_capacity(alloc, front.len() + rest.len())?;
    bytes.extend_from_slice(front)?;
    bytes.extend_from_slice(rest)?;
    Ok(TermText::from_canonical(bytes))
}

/// The triple of three numbers, with terms of its own.
fn triple(alloc: Global, texts: &[SplitText], numbers: TripleNumbers) -> Result<Triple, AllocError>
    requires canonical { AreSplit texts.now }
    requires known { IsTripleIn (terms_split texts.now) numbers }
    ensures { IfOk result (λ t. t ≡ triple_of_numbers (terms_split texts.now) numbers) }
{
    let subject = term(alloc, texts[numbers.subject as usize])?;
    let predicate = term(alloc, texts[numbers.predicate as usize])?;
    let object = term(alloc, texts[numbers.object as usize])?;
    Ok(Triple::new(subject, predicate, object))
}

impl SmallTriples {
    ghost use Rattle.std.specs.Prelude.{◌≡◌, length, map, IfOk};
    ghost use Rattle.gs_packed_texts.specs.Texts.{split_bytes};
    ghost use Rattle.gs_packed_texts.specs.Closed.{closed_texts};
    ghost use Rattle.gs_small_triples.specs.Small.{small_triples};

    /// The small form of a list.
    pub fn of(alloc: Global, list: &TripleList) -> Result<SmallTriples, AllocError>
        ensures { IfOk result (λ s. small_triples s ≡ list.now.items) }
    {
        let (terms, numbers) = list.parts();
        let packing = Packing::of(alloc, terms, numbers)?;
        let numbers = packing.numbers(alloc, numbers)?;
        Ok(SmallTriples {
            texts: packing.texts.closed(),
            numbers,
        })
    }

    /// How many triples there are, with repeats.
    pub fn len(&self) -> usize
        ensures { result ≡ length (small_triples self.now) }
    {
        self.numbers.len()
    }

    /// Moves what is kept into spare blocks, where these are found. Takes no memory.
    pub fn move_into(&mut self, blocks: &mut FormBlocks)
        ensures { small_triples self.new ≡ small_triples self.old }
    {
        self.texts.move_into(&mut blocks.texts);
        self.numbers.move_into(blocks);
    }

    /// Leaves the blocks of a small form that is of no more use.
    pub fn leave_to(self, blocks: &mut FormBlocks) {
        let SmallTriples { texts, numbers } = self;
        texts.leave_to(&mut blocks.texts);
        numbers.leave_to(blocks);
    }

    /// The texts of the terms, by number, as they stand where they are packed.
    fn split_texts(&self, alloc: Global) -> Result<Vec<SplitText<'_>>, AllocError>
        ensures { IfOk result (λ v. map split_bytes v.items ≡ closed_texts self.now.texts) }
    {
        let mut texts = Vec::new(alloc);
        let mut left = self.texts.texts();
        while let Some(text) = left.next() {
            texts.push(text)?;
        }
        Ok(texts)
    }

    /// The triples, each with terms of its own.
    pub fn to_vec(&self, alloc: Global) -> Result<Vec<Triple>, AllocError>
        ensures { IfOk result (λ v. v.items ≡ small_triples self.now) }
    {
        let texts = self.split_texts(alloc)?;
        let mut triples = Vec::with_capacity(alloc, self.len())?;
        for place in 0..self.len() {
            triples.push(triple(alloc, &texts, self.numbers.at(place))?)?;
        }
        Ok(triples)
    }
}
