//! Terms of a list packed, and where each is.
ghost use Rattle.std.specs.Prelude.{◌≡◌, ◌≤◌, ◌^◌, length, IfOk};
ghost use Rattle.std.specs.List.{All};
ghost use Rattle.std.proofs.Props.{props};
ghost use Rattle.gs_model.specs.Texts.{IsCanonical};
ghost use Rattle.gs_packed_texts.specs.Texts.{texts_of};
ghost use Rattle.gs_small_triples.specs.Kept.{IsBelow, moved, numbers_in};
ghost use Rattle.gs_small_triples.specs.Props.{IsText-prop};

use crate::numbers::Numbers;
use gs_packed_texts::PackedTexts;
use gs_term::TermText;
use gs_triple_lists::TripleNumbers;
use std::alloc::{AllocError, Global};

/// Texts of terms, and for each number of a term the place of its text.
#[derive(Drop)]
pub struct Packing {
    pub texts: PackedTexts,
    places: Vec<u32>,
    count: usize,
    ghost counted: { count ≡ length (texts_of texts) },
    ghost few: { count ≤ 2 ^ 32 },
    ghost canonical: { All IsCanonical (texts_of texts) } by { Prim.hlevel (IsText-prop, props) },
}

/// The numbers by which a triple's terms are packed.
fn moved_numbers(places: &[u32], numbers: TripleNumbers) -> TripleNumbers
    requires { IsBelow (length places.now) numbers }
    ensures { result ≡ moved places.now numbers }
{
    TripleNumbers {
        subject: places[numbers.subject as usize],
        predicate: places[numbers.predicate as usize],
        object: places[numbers.object as usize],
    }
}

/// For each of so many terms, whether it is the predicate of a triple of these numbers.
fn predicates_of(
    alloc: Global,
    terms: usize,
    numbers: &[TripleNumbers],
) -> Result<Vec<bool>, AllocError>
    ensures { IfOk result (λ v. length v.items ≡ terms) }
{
    let mut is_predicate = vec![in alloc; false; terms]?;
    for three in numbers {
        if let Some(flag) = is_predicate.get_mut(three.predicate as usize) {
            *flag = true;
        }
    }
    Ok(is_predicate)
}

/// How many bytes the texts of these terms have in all.
fn bytes_of(terms: &[TermText]) -> usize {
    let mut bytes = 0usize;
    for term in terms {
        bytes = bytes.saturating_add(term.as_bytes().len());
    }
    bytes
}

impl Packing {
    ghost use Rattle.std.specs.Prelude.{◌≡◌, ◌<◌, ℕ, false, length, map, slice_index_or, IfOk, OnOk};
    ghost use Rattle.std.specs.List.{All};
    ghost use Rattle.gs_small_triples.specs.Packed.{term_places, IsPlaced, StayPlaced, ArePlaced, HavePlaces};

    /// No texts, with room for those of these terms, and a place yet to be noted for each.
    fn new(alloc: Global, terms: &[TermText]) -> Result<Packing, AllocError>
        ensures { IfOk result (λ p. length p.places.items ≡ length terms.now) }
    {
        let mut texts = PackedTexts::new(alloc);
        texts.make_room(terms.len(), bytes_of(terms))?;
        let places = vec![in alloc; 0u32; terms.len()]?;
        Ok(Packing {
            texts,
            places,
            count: 0,
        })
    }

    /// Packs the term of a number.
    fn pack(&mut self, terms: &[TermText], number: usize) -> Result<(), AllocError>
        requires inside { number < length terms.now }
        requires noted { length self.old.places.items ≡ length terms.now }
        ensures noted { length self.new.places.items ≡ length terms.now }
        ensures placed { OnOk result (IsPlaced terms.now self.new number) }
        ensures stay { StayPlaced terms.now self.old self.new }
    {
        let Ok(place) = u32::try_from(self.count) else {
            return Err(AllocError);
        };
        let text = terms[number].as_bytes();
        self.texts.make_room(1, text.len())?;
        self.texts.push(text);
        self.count += 1;
        self.places[number] = place;
        Ok(())
    }

    /// Packs the term of a number if it is flagged, or if it is not, as is asked.
    fn pack_if(
        &mut self,
        terms: &[TermText],
        flags: &[bool],
        number: usize,
        flag: bool,
    ) -> Result<(), AllocError>
        requires inside { number < length terms.now }
        requires flagged { length flags.now ≡ length terms.now }
        requires noted { length self.old.places.items ≡ length terms.now }
        ensures noted { length self.new.places.items ≡ length terms.now }
        ensures placed { OnOk result (slice_index_or flags.now number false ≡ flag
            → IsPlaced terms.now self.new number) }
        ensures stay { StayPlaced terms.now self.old self.new }
    {
        if flags[number] != flag {
            return Ok(());
        }
        self.pack(terms, number)
    }

    /// Packs the terms that are flagged, or those that are not.
    fn pack_kind(
        &mut self,
        terms: &[TermText],
        flags: &[bool],
        flag: bool,
    ) -> Result<(), AllocError>
        requires flagged { length flags.now ≡ length terms.now }
        requires noted { length self.old.places.items ≡ length terms.now }
        ensures noted { length self.new.places.items ≡ length terms.now }
        ensures placed { OnOk result ((k : ℕ) → k < length terms.now
            → slice_index_or flags.now k false ≡ flag → IsPlaced terms.now self.new k) }
        ensures stay { StayPlaced terms.now self.old self.new }
    {
        for number in 0..terms.len() {
            self.pack_if(terms, flags, number, flag)?;
        }
        Ok(())
    }

    /// Terms packed, the predicates of these triples first: among the others they would part IRIs that
    /// begin alike.
    pub fn of(
        alloc: Global,
        terms: &[TermText],
        numbers: &[TripleNumbers],
    ) -> Result<Packing, AllocError>
        ensures placed { IfOk result (ArePlaced terms.now) }
    {
        let is_predicate = predicates_of(alloc, terms.len(), numbers)?;
        let mut packing = Packing::new(alloc, terms)?;
        packing.pack_kind(terms, &is_predicate, true)?;
        packing.pack_kind(terms, &is_predicate, false)?;
        Ok(packing)
    }

    /// Numbers of triples, moved to the places of their terms.
    pub fn numbers(&self, alloc: Global, numbers: &[TripleNumbers]) -> Result<Numbers, AllocError>
        requires { All (HavePlaces self.now) numbers.now }
        ensures { IfOk result (λ n. numbers_in n ≡ map (moved (term_places self.now)) numbers.now) }
    {
        let mut kept = Numbers::new(alloc, self.count, numbers.len())?;
        for three in numbers {
            kept.push(moved_numbers(&self.places, *three))?;
        }
        Ok(kept)
    }
}
