//! Lists of triples.
ghost use Rattle.std.specs.Prelude.{◌≡◌, ◌==◌, [], ◌∷◌, ◌++◌, true, map, length, take, slice_get, Some};
ghost use Rattle.std.specs.Prelude.{IfOk, IfSome, OnOk, OnErr};
ghost use Rattle.std.specs.List.{All};
ghost use Rattle.gs_model.specs.Triples.{has_kinds};
ghost use Rattle.gs_triple_lists.specs.Lists.{listed};
ghost use Rattle.gs_triple_lists.specs.Kept.{HasMore, AreNumbersOf, AreNumbersIn, AreTriplesIn, AreWithin};
ghost use Rattle.gs_triple_lists.specs.Kept.{triple_of_terms, triples_of_numbers, renumbered_by};
ghost use Rattle.gs_triple_lists.specs.Texts.{triple_of_texts, AreTexts};
ghost use Rattle.gs_triple_lists.specs.Readers.{listed_left};
ghost use Rattle.gs_triple_lists.specs.Orders.{IsOrderOf};

use crate::candidates::{Candidate, Copied};
use crate::orders::{Order, is_rising, sorted};
use crate::readers::ListedTriples;
use crate::tables::TermTable;
use gs_term::{TermText, Triple};
use std::alloc::{AllocError, Global};
use std::marker::Model;
use std::mem;

/// The ranks of the terms of so few triples cost more than they spare the store.
const SHORT: usize = 4_096;

/// A triple, by the numbers that its terms have in its list.
#[derive(Clone, Copy, Debug, Drop)]
pub struct TripleNumbers {
    pub subject: u32,
    pub predicate: u32,
    pub object: u32,
}

/// Triples in the order in which they came, with repeats: a table of their terms, each mostly once, and
/// three numbers a triple. Besides, its triples in order, where that was asked for since it last changed;
/// they stand apart, where they did not come in order. A contract sees the triples.
#[derive(Debug, Drop)]
pub struct TripleList {
    table: TermTable,
    numbers: Vec<TripleNumbers>,
    order: Order,
    apart: Vec<TripleNumbers>,
}

impl Model for TripleList {
    ghost use Rattle.gs_triple_lists.specs.Lists.{Listed, listed_code, listed};

    ghost Value = { Listed };

    ghost coded = { listed_code };

    ghost use Rattle.gs_triple_lists.specs.Kept.{triples_of_numbers, AreTriplesIn};
    ghost use Rattle.gs_triple_lists.specs.Orders.{IsOrdered};

    ghost view = { λ l. listed (triples_of_numbers l.table.terms.items l.numbers.items) };

    ghost invariant = { λ l. AreTriplesIn l.table.terms.items l.numbers.items
        × IsOrdered l.order l.table.terms.items l.numbers.items l.apart.items };
}

/// A number of a triple's subject, which is mostly that of the triple before.
fn subject_number<C: Candidate>(
    table: &mut TermTable,
    numbers: &[TripleNumbers],
    subject: C,
) -> Result<u32, AllocError>
    ensures more { HasMore table.old.terms.items table.new.terms.items }
    ensures ok { IfOk result (λ n. slice_get table.new.terms.items n ≡ Some (C.term subject)) }
{
    match numbers.last() {
        Some(last) if table.is_number_of(last.subject, &subject) => Ok(last.subject),
        _ => table.number_of(subject),
    }
}

/// A number of the predicate of a triple whose subject has this number. Where the triple before has another
/// subject, it is often that of the triple before; triples of one subject mostly have other predicates.
fn predicate_number<C: Candidate>(
    table: &mut TermTable,
    numbers: &[TripleNumbers],
    subject: u32,
    predicate: C,
) -> Result<u32, AllocError>
    ensures more { HasMore table.old.terms.items table.new.terms.items }
    ensures ok { IfOk result (λ n. slice_get table.new.terms.items n ≡ Some (C.term predicate)) }
{
    match numbers.last() {
        Some(last) if last.subject != subject && table.is_number_of(last.predicate, &predicate) => {
            Ok(last.predicate)
        }
        _ => table.number_of(predicate),
    }
}

/// Numbers of a triple's terms, where these triples are in the list.
fn numbers_of<C: Candidate>(
    table: &mut TermTable,
    numbers: &[TripleNumbers],
    subject: C,
    predicate: C,
    object: C,
) -> Result<TripleNumbers, AllocError>
    requires { has_kinds (triple_of_terms (C.term subject) (C.term predicate) (C.term object)) ≡ true }
    ensures more { HasMore table.old.terms.items table.new.terms.items }
    ensures ok { IfOk result (AreNumbersOf table.new.terms.items
        (triple_of_terms (C.term subject) (C.term predicate) (C.term object))) }
{
    let subject = subject_number(table, numbers, subject)?;
    let predicate = predicate_number(table, numbers, subject, predicate)?;
    let object = table.number_of(object)?;
    Ok(TripleNumbers {
        subject,
        predicate,
        object,
    })
}

/// Puts all terms of a table into another one, in their order, and gives their numbers there.
fn moved_terms(
    alloc: Global,
    from: &mut TermTable,
    to: &mut TermTable,
) -> Result<Vec<u32>, AllocError>
    ensures more { HasMore to.old.terms.items to.new.terms.items }
    ensures ok { IfOk result (λ v. AreNumbersIn to.new.terms.items from.old.terms.items v.items) }
{
    let mut numbers = Vec::with_capacity(alloc, from.terms.len())?;
    from.terms.reverse();
    while let Some(term) = from.terms.pop() {
        let number = to.number_of(term)?;
        numbers.push(number)?;
    }
    Ok(numbers)
}

/// The numbers of a triple's terms among others, by those that the terms have there.
fn renumbered(numbers: &[u32], three: TripleNumbers) -> TripleNumbers
    requires within { AreWithin (length numbers.now) three }
    ensures { result ≡ renumbered_by numbers.now three }
{
    TripleNumbers {
        subject: numbers[three.subject as usize],
        predicate: numbers[three.predicate as usize],
        object: numbers[three.object as usize],
    }
}

/// Gives triples the numbers that their terms have among others.
fn renumber(numbers: &[u32], threes: &mut [TripleNumbers])
    requires within { All (AreWithin (length numbers.now)) threes.old }
    ensures { threes.new ≡ map (renumbered_by numbers.now) threes.old }
{
    for three in threes.iter_mut() {
        *three = renumbered(numbers, *three);
    }
}

/// Moves triples to the end of others, with the numbers that their terms have among these.
fn append_renumbered(
    known: &mut Vec<TripleNumbers>,
    threes: &mut Vec<TripleNumbers>,
    numbers: &[u32],
) -> Result<(), AllocError>
    requires within { All (AreWithin (length numbers.now)) threes.old.items }
    ensures added { OnOk result (known.new.items
        ≡ known.old.items ++ map (renumbered_by numbers.now) threes.old.items) }
    ensures taken { OnOk result (threes.new.items ≡ []) }
    ensures kept { OnErr result (known.new.items ≡ known.old.items) }
{
    renumber(numbers, threes);
    known.append(threes)
}

impl TripleList {
    /// Without triples. Takes no memory.
    pub fn new(alloc: Global) -> TripleList
        ensures { result ≡ listed [] }
    {
        TripleList {
            table: TermTable::new(alloc),
            numbers: Vec::new(alloc),
            order: Order::Unknown,
            apart: Vec::new(alloc),
        }
    }

    /// How many triples there are.
    pub fn len(&self) -> usize
        ensures { result ≡ length self.now.items }
    {
        self.numbers.len()
    }

    /// Whether there is none.
    pub fn is_empty(&self) -> bool
        ensures { result ≡ (length self.now.items == 0) }
    {
        self.len() == 0
    }

    /// Its terms, by number, and the numbers of each triple's terms.
    pub fn parts(&self) -> (&[TermText], &[TripleNumbers])
        ensures triples { triples_of_numbers result.0.now result.1.now ≡ self.now.items }
        ensures known { AreTriplesIn result.0.now result.1.now }
    {
        (self.table.terms.as_slice(), self.numbers.as_slice())
    }

    /// A reader of its triples, the first one first.
    pub fn triples(&self) -> ListedTriples<'_>
        ensures { listed_left result ≡ self.now.items }
    {
        let (terms, numbers) = self.parts();
        ListedTriples::new(terms, numbers)
    }

    /// Adds a triple. Where memory is refused, nothing is added.
    pub fn push(&mut self, triple: Triple) -> Result<(), AllocError>
        ensures added { OnOk result (self.new ≡ listed (self.old.items ++ triple ∷ [])) }
        ensures kept { OnErr result (self.new ≡ self.old) }
    {
        self.order = Order::Unknown;
        self.numbers.reserve(1)?;
        // For the proof that the terms are of the kinds of a triple.
        triple.known();
        let (subject, predicate, object) = triple.into_terms();
        let three = numbers_of(&mut self.table, &self.numbers, subject, predicate, object)?;
        self.numbers.push_reserved(three);
        Ok(())
    }

    /// Adds the triple of the terms of three texts. A text is copied only where the list does not have it yet,
    /// or does not find it. Where memory is refused, nothing is added.
    pub fn push_texts(
        &mut self,
        subject: &[u8],
        predicate: &[u8],
        object: &[u8],
    ) -> Result<(), AllocError>
        requires { AreTexts subject.now predicate.now object.now }
        ensures added { OnOk result (self.new
            ≡ listed (self.old.items ++ triple_of_texts subject.now predicate.now object.now ∷ [])) }
        ensures kept { OnErr result (self.new ≡ self.old) }
    {
        self.order = Order::Unknown;
        self.numbers.reserve(1)?;
        let alloc = *self.numbers.allocator();
        let subject = Copied::new(alloc, subject);
        let predicate = Copied::new(alloc, predicate);
        let object = Copied::new(alloc, object);
        let three = numbers_of(&mut self.table, &self.numbers, subject, predicate, object)?;
        self.numbers.push_reserved(three);
        Ok(())
    }

    /// Moves the triples of a list to the end of one that has some.
    fn take_terms_from(&mut self, other: &mut TripleList) -> Result<(), AllocError>
        ensures added { OnOk result (self.new ≡ listed (self.old.items ++ other.old.items)) }
        ensures kept { OnErr result (self.new ≡ self.old) }
    {
        self.order = Order::Unknown;
        other.order = Order::Unknown;
        let alloc = *self.numbers.allocator();
        let mut threes = mem::replace(&mut other.numbers, Vec::new(alloc));
        let numbers = moved_terms(alloc, &mut other.table, &mut self.table)?;
        append_renumbered(&mut self.numbers, &mut threes, &numbers)?;
        other.numbers = threes;
        Ok(())
    }

    /// Moves the triples of a list to the end, in their order, so that it is empty. Where memory is
    /// refused, none is added, and the other list is of no more use.
    pub fn take_from(&mut self, other: &mut TripleList) -> Result<(), AllocError>
        ensures added { OnOk result (self.new ≡ listed (self.old.items ++ other.old.items)) }
        ensures taken { OnOk result (other.new ≡ listed []) }
        ensures kept { OnErr result (self.new ≡ self.old) }
    {
        if self.is_empty() {
            mem::swap(self, other);
        } else {
            self.take_terms_from(other)?;
        }
        other.clear();
        Ok(())
    }

    /// Leaves no triple and no term. The room for them stays.
    pub fn clear(&mut self)
        ensures { self.new ≡ listed [] }
    {
        self.order = Order::Unknown;
        self.numbers.clear();
        self.table.clear();
    }

    /// Moves these triples to the end, in their order. Where memory is refused, none is added, some of
    /// the argument's are gone, and its others stand in reverse.
    pub fn append(&mut self, triples: &mut Vec<Triple>) -> Result<(), AllocError>
        ensures added { OnOk result (self.new ≡ listed (self.old.items ++ triples.old.items)) }
        ensures taken { OnOk result (triples.new.items ≡ []) }
        ensures kept { OnErr result (self.new ≡ self.old) }
    {
        let count = self.len();
        triples.reverse();
        while let Some(triple) = triples.pop() {
            if let Err(refused) = self.push(triple) {
                self.truncate(count);
                return Err(refused);
            }
        }
        Ok(())
    }

    /// A list of these triples.
    pub fn of(alloc: Global, mut triples: Vec<Triple>) -> Result<TripleList, AllocError>
        ensures { IfOk result (λ l. l ≡ listed triples.items) }
    {
        let mut list = TripleList::new(alloc);
        list.append(&mut triples)?;
        Ok(list)
    }

    /// Its triples, each with terms of its own.
    pub fn to_vec(&self, alloc: Global) -> Result<Vec<Triple>, AllocError>
        ensures { IfOk result (λ v. v.items ≡ self.now.items) }
    {
        let mut triples = Vec::with_capacity(alloc, self.len())?;
        let mut left = self.triples();
        while let Some(triple) = left.next() {
            triples.push(triple.to_triple()?)?;
        }
        Ok(triples)
    }

    /// Leaves the first triples, so many.
    pub fn truncate(&mut self, count: usize)
        ensures { self.new ≡ listed (take count self.old.items) }
    {
        self.order = Order::Unknown;
        self.numbers.truncate(count);
    }

    /// Gives back room that its triples and its terms do not take.
    pub fn shrink_to_fit(&mut self)
        ensures { self.new ≡ self.old }
    {
        self.numbers.shrink_to_fit();
        self.table.terms.shrink_to_fit();
    }

    /// Puts its triples in order, for `ordered_parts`, until the list is changed. The triples stay as they
    /// came. Where memory is refused, nothing changes. At most 4,096 that do not rise are left in no order,
    /// and the store sorts them.
    pub fn put_in_order(&mut self) -> Result<(), AllocError>
        ensures { self.new ≡ self.old }
    {
        if is_rising(&self.table.terms, &self.numbers) {
            self.order = Order::AsTheyCame;
            return Ok(());
        }
        if self.numbers.len() <= SHORT {
            return Ok(());
        }
        let alloc = *self.numbers.allocator();
        self.apart = sorted(alloc, &self.table.terms, &self.numbers)?;
        self.order = Order::Apart;
        Ok(())
    }

    /// Its terms, by number, and the numbers of its triples in order, each once, where they were put in
    /// order.
    pub fn ordered_parts(&self) -> Option<(&[TermText], &[TripleNumbers])>
        ensures { IfSome result (λ p. IsOrderOf p.0.now self.now.items p.1.now) }
    {
        let numbers = match self.order {
            Order::Unknown => return None,
            Order::AsTheyCame => self.numbers.as_slice(),
            Order::Apart => self.apart.as_slice(),
        };
        Some((self.table.terms.as_slice(), numbers))
    }
}
