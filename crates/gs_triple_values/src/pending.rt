//! The triples so far, which wait for what ends them.
ghost use Rattle.std.specs.Prelude.{◌≡◌, ◌+◌, ◌≤◌, ◌++◌, [], nat_lt, nat_le, ◌==◌, length, OnOk, OnErr};
ghost use Rattle.gs_triple_values.specs.Languages.{triple_in};
ghost use Rattle.gs_triple_values.specs.Terms.{first_of, rest_of};
ghost use Rattle.gs_triple_values.specs.Waiting.{Adds, Counts, TakesOff, counted_for, waiting};

use crate::languages::Language;
use gs_token_terms::terms::blank;
use gs_token_terms::{Budget, Context, rdf_first, rdf_rest};
use std::alloc::{AllocError, Global};

/// So many triples wait by themselves, which most statements never reach.
const FEW: usize = 64;

/// Triples that wait for what ends them. At first each has terms of its own. Once there are 64 they join a
/// list, which has a term mostly once, so a subject with many objects is not kept with each of them.
#[derive(Drop)]
pub struct Pending<L: Language> {
    pub(crate) list: L::List,
    pub(crate) others: Vec<L::Triple>,
    /// How many bytes of texts were counted for the list, and for the others.
    listed: usize,
    counted: usize,
}

impl<L: Language> Pending<L> {
    /// No triples. Takes no memory.
    pub fn new(alloc: Global) -> Pending<L>
        ensures triples { waiting L.language result ≡ [] }
        ensures counted { counted_for result ≡ 0 }
    {
        Pending {
            list: L::no_triples(alloc),
            others: Vec::new(alloc),
            listed: 0,
            counted: 0,
        }
    }

    /// Leaves no triple.
    pub fn clear(&mut self)
        ensures triples { waiting L.language self.new ≡ [] }
        ensures counted { counted_for self.new ≡ 0 }
    {
        L::clear(&mut self.list);
        self.others.clear();
        self.listed = 0;
        self.counted = 0;
    }

    /// Whether there are more triples than so many.
    pub fn has_more_than(&self, most: usize) -> bool
        ensures { result ≡ nat_lt most (length (waiting L.language self.now)) }
    {
        match most.checked_sub(L::count(&self.list)) {
            None => true,
            Some(left) => self.others.len() > left,
        }
    }

    /// Whether there are as many triples.
    pub fn has_as_many_as(&self, least: usize) -> bool
        ensures { result ≡ nat_le least (length (waiting L.language self.now)) }
    {
        match least.checked_sub(L::count(&self.list)) {
            None => true,
            Some(left) => self.others.len() >= left,
        }
    }

    /// Whether there is none.
    pub fn is_empty(&self) -> bool
        ensures { result ≡ (length (waiting L.language self.now) == 0) }
    {
        !self.has_more_than(0)
    }

    /// The triples join the list. What it knew of their texts counts no longer.
    fn settle(&mut self, budget: &mut Budget) -> Result<(), AllocError>
        ensures same { OnOk result (waiting L.language self.new ≡ waiting L.language self.old) }
        ensures settled { OnOk result (self.new.others.items ≡ []) }
        ensures counted { OnOk result (self.new.counted ≡ 0) }
        ensures budget { OnOk result (TakesOff budget.old budget.new self.old.counted) }
        ensures all { OnOk result (budget.old.used + counted_for self.new
            ≤ budget.new.used + counted_for self.old) }
    {
        let kept = L::add_all(&mut self.others, &mut self.list)?;
        budget.trade(self.counted, kept);
        self.listed = self.listed.saturating_add(self.counted.min(kept));
        self.counted = 0;
        Ok(())
    }

    /// A triple for whose texts so many bytes count.
    fn add(
        &mut self,
        budget: &mut Budget,
        triple: L::Triple,
        bytes: usize,
    ) -> Result<(), AllocError>
        ensures added { Adds L.language result self.old self.new triple }
        ensures counted { OnOk result (Counts self.old self.new budget.old budget.new bytes) }
    {
        budget.count(bytes)?;
        self.others.push(triple)?;
        self.counted = self.counted.saturating_add(bytes);
        if self.others.len() < FEW {
            return Ok(());
        }
        self.settle(budget)
    }

    /// Moves the triples to the end of a list, and counts what it takes for their texts. Where memory is
    /// refused, the list is as it was.
    pub fn append_to(&mut self, budget: &mut Budget, list: &mut L::List) -> Result<(), AllocError>
        ensures added { OnOk result (L.language.items list.new
            ≡ L.language.items list.old ++ waiting L.language self.old) }
        ensures taken { OnOk result (waiting L.language self.new ≡ []) }
        ensures counted { OnOk result (counted_for self.new ≡ 0) }
        ensures budget { OnOk result (TakesOff budget.old budget.new (counted_for self.old)) }
        ensures kept { OnErr result (L.language.items list.new ≡ L.language.items list.old) }
    {
        if L::count(&self.list) == 0 {
            let kept = L::add_all(&mut self.others, list)?;
            budget.trade(self.counted, kept);
            self.listed = 0;
            self.counted = 0;
            return Ok(());
        }
        self.settle(budget)?;
        let kept = L::append(&mut self.list, list)?;
        budget.trade(self.listed, kept);
        self.listed = 0;
        Ok(())
    }
}

/// A triple of a subject and a verb that stay.
#[inline]
pub fn put<L: Language>(
    alloc: Global,
    budget: &mut Budget,
    pending: &mut Pending<L>,
    subject: &L::Subject,
    verb: &L::Verb,
    object: L::Value,
) -> Result<(), AllocError>
    ensures added { Adds L.language result pending.old pending.new
        (triple_in L.language subject.now verb.now object) }
    ensures counted { OnOk result (Counts pending.old pending.new budget.old budget.new
        (L.triple_size (triple_in L.language subject.now verb.now object))) }
{
    let triple = L::next_triple(alloc, subject, verb, object)?;
    let bytes = L::triple_bytes(&triple);
    pending.add(budget, triple, bytes)
}

/// The last triple of a verb, of a subject that stays.
#[inline]
pub fn put_last<L: Language>(
    alloc: Global,
    budget: &mut Budget,
    pending: &mut Pending<L>,
    subject: &L::Subject,
    verb: L::Verb,
    object: L::Value,
) -> Result<(), AllocError>
    ensures added { Adds L.language result pending.old pending.new
        (triple_in L.language subject.now verb object) }
    ensures counted { OnOk result (Counts pending.old pending.new budget.old budget.new
        (L.triple_size (triple_in L.language subject.now verb object))) }
{
    let triple = L::last_triple(alloc, subject, verb, object)?;
    let bytes = L::triple_bytes(&triple);
    pending.add(budget, triple, bytes)
}

/// The last triple of a subject.
#[inline]
pub fn put_end<L: Language>(
    budget: &mut Budget,
    pending: &mut Pending<L>,
    subject: L::Subject,
    verb: L::Verb,
    object: L::Value,
) -> Result<(), AllocError>
    ensures added { Adds L.language result pending.old pending.new
        (triple_in L.language subject verb object) }
    ensures counted { OnOk result (Counts pending.old pending.new budget.old budget.new
        (L.triple_size (triple_in L.language subject verb object))) }
{
    let triple = L::triple(subject, verb, object);
    let bytes = L::triple_bytes(&triple);
    pending.add(budget, triple, bytes)
}

/// The object of a cell. The object alone counts: what else a cell has is short.
pub fn put_first<L: Language>(
    alloc: Global,
    context: &Context,
    budget: &mut Budget,
    pending: &mut Pending<L>,
    cell: u64,
    object: L::Value,
) -> Result<(), AllocError>
    ensures added { Adds L.language result pending.old pending.new
        (first_of L.language context.now cell object) }
    ensures counted { OnOk result (Counts pending.old pending.new budget.old budget.new
        (L.value_size object)) }
{
    let bytes = L::value_bytes(&object);
    let cell = L::subject(blank(alloc, context.request, cell)?);
    let verb = L::verb(rdf_first(alloc)?);
    pending.add(budget, L::triple(cell, verb, object), bytes)
}

/// What stands after a cell: the next cell, or the end of the collection, so no long text.
pub fn put_rest<L: Language>(
    alloc: Global,
    context: &Context,
    budget: &mut Budget,
    pending: &mut Pending<L>,
    cell: u64,
    object: L::Value,
) -> Result<(), AllocError>
    ensures added { Adds L.language result pending.old pending.new
        (rest_of L.language context.now cell object) }
    ensures counted { OnOk result (Counts pending.old pending.new budget.old budget.new 0) }
{
    let cell = L::subject(blank(alloc, context.request, cell)?);
    let verb = L::verb(rdf_rest(alloc)?);
    pending.add(budget, L::triple(cell, verb, object), 0)
}
