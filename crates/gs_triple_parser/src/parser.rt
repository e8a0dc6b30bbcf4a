//! The parser, and what is done with a term once it is read.
ghost use Rattle.std.specs.Prelude.{◌≡◌};

use crate::frames::{Frame, Goal, Slot};
use crate::places::Place;
use crate::scopes::Scope;
use crate::stacks::Stack;
use gs_model::Fault;
use gs_term::TermText;
use gs_triple_values::terms::blank;
use gs_triple_values::{Allowed, Language, Pending, Symbol, TermToken, put_first, put_rest};
use std::alloc::{AllocError, Global};

/// What a symbol does: it is taken, or the triples are over before it.
#[derive(Clone, Copy)]
pub enum Turn {
    Taken,
    Over,
}

/// A parser of the triples of a language, which takes their symbols in their order, under a base
/// and prefixes.
#[derive(Drop)]
pub struct TripleParser<L: Language> {
    pub(crate) alloc: Global,
    pub(crate) scope: Scope,
    pub(crate) allowed: Allowed,
    pub(crate) stack: Stack<L>,
    /// The triples so far, which are handed on once they are over. At `Goal::After` one more waits.
    pub(crate) pending: Pending<L>,
    /// The last string that was an object: the symbol after it decides what it means. Its memory is
    /// used again for the next one, so it is at most twice the longest string that was read.
    pub(crate) text: String,
    pub(crate) place: Place<L>,
}

impl<L: Language> TripleParser<L> {
    ghost use Rattle.gs_triples.specs.States.{Lost};
    ghost use Rattle.gs_triple_parser.specs.Views.{triples_state};
    ghost use Rattle.gs_triple_parser.specs.Counts.{CountsSymbol};
    ghost use Rattle.gs_triple_parser.specs.Machine.{Reaches, given_slot, given_top, given_opening, put_slot};

    /// After this fault nothing is read until triples open.
    pub(crate) fn lose(&mut self, fault: Fault)
        ensures { triples_state L.language self.new ≡ Lost fault }
    {
        self.place = Place::Lost(fault);
    }

    /// A symbol comes, and counts what it may take to read the base for it.
    #[inline]
    pub(crate) fn count_symbol(&mut self, symbol: Symbol) -> Result<(), AllocError>
        ensures counted { CountsSymbol result self.old.scope.context symbol.entry
            self.old.scope.budget self.new.scope.budget }
        ensures kept { self.new ≡ record self.old
            { scope = record self.old.scope { budget = self.new.scope.budget } } }
    {
        match symbol {
            Symbol::Term(TermToken::Reference(text, _)) => {
                let Scope {
                    context,
                    budget,
                    ..
                } = &mut self.scope;
                context.count_base(budget, text)
            }
            _ => Ok(()),
        }
    }

    /// A value after another one of a collection.
    fn give_item(
        &mut self,
        depth: usize,
        first: u64,
        cell: u64,
        number: u64,
        value: L::Value,
    ) -> Result<(), AllocError>
        ensures { Reaches L.language result self.new
            (given_slot L.language self.old (Slot.ToItem depth first cell number) value) }
    {
        let context = &self.scope.context;
        let budget = &mut self.scope.budget;
        let pending = &mut self.pending;
        put_first::<L>(self.alloc, context, budget, pending, number, value)?;
        let next = L::value(blank(self.alloc, context.request, number)?);
        put_rest::<L>(self.alloc, context, budget, pending, cell, next)?;
        self.place = Place::Heading(Goal::Items(depth, first, number));
        Ok(())
    }

    /// A value for a slot.
    #[inline]
    pub(crate) fn give(&mut self, slot: Slot<L>, value: L::Value) -> Result<(), AllocError>
        ensures { Reaches L.language result self.new (given_slot L.language self.old slot value) }
    {
        match slot {
            Slot::ToObject(depth, subject, verb) => {
                self.place = Place::Heading(Goal::After(depth, subject, verb, value));
                Ok(())
            }
            Slot::ToFirst(depth, number) => {
                let context = &self.scope.context;
                let budget = &mut self.scope.budget;
                let pending = &mut self.pending;
                put_first::<L>(self.alloc, context, budget, pending, number, value)?;
                self.place = Place::Heading(Goal::Items(depth, number, number));
                Ok(())
            }
            Slot::ToItem(depth, first, cell, number) => {
                self.give_item(depth, first, cell, number, value)
            }
        }
    }

    /// A collection that opens triples is over.
    fn give_opening(&mut self, subject: L::Subject)
        ensures { triples_state L.language self.new ≡ given_opening L.language self.old subject }
    {
        if self.allowed.lone_lists && !self.pending.is_empty() {
            self.place = Place::Closed(subject);
        } else {
            self.place = Place::Heading(Goal::Verbs(0, subject));
        }
    }

    /// A blank node or a collection, for what stands on top of the stack.
    pub(crate) fn give_subject(&mut self, subject: L::Subject) -> Result<(), AllocError>
        ensures { Reaches L.language result self.new
            (given_top L.language self.old (L.language.subject subject)) }
    {
        match self.stack.pop() {
            Some(Frame::ToSlot(slot)) => return self.give(slot, L::subject_value(subject)),
            Some(Frame::ToVerbs) => self.give_opening(subject),
            _ => self.lose(Fault::Syntax),
        }
        Ok(())
    }

    /// A literal for a slot, or its fault.
    #[inline]
    pub(crate) fn put(
        &mut self,
        slot: Slot<L>,
        made: Result<TermText, Fault>,
    ) -> Result<(), AllocError>
        ensures { Reaches L.language result self.new (put_slot L.language self.old slot made) }
    {
        match made {
            Ok(term) => self.give(slot, L::value(term)),
            Err(fault) => {
                self.lose(fault);
                Ok(())
            }
        }
    }
}
