//! One symbol at a goal within triples.
ghost use Rattle.std.specs.Prelude.{◌≡◌, OnOk, IfOk};
ghost use Rattle.gs_triples.specs.Reading.{begins_verb as begins_verb_of};
ghost use Rattle.gs_triple_values.specs.Views.{symbol_at};

use crate::frames::{Frame, Goal, Slot};
use crate::parser::{TripleParser, Turn};
use crate::places::Place;
use gs_model::Fault;
use gs_triple_values::terms::blank;
use gs_triple_values::{Language, Symbol, put, put_end, put_last, put_rest, rdf_nil};
use std::alloc::AllocError;

/// Whether a verb may begin with it: a term or `a`.
pub fn begins_verb(symbol: Symbol) -> bool
    ensures { result ≡ begins_verb_of (symbol_at symbol.entry) }
{
    matches!(symbol, Symbol::Term(_) | Symbol::A)
}

impl<L: Language> TripleParser<L> {
    ghost use Rattle.gs_triples.specs.States.{Goes};
    ghost use Rattle.gs_triple_parser.specs.Views.{triples_state, triples_turn};
    ghost use Rattle.gs_triple_parser.specs.Machine.{Reaches, IsTaken, Turned, head_of, first_object_of};

    /// A symbol after the `[` of an object.
    fn inside(&mut self, depth: usize, number: u64, symbol: Symbol) -> Result<(), AllocError>
        ensures { IsTaken L.language result self.new
            (head_of L.language self.old (Goal.Inside depth number) symbol.entry) }
    {
        let node = L::subject(blank(self.alloc, self.scope.context.request, number)?);
        match symbol {
            Symbol::Close => self.give_subject(node),
            _ => {
                self.stack.push(Frame::ToClose(number))?;
                self.at_verb(depth, node, symbol)
            }
        }
    }

    /// The first symbol in a collection that is not empty, where one may stand.
    fn first_object(&mut self, depth: usize, symbol: Symbol) -> Result<(), AllocError>
        ensures { Reaches L.language result self.new
            (first_object_of L.language self.old depth symbol.entry) }
    {
        if !self.allowed.nodes {
            self.lose(Fault::Syntax);
            return Ok(());
        }
        let Ok(number) = self.scope.numbering.fresh() else {
            return Err(AllocError);
        };
        self.object(depth, Slot::ToFirst(depth, number), symbol)
    }

    /// A symbol after the `(` of a collection.
    fn begun(&mut self, depth: usize, symbol: Symbol) -> Result<(), AllocError>
        ensures { IsTaken L.language result self.new
            (head_of L.language self.old (Goal.Begun depth) symbol.entry) }
    {
        match symbol {
            Symbol::CloseList => {
                let nil = rdf_nil(self.alloc)?;
                self.give_subject(L::subject(nil))
            }
            _ => self.first_object(depth, symbol),
        }
    }

    /// The `)` of a collection that has a cell.
    fn end_list(&mut self, depth: usize, first: u64, cell: u64) -> Result<(), AllocError>
        ensures { IsTaken L.language result self.new
            (head_of L.language self.old (Goal.Items depth first cell) Symbol.CloseList) }
    {
        let context = &self.scope.context;
        let budget = &mut self.scope.budget;
        let nil = L::value(rdf_nil(self.alloc)?);
        put_rest::<L>(self.alloc, context, budget, &mut self.pending, cell, nil)?;
        let node = blank(self.alloc, context.request, first)?;
        self.give_subject(L::subject(node))
    }

    /// A symbol after an object of a collection.
    #[inline]
    fn items(
        &mut self,
        depth: usize,
        first: u64,
        cell: u64,
        symbol: Symbol,
    ) -> Result<(), AllocError>
        ensures { IsTaken L.language result self.new
            (head_of L.language self.old (Goal.Items depth first cell) symbol.entry) }
    {
        match symbol {
            Symbol::CloseList => self.end_list(depth, first, cell),
            _ => {
                let Ok(number) = self.scope.numbering.fresh() else {
                    return Err(AllocError);
                };
                let slot = Slot::ToItem(depth, first, cell, number);
                self.object(depth, slot, symbol)
            }
        }
    }

    /// A symbol after an object of a verb, of which the triple is made here.
    #[inline]
    fn after(
        &mut self,
        depth: usize,
        subject: L::Subject,
        verb: L::Verb,
        object: L::Value,
        symbol: Symbol,
    ) -> Result<Turn, AllocError>
        ensures { Turned L.language result self.new
            (head_of L.language self.old (Goal.After depth subject verb object) symbol.entry) }
    {
        match symbol {
            Symbol::Comma => {
                let budget = &mut self.scope.budget;
                let pending = &mut self.pending;
                put::<L>(self.alloc, budget, pending, &subject, &verb, object)?;
                self.place = Place::Heading(Goal::Object(depth, subject, verb));
                Ok(Turn::Taken)
            }
            Symbol::Semicolon => {
                let budget = &mut self.scope.budget;
                let pending = &mut self.pending;
                put_last::<L>(self.alloc, budget, pending, &subject, verb, object)?;
                self.place = Place::Heading(Goal::Semis(depth, subject));
                Ok(Turn::Taken)
            }
            _ => {
                let budget = &mut self.scope.budget;
                put_end::<L>(budget, &mut self.pending, subject, verb, object)?;
                self.leave(symbol)
            }
        }
    }

    /// A symbol after a `;`.
    #[inline]
    fn semis(
        &mut self,
        depth: usize,
        subject: L::Subject,
        symbol: Symbol,
    ) -> Result<Turn, AllocError>
        ensures { Turned L.language result self.new
            (head_of L.language self.old (Goal.Semis depth subject) symbol.entry) }
    {
        match symbol {
            Symbol::Semicolon => {
                self.place = Place::Heading(Goal::Semis(depth, subject));
                Ok(Turn::Taken)
            }
            Symbol::Term(_) | Symbol::A => {
                self.at_verb(depth, subject, symbol)?;
                Ok(Turn::Taken)
            }
            _ => self.leave(symbol),
        }
    }

    /// One symbol at a goal.
    #[inline(always)]
    pub(crate) fn head(&mut self, goal: Goal<L>, symbol: Symbol) -> Result<Turn, AllocError>
        ensures { Turned L.language result self.new (head_of L.language self.old goal symbol.entry) }
    {
        match goal {
            Goal::Object(depth, subject, verb) => {
                self.object(depth, Slot::ToObject(depth, subject, verb), symbol)?;
            }
            Goal::Inside(depth, number) => self.inside(depth, number, symbol)?,
            Goal::Verbs(depth, subject) => self.at_verb(depth, subject, symbol)?,
            Goal::After(depth, subject, verb, object) => {
                return self.after(depth, subject, verb, object, symbol);
            }
            Goal::Semis(depth, subject) => return self.semis(depth, subject, symbol),
            Goal::Begun(depth) => self.begun(depth, symbol)?,
            Goal::Items(depth, first, cell) => self.items(depth, first, cell, symbol)?,
        }
        Ok(Turn::Taken)
    }
}
