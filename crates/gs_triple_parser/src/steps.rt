//! One symbol more.
ghost use Rattle.std.specs.Prelude.{◌≡◌, OnOk, IfOk};

use crate::frames::{Frame, Slot};
use crate::goals::begins_verb;
use crate::parser::{TripleParser, Turn};
use crate::places::Place;
use gs_model::Fault;
use gs_triple_values::terms::{self, blank};
use gs_triple_values::{Language, Symbol};
use std::alloc::AllocError;
use std::mem;

impl<L: Language> TripleParser<L> {
    ghost use Rattle.gs_triples.specs.States.{Goes};
    ghost use Rattle.gs_triples.specs.Machine as machine;
    ghost use Rattle.gs_triple_values.specs.Views.{symbol_at};
    ghost use Rattle.gs_triple_parser.specs.Views.{triples_state, triples_turn};
    ghost use Rattle.gs_triple_parser.specs.Machine.{IsTaken, Turned, simple_of, step_of, turn_after_string};

    /// A symbol after a `[` that opens triples.
    #[tactic(auto, unfolding(gs_triples::specs::Machine::step))]
    fn opened(&mut self, symbol: Symbol) -> Result<(), AllocError>
        ensures { IsTaken L.language result self.new (step_of L.language self.old Place.Opened symbol.entry) }
    {
        let Ok(number) = self.scope.numbering.fresh() else {
            return Err(AllocError);
        };
        let node = L::subject(blank(self.alloc, self.scope.context.request, number)?);
        match symbol {
            Symbol::Close => {
                self.begin(node);
                Ok(())
            }
            _ => {
                self.stack.clear();
                self.pending.clear();
                self.stack.push(Frame::ToMore(number))?;
                self.at_verb(1, node, symbol)
            }
        }
    }

    /// A symbol after the properties that open triples.
    #[tactic(auto, unfolding(gs_triples::specs::Machine::step))]
    fn closed(&mut self, subject: L::Subject, symbol: Symbol) -> Result<Turn, AllocError>
        ensures { Turned L.language result self.new
            (step_of L.language self.old (Place.Closed subject) symbol.entry) }
    {
        if !begins_verb(symbol) {
            return Ok(Turn::Over);
        }
        self.stack.clear();
        self.at_verb(0, subject, symbol)?;
        Ok(Turn::Taken)
    }

    /// A symbol after the string that was an object.
    #[inline]
    #[tactic(auto, unfolding(gs_triples::specs::Machine::step))]
    fn go_on(&mut self, symbol: Symbol) -> Result<Turn, AllocError>
        ensures { Turned L.language result self.new
            (turn_after_string (triples_state L.language self.old) symbol.entry) }
    {
        match mem::replace(&mut self.place, Place::Lost(Fault::Syntax)) {
            Place::Heading(goal) => self.head(goal, symbol),
            Place::Closed(subject) => self.closed(subject, symbol),
            Place::Lost(fault) => {
                self.lose(fault);
                Ok(Turn::Taken)
            }
            _ => Ok(Turn::Taken),
        }
    }

    /// A symbol after a string that has no suffix.
    #[inline]
    fn simple(&mut self, slot: Slot<L>, symbol: Symbol) -> Result<Turn, AllocError>
        ensures { Turned L.language result self.new
            (turn_after_string (simple_of L.language self.old slot) symbol.entry) }
    {
        let made = terms::simple(self.alloc, self.text.as_str())?;
        self.put(slot, made)?;
        self.go_on(symbol)
    }

    /// A symbol after a string.
    #[inline]
    #[tactic(auto, unfolding(gs_triples::specs::Machine::step))]
    fn held(&mut self, slot: Slot<L>, symbol: Symbol) -> Result<Turn, AllocError>
        ensures { Turned L.language result self.new
            (step_of L.language self.old (Place.Held slot) symbol.entry) }
    {
        match symbol {
            Symbol::At(tag) => {
                let made = terms::tagged(self.alloc, self.text.as_str(), tag)?;
                self.put(slot, made)?;
                Ok(Turn::Taken)
            }
            Symbol::Carets => {
                self.place = Place::Typing(slot);
                Ok(Turn::Taken)
            }
            _ => self.simple(slot, symbol),
        }
    }

    /// The datatype of a string.
    #[tactic(auto, unfolding(gs_triples::specs::Machine::step), using(crate::proofs::LanguageLemmas::typed_in))]
    fn typing(&mut self, slot: Slot<L>, symbol: Symbol) -> Result<(), AllocError>
        ensures { IsTaken L.language result self.new
            (step_of L.language self.old (Place.Typing slot) symbol.entry) }
    {
        let made = terms::typed(self.alloc, &self.scope.context, self.text.as_str(), symbol)?;
        self.put(slot, made)
    }

    /// One symbol more, which was counted.
    #[inline]
    #[tactic(auto, unfolding(gs_triples::specs::Machine::step))]
    fn take(&mut self, symbol: Symbol) -> Result<Turn, AllocError>
        ensures { Turned L.language result self.new
            (machine.step (triples_state L.language self.old) (symbol_at symbol.entry)) }
    {
        match mem::replace(&mut self.place, Place::Lost(Fault::Syntax)) {
            Place::Opened => self.opened(symbol)?,
            Place::Closed(subject) => return self.closed(subject, symbol),
            Place::Heading(goal) => return self.head(goal, symbol),
            Place::Held(slot) => return self.held(slot, symbol),
            Place::Typing(slot) => self.typing(slot, symbol)?,
            Place::Lost(fault) => self.lose(fault),
        }
        Ok(Turn::Taken)
    }

    /// One symbol more: it is taken, or the triples are over before it. After a refusal the parser
    /// is of no more use.
    #[inline]
    pub fn step(&mut self, symbol: Symbol) -> Result<Turn, AllocError>
        ensures { Turned L.language result self.new
            (machine.step (triples_state L.language self.old) (symbol_at symbol.entry)) }
    {
        self.count_symbol(symbol)?;
        self.take(symbol)
    }
}
