//! The first symbol of an object, and the symbol of a verb.
ghost use Rattle.std.specs.Prelude.{◌≡◌, OnOk};

use crate::frames::{Frame, Goal, Slot};
use crate::parser::TripleParser;
use crate::places::Place;
use gs_model::{Fault, MAX_NESTING};
use gs_triple_values::{Language, Symbol, TermToken, values};
use std::alloc::AllocError;

impl<L: Language> TripleParser<L> {
    ghost use Rattle.gs_triple_parser.specs.Views.{triples_state};
    ghost use Rattle.gs_triple_parser.specs.Machine.{Reaches, word_of, object_of, verb_of};

    /// A blank node for a slot, whose properties stand in brackets.
    fn open_brackets_in(&mut self, depth: usize, slot: Slot<L>) -> Result<(), AllocError>
        ensures { Reaches L.language result self.new (object_of L.language self.old depth slot Symbol.Open) }
    {
        if !self.allowed.nodes || depth >= MAX_NESTING {
            self.lose(Fault::Syntax);
            return Ok(());
        }
        let Ok(number) = self.scope.numbering.fresh() else {
            return Err(AllocError);
        };
        self.stack.push(Frame::ToSlot(slot))?;
        self.place = Place::Heading(Goal::Inside(depth + 1, number));
        Ok(())
    }

    /// A collection for a slot.
    fn open_list_in(&mut self, depth: usize, slot: Slot<L>) -> Result<(), AllocError>
        ensures { Reaches L.language result self.new
            (object_of L.language self.old depth slot Symbol.OpenList) }
    {
        if depth >= MAX_NESTING {
            self.lose(Fault::Syntax);
            return Ok(());
        }
        self.stack.push(Frame::ToSlot(slot))?;
        self.place = Place::Heading(Goal::Begun(depth + 1));
        Ok(())
    }

    /// A token that is a term or a variable, for a slot.
    #[inline]
    fn object_word(&mut self, slot: Slot<L>, token: TermToken) -> Result<(), AllocError>
        ensures { Reaches L.language result self.new (word_of L.language self.old slot token.entry) }
    {
        let scope = &mut self.scope;
        match values::word::<L>(
            self.alloc,
            &scope.context,
            self.allowed,
            &mut scope.numbering,
            token,
        )? {
            Ok(value) => self.give(slot, value),
            Err(fault) => {
                self.lose(fault);
                Ok(())
            }
        }
    }

    /// The first symbol of an object.
    #[inline]
    pub(crate) fn object(
        &mut self,
        depth: usize,
        slot: Slot<L>,
        symbol: Symbol,
    ) -> Result<(), AllocError>
        ensures { Reaches L.language result self.new (object_of L.language self.old depth slot symbol.entry) }
    {
        match symbol {
            Symbol::Term(token) => return self.object_word(slot, token),
            Symbol::Text(text) => {
                self.text.clear();
                self.text.push_str(text)?;
                self.place = Place::Held(slot);
            }
            Symbol::Open => return self.open_brackets_in(depth, slot),
            Symbol::OpenList => return self.open_list_in(depth, slot),
            _ => self.lose(Fault::Syntax),
        }
        Ok(())
    }

    /// The symbol of a verb.
    #[inline]
    pub(crate) fn at_verb(
        &mut self,
        depth: usize,
        subject: L::Subject,
        symbol: Symbol,
    ) -> Result<(), AllocError>
        ensures { Reaches L.language result self.new
            (verb_of L.language self.old depth (L.language.subject subject) symbol.entry) }
    {
        match values::verb::<L>(self.alloc, &self.scope.context, symbol)? {
            Err(fault) => self.lose(fault),
            Ok(verb) => self.place = Place::Heading(Goal::Object(depth, subject, verb)),
        }
        Ok(())
    }
}
