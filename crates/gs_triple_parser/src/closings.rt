//! What ends after a list of verbs: brackets, and the triples.
ghost use Rattle.std.specs.Prelude.{◌≡◌, OnOk, IfOk};

use crate::frames::Frame;
use crate::parser::{TripleParser, Turn};
use crate::places::Place;
use gs_model::Fault;
use gs_triple_values::terms::blank;
use gs_triple_values::{Language, Symbol};
use std::alloc::AllocError;

impl<L: Language> TripleParser<L> {
    ghost use Rattle.gs_triple_parser.specs.Views.{triples_state, triples_turn};
    ghost use Rattle.gs_triple_parser.specs.Machine.{Reaches, Turned, shut_of, leave_of};

    /// A symbol where this frame is open after a list of verbs and objects.
    fn shut(&mut self, frame: Frame<L>, symbol: Symbol) -> Result<(), AllocError>
        ensures { Reaches L.language result self.new (shut_of L.language self.old frame symbol.entry) }
    {
        let Symbol::Close = symbol else {
            self.lose(Fault::Syntax);
            return Ok(());
        };
        match frame {
            Frame::ToClose(number) => {
                let node = blank(self.alloc, self.scope.context.request, number)?;
                return self.give_subject(L::subject(node));
            }
            Frame::ToMore(number) => match self.stack.pop() {
                None => {
                    let node = blank(self.alloc, self.scope.context.request, number)?;
                    self.place = Place::Closed(L::subject(node));
                }
                Some(_) => self.lose(Fault::Syntax),
            },
            _ => self.lose(Fault::Syntax),
        }
        Ok(())
    }

    /// A symbol after a list of verbs and objects, which are all where no frame is open.
    #[inline]
    #[tactic(auto, using(crate::proofs::LeaveLemmas::left_none, crate::proofs::LeaveLemmas::left_some))]
    pub(crate) fn leave(&mut self, symbol: Symbol) -> Result<Turn, AllocError>
        ensures { Turned L.language result self.new (leave_of L.language self.old symbol.entry) }
    {
        match self.stack.pop() {
            None => Ok(Turn::Over),
            Some(frame) => {
                self.shut(frame, symbol)?;
                Ok(Turn::Taken)
            }
        }
    }
}
