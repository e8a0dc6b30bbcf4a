//! Where triples are over, have a fault, or are not finished.
ghost use Rattle.std.specs.Prelude.{◌≡◌, ◌≢◌, ◌++◌, [], OnOk, OnErr, IfOk, IfSome, IfNone};
ghost use Rattle.gs_model.specs.declared.faults.Fault.{Fault};

use crate::parser::TripleParser;
use crate::places::Place;
use gs_model::Fault;
use gs_triple_values::{Language, terms};
use std::alloc::AllocError;

impl<L: Language> TripleParser<L> {
    ghost use Rattle.gs_triples.specs.States.{Lost};
    ghost use Rattle.gs_triples.specs.Machine as machine;
    ghost use Rattle.gs_triple_parser.specs.Views.{triples_state, context_now, numbers_now, pending_triples};

    /// Hands the triples on, once they are over: they move to the end of the list. After a refusal
    /// the list is as it was.
    pub fn append_to(&mut self, triples: &mut L::List) -> Result<(), AllocError>
        ensures given { OnOk result (L.language.items triples.new
            ≡ L.language.items triples.old ++ pending_triples L.language self.old) }
        ensures pending { OnOk result (pending_triples L.language self.new ≡ []) }
        ensures context { context_now L.language self.new ≡ context_now L.language self.old }
        ensures numbers { numbers_now self.new ≡ numbers_now self.old }
        ensures err { OnErr result (L.language.items triples.new ≡ L.language.items triples.old) }
    {
        self.pending.append_to(&mut self.scope.budget, triples)
    }

    /// The fault after which nothing is read.
    pub fn fault(&self) -> Option<Fault>
        ensures some { IfSome result (λ f. triples_state L.language self.now ≡ Lost f) }
        ensures none { IfNone result ((f : Fault) → triples_state L.language self.now ≢ Lost f) }
    {
        match self.place {
            Place::Lost(fault) => Some(fault),
            _ => None,
        }
    }

    /// The fault of a text that ends here, within triples.
    #[tactic(auto, unfolding(gs_triples::specs::Machine::ended))]
    pub fn end(&self) -> Result<Fault, AllocError>
        ensures { IfOk result (λ f. f ≡ machine.ended (triples_state L.language self.now)) }
    {
        match &self.place {
            Place::Held(_) => match terms::simple(self.alloc, self.text.as_str())? {
                Ok(_) => Ok(Fault::Syntax),
                Err(fault) => Ok(fault),
            },
            Place::Lost(fault) => Ok(*fault),
            _ => Ok(Fault::Syntax),
        }
    }
}
