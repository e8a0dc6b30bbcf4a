//! What a parser says where a text ends, or has a fault.
ghost use Rattle.std.specs.Prelude.{◌≡◌, ◌≢◌, IfOk, IfSome, IfNone};
ghost use Rattle.gs_model.specs.declared.faults.Fault.{Fault};

use crate::parser::Parser;
use crate::places::Place;
use gs_model::Fault;
use std::alloc::AllocError;

impl Parser {
    ghost use Rattle.gs_document.specs.States.{lost};
    ghost use Rattle.gs_document.specs.Machine.{ended};
    ghost use Rattle.gs_parse.specs.Views.{state_of, ending_at};

    /// The fault after which nothing is read.
    pub fn fault(&self) -> Option<Fault>
        ensures some { IfSome result (λ f. state_of self.now ≡ lost f) }
        ensures none { IfNone result ((f : Fault) → state_of self.now ≢ lost f) }
    {
        match self.place {
            Place::Within => self.triples.fault(),
            Place::Lost => Some(Fault::Syntax),
            _ => None,
        }
    }

    /// How a text ends that ends here: between two statements, or with a fault.
    #[tactic(auto, unfolding(gs_document::specs::Machine::ended, gs_triples::specs::Machine::ended))]
    pub fn end(&self) -> Result<Result<(), Fault>, AllocError>
        ensures { IfOk result (λ r. ending_at r ≡ ended (state_of self.now)) }
    {
        match self.place {
            Place::Between => Ok(Ok(())),
            Place::Within => Ok(Err(self.triples.end()?)),
            _ => Ok(Err(Fault::Syntax)),
        }
    }
}
