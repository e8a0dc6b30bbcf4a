//! Where a parser of updates stands.
ghost use Rattle.std.specs.Prelude.{◌≡◌, ◌≢◌, option_map, OnOk, IfOk, IfSome, IfNone};

use crate::blocks::{Block, BlockTurn};
use crate::passages::passed;
use crate::rejections::Rejection;
use gs_model::Fault;
use gs_triple_parser::Scope;
use gs_triple_values::{Patterns, Symbol, Terms};
use std::alloc::{AllocError, Global};
use std::mem;

/// The forms of operations that are served.
#[derive(Clone, Copy)]
pub enum Form {
    InsertData,
    DeleteData,
    DeleteWhere,
}

/// Within a request, with the scope that stays from one operation to the next.
#[derive(Drop)]
pub enum Place {
    /// Where an update may begin, in its prologue too, or the text may end.
    Between(Scope),
    InPrefix(Scope),
    /// After the prefix.
    InPrefixIri(Scope, String),
    InBase(Scope),
    AfterInsert(Scope),
    AfterDelete(Scope),
    /// Before the opening brace.
    AtBrace(Form, Scope),
    Inserting(Block<Terms>),
    Deleting(Block<Terms>),
    Seeking(Block<Patterns>),
    /// After an operation: a `;` may come, or the text may end.
    After(Scope),
    Rejected(Rejection),
}

impl Place {
    ghost use Rattle.gs_update_text.specs.States.{Rejected};
    ghost use Rattle.gs_update_text.specs.Machine.{ended};
    ghost use Rattle.gs_update_places.specs.declared.rejections.Rejection.{Rejection as Code};
    ghost use Rattle.gs_update_places.specs.Views.{IsSoundPlace, rejection_at, state_at};
    ghost use Rattle.gs_update_places.specs.Steps.{LeadsToPlace, transition_at_place};
    ghost use Rattle.gs_update_places.specs.Places.{IsPassage, StepsBlock};

    /// What the block of a place makes of a symbol, where the place is in one. The block stays where
    /// it is, since it is large and most symbols stand in one.
    #[inline(always)]
    pub fn step_block(&mut self, symbol: Symbol) -> Result<Option<BlockTurn>, AllocError>
        requires { IsSoundPlace self.old }
        ensures { IfOk result (λ o. StepsBlock self.old symbol.entry o self.new) }
    {
        match self {
            Place::Inserting(block) => Ok(Some(block.step(symbol)?)),
            Place::Deleting(block) => Ok(Some(block.step(symbol)?)),
            Place::Seeking(block) => Ok(Some(block.step(symbol)?)),
            _ => Ok(None),
        }
    }

    /// A symbol outside a block. After a refusal the place is of no more use.
    pub fn pass(&mut self, alloc: Global, symbol: Symbol) -> Result<(), AllocError>
        requires { IsPassage self.old }
        ensures { OnOk result (LeadsToPlace self.new (transition_at_place self.old symbol.entry)) }
    {
        let lost = Place::Rejected(Rejection::Broken(Fault::Syntax));
        let place = mem::replace(self, lost);
        let next = passed(alloc, place, symbol)?;
        drop(mem::replace(self, next));
        Ok(())
    }

    /// The departure after which nothing is read.
    pub fn rejection(&self) -> Option<Rejection>
        ensures some { IfSome result (λ r. state_at self.now ≡ Rejected (rejection_at r)) }
        ensures none { IfNone result ((r : Code) → state_at self.now ≢ Rejected (rejection_at r)) }
    {
        match self {
            Place::Rejected(rejection) => Some(*rejection),
            _ => None,
        }
    }

    /// The departure of a text that ends here, if it is no update. After it a block is of no more
    /// use.
    #[tactic(auto, unfolding(gs_update_text::specs::Machine::ended))]
    pub fn end(&mut self) -> Result<Option<Rejection>, AllocError>
        ensures { IfOk result (λ o. option_map rejection_at o ≡ ended (state_at self.old)) }
    {
        match self {
            Place::Between(_) | Place::After(_) => Ok(None),
            Place::Inserting(block) => Ok(Some(block.end()?)),
            Place::Deleting(block) => Ok(Some(block.end()?)),
            Place::Seeking(block) => Ok(Some(block.end()?)),
            Place::Rejected(rejection) => Ok(Some(*rejection)),
            _ => Ok(Some(Rejection::Broken(Fault::Syntax))),
        }
    }
}
