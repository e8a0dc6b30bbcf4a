//! The words of an operation, its opening brace, and what follows it.
ghost use Rattle.gs_update_places.specs.Views.{form_at};
ghost use Rattle.gs_update_places.specs.Steps.{LeadsToPlace, block_start, transition_at_place};

use crate::blocks::{deleting, inserting, seeking};
use crate::places::{Form, Place};
use crate::prologues::broken;
use crate::rejections::Rejection;
use gs_lex::TokenKind;
use gs_triple_parser::Scope;
use gs_triple_values::Symbol;
use std::alloc::Global;

/// After INSERT; templates are not served.
#[tactic(auto, unfolding(gs_update_text::specs::Machine::step))]
pub(crate) fn after_insert(scope: Scope, symbol: Symbol) -> Place
    ensures { LeadsToPlace result (transition_at_place (Place.AfterInsert scope) symbol.entry) }
{
    match symbol {
        Symbol::Foreign(TokenKind::Data, _) => Place::AtBrace(Form::InsertData, scope),
        Symbol::Foreign(TokenKind::OpenBrace, _) => Place::Rejected(Rejection::OutOfProfile),
        _ => broken(),
    }
}

/// After DELETE.
#[tactic(auto, unfolding(gs_update_text::specs::Machine::step))]
pub(crate) fn after_delete(scope: Scope, symbol: Symbol) -> Place
    ensures { LeadsToPlace result (transition_at_place (Place.AfterDelete scope) symbol.entry) }
{
    match symbol {
        Symbol::Foreign(TokenKind::Data, _) => Place::AtBrace(Form::DeleteData, scope),
        Symbol::Foreign(TokenKind::Where, _) => Place::AtBrace(Form::DeleteWhere, scope),
        Symbol::Foreign(TokenKind::OpenBrace, _) => Place::Rejected(Rejection::OutOfProfile),
        _ => broken(),
    }
}

/// The start of a block.
fn opened(alloc: Global, form: Form, scope: Scope) -> Place
    ensures { LeadsToPlace result (block_start (form_at form) scope) }
{
    match form {
        Form::InsertData => Place::Inserting(inserting(alloc, scope)),
        Form::DeleteData => Place::Deleting(deleting(alloc, scope)),
        Form::DeleteWhere => Place::Seeking(seeking(alloc, scope)),
    }
}

/// The opening brace.
#[tactic(auto, unfolding(gs_update_text::specs::Machine::step))]
pub(crate) fn at_brace(alloc: Global, form: Form, scope: Scope, symbol: Symbol) -> Place
    ensures { LeadsToPlace result (transition_at_place (Place.AtBrace form scope) symbol.entry) }
{
    match symbol {
        Symbol::Foreign(TokenKind::OpenBrace, _) => opened(alloc, form, scope),
        _ => broken(),
    }
}

/// After an operation.
#[tactic(auto, unfolding(gs_update_text::specs::Machine::step))]
pub(crate) fn after(scope: Scope, symbol: Symbol) -> Place
    ensures { LeadsToPlace result (transition_at_place (Place.After scope) symbol.entry) }
{
    match symbol {
        Symbol::Semicolon => Place::Between(scope),
        _ => broken(),
    }
}
