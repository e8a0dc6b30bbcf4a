//! The prologue: what may stand where an update begins, and its directives.
ghost use Rattle.std.specs.Prelude.{IfOk};
ghost use Rattle.gs_triple_parser.specs.Views.{scope_context, scope_numbers};
ghost use Rattle.gs_update_text.specs.States.{quiet};
ghost use Rattle.gs_update_text.specs.Machine as machine;
ghost use Rattle.gs_update_text.specs.Machine.{syntax_fault};
ghost use Rattle.gs_update_places.specs.Steps.{LeadsToPlace, transition_at_place};

use crate::places::Place;
use crate::rejections::Rejection;
use gs_lex::TokenKind;
use gs_model::Fault;
use gs_triple_parser::Scope;
use gs_triple_values::{Symbol, TermToken};
use std::alloc::{AllocError, Global};

/// The text breaks the grammar here.
pub(crate) fn broken() -> Place
    ensures { LeadsToPlace result (quiet syntax_fault) }
{
    Place::Rejected(Rejection::Broken(Fault::Syntax))
}

/// A word where an operation may begin; the operations of other forms are not served.
fn begun(kind: TokenKind, scope: Scope) -> Place
    ensures { LeadsToPlace result (quiet (machine.begun kind (scope_context scope) (scope_numbers scope))) }
{
    match kind {
        TokenKind::Insert => Place::AfterInsert(scope),
        TokenKind::Delete => Place::AfterDelete(scope),
        TokenKind::Load
        | TokenKind::Clear
        | TokenKind::Drop
        | TokenKind::Create
        | TokenKind::Add
        | TokenKind::Move
        | TokenKind::Copy
        | TokenKind::With => Place::Rejected(Rejection::OutOfProfile),
        _ => broken(),
    }
}

/// A symbol where an update may begin.
#[tactic(auto, unfolding(gs_update_text::specs::Machine::step))]
pub(crate) fn between(scope: Scope, symbol: Symbol) -> Place
    ensures { LeadsToPlace result (transition_at_place (Place.Between scope) symbol.entry) }
{
    match symbol {
        Symbol::Prefix => Place::InPrefix(scope),
        Symbol::Base => Place::InBase(scope),
        Symbol::Foreign(kind, _) => begun(kind, scope),
        _ => broken(),
    }
}

/// The prefix that is declared.
#[tactic(auto, unfolding(gs_update_text::specs::Machine::step))]
pub(crate) fn prefix(alloc: Global, scope: Scope, symbol: Symbol) -> Result<Place, AllocError>
    ensures { IfOk result (λ p. LeadsToPlace p (transition_at_place (Place.InPrefix scope) symbol.entry)) }
{
    match symbol {
        Symbol::Term(TermToken::Namespace(prefix)) => {
            Ok(Place::InPrefixIri(scope, String::from_str(alloc, prefix)?))
        }
        _ => Ok(broken()),
    }
}

/// The IRI that the prefix stands for.
#[tactic(auto, unfolding(gs_update_text::specs::Machine::step))]
pub(crate) fn prefix_iri(scope: Scope, prefix: String, symbol: Symbol) -> Result<Place, AllocError>
    ensures { IfOk result
        (λ p. LeadsToPlace p (transition_at_place (Place.InPrefixIri scope prefix) symbol.entry)) }
{
    let mut scope = scope;
    match symbol {
        Symbol::Term(TermToken::Reference(text, _)) => {
            if scope.set_prefix(prefix.as_str(), text)? {
                Ok(Place::Between(scope))
            } else {
                Ok(broken())
            }
        }
        _ => Ok(broken()),
    }
}

/// The IRI of a base.
#[tactic(auto, unfolding(gs_update_text::specs::Machine::step))]
pub(crate) fn base(scope: Scope, symbol: Symbol) -> Result<Place, AllocError>
    ensures { IfOk result (λ p. LeadsToPlace p (transition_at_place (Place.InBase scope) symbol.entry)) }
{
    let mut scope = scope;
    match symbol {
        Symbol::Term(TermToken::Reference(text, _)) => {
            if scope.set_base(text)? {
                Ok(Place::Between(scope))
            } else {
                Ok(broken())
            }
        }
        _ => Ok(broken()),
    }
}
