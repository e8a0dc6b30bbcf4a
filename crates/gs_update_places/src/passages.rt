//! Where a symbol leads from a place outside a block.
ghost use Rattle.std.specs.Prelude.{IfOk};
ghost use Rattle.gs_update_places.specs.Steps.{LeadsToPlace, transition_at_place};
ghost use Rattle.gs_update_places.specs.Places.{IsPassage};

use crate::operations::{after, after_delete, after_insert, at_brace};
use crate::places::Place;
use crate::prologues::{base, between, prefix, prefix_iri};
use gs_triple_values::Symbol;
use std::alloc::{AllocError, Global};

/// The place to which a symbol leads.
#[tactic(auto, using(crate::proofs::PlaceLemmas::stays_rejected))]
pub(crate) fn passed(alloc: Global, place: Place, symbol: Symbol) -> Result<Place, AllocError>
    requires { IsPassage place }
    ensures { IfOk result (λ p. LeadsToPlace p (transition_at_place place symbol.entry)) }
{
    match place {
        Place::Between(scope) => Ok(between(scope, symbol)),
        Place::InPrefix(scope) => prefix(alloc, scope, symbol),
        Place::InPrefixIri(scope, text) => prefix_iri(scope, text, symbol),
        Place::InBase(scope) => base(scope, symbol),
        Place::AfterInsert(scope) => Ok(after_insert(scope, symbol)),
        Place::AfterDelete(scope) => Ok(after_delete(scope, symbol)),
        Place::AtBrace(form, scope) => Ok(at_brace(alloc, form, scope, symbol)),
        Place::After(scope) => Ok(after(scope, symbol)),
        Place::Rejected(rejection) => Ok(Place::Rejected(rejection)),
        Place::Inserting(_) | Place::Deleting(_) | Place::Seeking(_) => Ok(place),
    }
}
