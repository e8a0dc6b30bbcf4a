//! The terms of tokens.
ghost use Rattle.std.specs.Prelude.{◌≡◌, true, Some, IfOk, option_copied};
ghost use Rattle.gs_model.specs.Terms.{Term, Blank, Literal, Typed};
ghost use Rattle.gs_term.specs.Making.{Makes};
ghost use Rattle.gs_escape.specs.Tokens.{rest_after};
ghost use Rattle.gs_triples.specs.Meanings as meaning;
ghost use Rattle.gs_triples.specs.Meanings.{made_of};
ghost use Rattle.gs_token_terms.specs.Datatypes.{datatype_iri};
ghost use Rattle.gs_token_terms.specs.Terms.{typed_of};

use crate::buffers::{named_literal, plain_literal};
use crate::contexts::Context;
use crate::lexical::{decoded, lexical};
use crate::plain::{are_plain, is_small_tag, plain_form};
use crate::symbols::Symbol;
use crate::vocabulary::Datatype;
use gs_model::{Fault, Refusal, memory_apart};
use gs_term::{TermText, XSD_STRING};
use std::alloc::{AllocError, Global};

/// The term that making one answered, or its fault.
#[tactic(auto, unfolding(gs_triples::specs::Meanings::made_of))]
fn checked(answer: Result<TermText, Refusal>) -> Result<Result<TermText, Fault>, AllocError>
    ensures { (t : Term) → Makes t answer → IfOk result (λ m. m ≡ made_of (Some t)) }
{
    match memory_apart(answer)? {
        Ok(term) => Ok(Ok(term)),
        Err(Refusal::TermTooLong) => Ok(Err(Fault::TermTooLong)),
        Err(_) => Ok(Err(Fault::Syntax)),
    }
}

/// A literal of a datatype.
fn made_literal(
    alloc: Global,
    form: &str,
    datatype: &str,
) -> Result<Result<TermText, Fault>, AllocError>
    ensures { IfOk result (λ m. m ≡ made_of (Some (Literal form.now (Typed datatype.now)))) }
{
    checked(TermText::literal(alloc, form, Some(datatype), None))
}

/// A number or a boolean, which is written at once where nothing is to escape.
#[tactic(auto, unfolding(gs_triples::specs::Meanings::made_of))]
pub fn number(
    alloc: Global,
    text: &str,
    datatype: Datatype,
) -> Result<Result<TermText, Fault>, AllocError>
    ensures { IfOk result (λ m. m ≡ made_of (Some (Literal text.now (Typed (datatype_iri datatype))))) }
{
    if are_plain(b'"', text.as_bytes()) {
        return plain_literal(alloc, text, b"", datatype.after());
    }
    made_literal(alloc, text, datatype.iri())
}

/// What stands after the prefix of a text.
pub fn after<'a>(text: &'a str, front: &str) -> Option<&'a str>
    ensures { option_copied result ≡ rest_after front.now text.now }
{
    match text.as_bytes().strip_prefix(front.as_bytes()) {
        None => None,
        Some(_) => Some(&text[front.len()..]),
    }
}

/// The blank node of a number.
pub fn blank(alloc: Global, request: u64, number: u64) -> Result<TermText, AllocError>
    ensures { IfOk result (λ t. t ≡ Blank request number) }
{
    match TermText::blank(alloc, request, number) {
        Ok(term) => Ok(term),
        Err(_) => Err(AllocError),
    }
}

/// A literal with neither datatype nor tag.
#[tactic(auto, unfolding(gs_triples::specs::Meanings::simple, gs_triples::specs::Meanings::made_of))]
pub fn simple(alloc: Global, text: &str) -> Result<Result<TermText, Fault>, AllocError>
    ensures { IfOk result (λ m. m ≡ meaning.simple text.now) }
{
    if let Some(form) = plain_form(text) {
        return plain_literal(alloc, form, b"", b"");
    }
    match decoded(alloc, text)? {
        None => Ok(Err(Fault::Syntax)),
        Some(form) => made_literal(alloc, form.as_str(), XSD_STRING),
    }
}

/// A literal with a language tag.
#[tactic(auto, unfolding(gs_triples::specs::Meanings::tagged, gs_triples::specs::Meanings::made_of))]
pub fn tagged(alloc: Global, text: &str, tag: &str) -> Result<Result<TermText, Fault>, AllocError>
    ensures { IfOk result (λ m. m ≡ meaning.tagged text.now tag.now) }
{
    if is_small_tag(tag.as_bytes()) {
        if let Some(form) = plain_form(text) {
            return plain_literal(alloc, form, b"", tag.as_bytes());
        }
    }
    let Some(form) = lexical(alloc, text)? else {
        return Ok(Err(Fault::Syntax));
    };
    match after(tag, "@") {
        None => Ok(Err(Fault::Syntax)),
        Some(tag) => checked(TermText::literal(alloc, form.as_str(), None, Some(tag))),
    }
}

/// A literal with a datatype.
#[tactic(auto, unfolding(gs_triples::specs::Meanings::typed, gs_triples::specs::Meanings::made_of))]
pub fn typed(
    alloc: Global,
    context: &Context,
    text: &str,
    datatype: Symbol,
) -> Result<Result<TermText, Fault>, AllocError>
    ensures { IfOk result (λ m. m ≡ typed_of context.now text.now datatype.entry) }
{
    let Symbol::Term(token) = datatype else {
        return Ok(Err(Fault::Syntax));
    };
    if let Some(form) = plain_form(text) {
        return match context.term(token)? {
            Ok(datatype) => named_literal(alloc, form, &datatype),
            Err(fault) => Ok(Err(fault)),
        };
    }
    let Some(form) = decoded(alloc, text)? else {
        return Ok(Err(Fault::Syntax));
    };
    match context.iri(token)? {
        None => Ok(Err(Fault::Syntax)),
        Some(iri) => made_literal(alloc, form.as_str(), iri.as_str()),
    }
}
