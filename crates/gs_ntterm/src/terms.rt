//! The terms of tokens.
ghost use Rattle.std.specs.Prelude.{◌≡◌, IfOk};
ghost use Rattle.std.specs.Str.{str_to_ascii_lowercase};
ghost use Rattle.gs_model.specs.Terms.{Term, is_tag};
ghost use Rattle.gs_term.specs.Making.{Makes, made};
ghost use Rattle.gs_ntterm.specs.Tokens.{iri_held, typed_held, tagged_held, plain_held};
ghost use Rattle.gs_ntterm.specs.Views.{held_of, name_made};

use crate::names::Name;
use crate::tokens::Token;
use gs_iri::is_absolute;
use gs_model::{Fault, Refusal, memory_apart};
use gs_term::TermText;
use std::alloc::{AllocError, Global};

/// What making a term answered, with want of memory apart.
fn checked(answer: Result<TermText, Refusal>) -> Result<Result<TermText, Fault>, AllocError>
    ensures { (t : Term) → Makes t answer → IfOk result (λ r. r ≡ made t) }
{
    Ok(match memory_apart(answer)? {
        Ok(term) => Ok(term),
        Err(Refusal::TermTooLong) => Err(Fault::TermTooLong),
        Err(_) => Err(Fault::Syntax),
    })
}

/// The IRI of a token.
pub fn iri(alloc: Global, token: &Token) -> Result<Result<Name, Fault>, AllocError>
    ensures { IfOk result (λ r. name_made r ≡ iri_held (held_of token.now)) }
{
    if token.is_long {
        if token.form.is_absolute() {
            return Ok(Err(Fault::TermTooLong));
        }
        return Ok(Err(Fault::Syntax));
    }
    Ok(
        match memory_apart(TermText::iri(alloc, token.text.as_str()))? {
            Ok(term) => Ok(Name { term }),
            Err(Refusal::TermTooLong) => Err(Fault::TermTooLong),
            Err(_) => Err(Fault::Syntax),
        },
    )
}

/// A literal with neither datatype nor tag.
pub fn plain(alloc: Global, lexical: &Token) -> Result<Result<TermText, Fault>, AllocError>
    ensures { IfOk result (λ r. r ≡ plain_held (held_of lexical.now)) }
{
    if lexical.is_long {
        return Ok(Err(Fault::TermTooLong));
    }
    checked(TermText::literal(alloc, lexical.text.as_str(), None, None))
}

/// A literal with a datatype.
pub fn typed(
    alloc: Global,
    lexical: &Token,
    iri: &Token,
) -> Result<Result<TermText, Fault>, AllocError>
    ensures { IfOk result (λ r. r ≡ typed_held (held_of lexical.now) (held_of iri.now)) }
{
    if iri.is_long {
        if iri.form.is_absolute() {
            return Ok(Err(Fault::TermTooLong));
        }
        return Ok(Err(Fault::Syntax));
    }
    let datatype = iri.text.as_str();
    if lexical.is_long {
        if is_absolute(datatype) {
            return Ok(Err(Fault::TermTooLong));
        }
        return Ok(Err(Fault::Syntax));
    }
    checked(TermText::literal(alloc, lexical.text.as_str(), Some(datatype), None))
}

/// Whether a tag has its form, as the constructor of terms reports.
fn has_form(alloc: Global, tag: &str) -> Result<bool, AllocError>
    ensures { IfOk result (λ b. b ≡ is_tag (str_to_ascii_lowercase tag.now)) }
{
    match memory_apart(TermText::literal(alloc, "", None, Some(tag)))? {
        Ok(_) | Err(Refusal::TermTooLong) => Ok(true),
        Err(_) => Ok(false),
    }
}

/// A literal with a language tag.
pub fn tagged(
    alloc: Global,
    lexical: &Token,
    tag: &Token,
) -> Result<Result<TermText, Fault>, AllocError>
    ensures { IfOk result (λ r. r ≡ tagged_held (held_of lexical.now) (held_of tag.now)) }
{
    if tag.is_long {
        if tag.form.is_tag() {
            return Ok(Err(Fault::TermTooLong));
        }
        return Ok(Err(Fault::Syntax));
    }
    let tag = tag.text.as_str();
    if lexical.is_long {
        if has_form(alloc, tag)? {
            return Ok(Err(Fault::TermTooLong));
        }
        return Ok(Err(Fault::Syntax));
    }
    checked(TermText::literal(alloc, lexical.text.as_str(), None, Some(tag)))
}
