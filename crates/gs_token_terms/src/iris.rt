//! The IRIs that names and references mean.
ghost use Rattle.std.specs.Prelude.{◌≡◌, ◌∷◌, ◌++◌, true, Some, IfOk, option_map, string_bytes};
ghost use Rattle.std.specs.List.{list_all};
ghost use Rattle.gs_model.specs.Characters.{less_than, is_iri_char};
ghost use Rattle.gs_model.specs.Iris.{is_absolute};
ghost use Rattle.gs_model.specs.Terms.{Iri};
ghost use Rattle.gs_model.specs.Triples.{is_iri};
ghost use Rattle.gs_term.specs.Making.{made};
ghost use Rattle.gs_iri.specs.Resolving.{resolved};
ghost use Rattle.gs_escape.specs.Tokens.{local_of};
ghost use Rattle.gs_triples.specs.Meanings.{made_of};
ghost use Rattle.gs_token_terms.specs.Contexts.{Yields};

use crate::buffers::joined_iri;
use crate::plain::are_iri_bytes;
use crate::references::means_itself;
use gs_model::{Fault, MAX_TERM_BYTES, Refusal, memory_apart};
use gs_term::TermText;
use std::alloc::{AllocError, Global};

/// Room for so many bytes of a base is made at once, where it has as many.
const BASE_ROOM_BYTES: usize = 128;

/// The IRI of a text.
#[tactic(auto, unfolding(gs_triples::specs::Meanings::made_of))]
fn made_iri(alloc: Global, text: &str) -> Result<Result<TermText, Fault>, AllocError>
    ensures value { IfOk result (λ m. m ≡ made_of (Some (Iri text.now))) }
    ensures kind { IfOk result (λ m. IfOk m (λ t. is_iri t ≡ true)) }
{
    match memory_apart(TermText::iri(alloc, text))? {
        Ok(term) => Ok(Ok(term)),
        Err(Refusal::TermTooLong) => Ok(Err(Fault::TermTooLong)),
        Err(_) => Ok(Err(Fault::Syntax)),
    }
}

/// The text of a prefix's IRI, and after it what a local part means.
pub fn expanded(alloc: Global, front: &str, local: &str) -> Result<Option<String>, AllocError>
    ensures { Yields result (option_map (λ l. front.now ++ l) (local_of local.now)) }
{
    let mut text = String::with_capacity(alloc, front.len() + local.len())?;
    text.push_str(front)?;
    match memory_apart(gs_escape::local(local.as_bytes(), &mut text))? {
        Ok(()) => Ok(Some(text)),
        Err(_) => Ok(None),
    }
}

/// The IRI of a prefix's IRI and a local part: without escapes it is written at once.
pub fn named_iri(
    alloc: Global,
    front: &str,
    local: &str,
) -> Result<Result<TermText, Fault>, AllocError>
    requires { is_absolute front.now ≡ true }
    ensures value { IfOk result (λ m. m
        ≡ made_of (option_map Iri (option_map (λ l. front.now ++ l) (local_of local.now)))) }
    ensures kind { IfOk result (λ m. IfOk m (λ t. is_iri t ≡ true)) }
{
    if are_iri_bytes(local.as_bytes()) {
        return joined_iri(alloc, front, local);
    }
    match expanded(alloc, front, local)? {
        None => Ok(Err(Fault::Syntax)),
        Some(text) => made_iri(alloc, text.as_str()),
    }
}

/// A text in a block of its size, where at most half of its block is filled: room is made for the base,
/// of which a reference may leave little, and one with `..` is written after the whole directory of the
/// base, which then is cut. Where memory for the smaller block is refused, the text stays where it is.
pub fn fit(text: &mut String)
    ensures { string_bytes text.new ≡ string_bytes text.old }
{
    if text.len() <= text.capacity() / 2 {
        text.shrink_to_fit();
    }
}

/// The text of a resolved reference after the mark `<`.
fn marked_text(alloc: Global, base: &str, reference: &str) -> Result<Option<String>, AllocError>
    requires absolute { is_absolute base.now ≡ true }
    requires characters { list_all is_iri_char reference.now ≡ true }
    ensures { Yields result (Some (less_than ∷ resolved base.now reference.now)) }
{
    let mut text = String::with_capacity(
        alloc,
        reference.len() + base.len().min(BASE_ROOM_BYTES) + 2,
    )?;
    text.push_str("<")?;
    match memory_apart(gs_iri::resolve_under(base, reference, &mut text))? {
        Ok(()) => {
            fit(&mut text);
            Ok(Some(text))
        }
        Err(_) => Ok(None),
    }
}

/// The IRI that a reference means. One that means itself is copied; another is resolved after the mark of
/// its text, and not tested again.
pub fn resolved_iri(
    alloc: Global,
    base: &str,
    reference: &str,
) -> Result<Result<TermText, Fault>, AllocError>
    requires absolute { is_absolute base.now ≡ true }
    requires characters { list_all is_iri_char reference.now ≡ true }
    ensures value { IfOk result (λ m. m ≡ made (Iri (resolved base.now reference.now))) }
    ensures kind { IfOk result (λ m. IfOk m (λ t. is_iri t ≡ true)) }
{
    if means_itself(reference) {
        return joined_iri(alloc, reference, "");
    }
    let Some(mut text) = marked_text(alloc, base, reference)? else {
        return Ok(Err(Fault::Syntax));
    };
    let size = text.len() + 1;
    if size > MAX_TERM_BYTES {
        return Ok(Err(Fault::TermTooLong));
    }
    text.push_str(">")?;
    Ok(Ok(TermText::from_canonical(text.into_bytes())))
}
