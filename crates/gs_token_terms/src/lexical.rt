//! The lexical forms that strings mean.
ghost use Rattle.std.specs.Prelude.{◌≡◌, IfOk, option_map};
ghost use Rattle.gs_escape.specs.Tokens.{string_of};
ghost use Rattle.gs_token_terms.specs.Forms.{form_text};

use crate::plain::{bare_form, plain_form};
use gs_model::memory_apart;
use std::alloc::{AllocError, Global};

/// What a string means.
#[derive(Drop)]
pub enum LexicalForm<'a> {
    /// As it stands in the string.
    Standing(&'a str),
    /// With what its escapes mean.
    Decoded(String),
}

impl<'a> LexicalForm<'a> {
    /// The text.
    pub fn as_str(&self) -> &str
        ensures { result.now ≡ form_text self.now }
    {
        match self {
            LexicalForm::Standing(text) => text,
            LexicalForm::Decoded(text) => text.as_str(),
        }
    }
}

/// The lexical form that a string means, in memory of its own where it does not stand there whole.
pub fn decoded(alloc: Global, text: &str) -> Result<Option<LexicalForm<'_>>, AllocError>
    ensures { IfOk result (λ o. option_map form_text o ≡ string_of text.now) }
{
    if let Some(form) = bare_form(text) {
        return Ok(Some(LexicalForm::Standing(form)));
    }
    let mut meaning = String::with_capacity(alloc, text.len())?;
    match memory_apart(gs_escape::string(text.as_bytes(), &mut meaning))? {
        Ok(()) => Ok(Some(LexicalForm::Decoded(meaning))),
        Err(_) => Ok(None),
    }
}

/// The same, where it may be plain.
pub fn lexical(alloc: Global, text: &str) -> Result<Option<LexicalForm<'_>>, AllocError>
    ensures { IfOk result (λ o. option_map form_text o ≡ string_of text.now) }
{
    match plain_form(text) {
        Some(form) => Ok(Some(LexicalForm::Standing(form))),
        None => decoded(alloc, text),
    }
}
