//! Terms that a table may have already.
ghost use Rattle.std.specs.Prelude.{◌≡◌, IfOk};
ghost use Rattle.gs_model.specs.Terms.{Term, text_of};
ghost use Rattle.gs_model.specs.Texts.{term_of, IsCanonical};

use gs_term::TermText;
use std::alloc::{AllocError, Global};
use std::marker::Model;

/// A term that a table may have already: it is found by its text, and made where it is wanted.
pub trait Candidate: Drop {
    ghost term: { Self → Term };

    /// The text of the term.
    fn text(&self) -> &[u8]
        ensures { result.now ≡ text_of (term self.now) };

    /// The term.
    fn into_term(self) -> Result<TermText, AllocError>
        ensures { IfOk result (λ t. t ≡ term self) };
}

impl Candidate for TermText {
    ghost term = { λ t. t };

    #[inline(always)]
    fn text(&self) -> &[u8] {
        self.as_bytes()
    }

    #[inline(always)]
    fn into_term(self) -> Result<TermText, AllocError> {
        Ok(self)
    }
}

/// The term of a canonical text, which is copied for it. A contract sees the term.
#[derive(Drop)]
pub struct Copied<'a> {
    alloc: Global,
    text: &'a [u8],
}

impl<'a> Model for Copied<'a> {
    ghost use Rattle.gs_model.specs.Terms.{Term};
    ghost use Rattle.gs_model.specs.Texts.{term_of, IsCanonical};

    ghost Value = { Term };

    ghost view = { λ c. term_of c.text.now };

    ghost invariant = { λ c. IsCanonical c.text.now };
}

impl<'a> Copied<'a> {
    /// The term of this text. Copies nothing.
    #[inline(always)]
    pub fn new(alloc: Global, text: &'a [u8]) -> Copied<'a>
        requires { IsCanonical text.now }
        ensures { result ≡ term_of text.now }
    {
        Copied { alloc, text }
    }
}

impl<'a> Candidate for Copied<'a> {
    ghost term = { λ t. t };

    #[inline(always)]
    fn text(&self) -> &[u8] {
        self.text
    }

    #[inline(always)]
    fn into_term(self) -> Result<TermText, AllocError> {
        TermText::of_canonical(self.alloc, self.text)
    }
}
