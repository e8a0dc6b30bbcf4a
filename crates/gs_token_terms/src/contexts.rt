//! What earlier statements leave.
ghost use Rattle.std.specs.Prelude.{◌≡◌, ◌==◌, position, true, IfSome, option_map, IfOk, string_bytes};
ghost use Rattle.gs_model.specs.Iris.{is_absolute};
ghost use Rattle.gs_model.specs.Terms.{Iri};
ghost use Rattle.gs_model.specs.Triples.{is_iri};
ghost use Rattle.gs_iri.specs.Resolving.{resolved};
ghost use Rattle.gs_escape.specs.Tokens.{iri_of, split_at_colon};
ghost use Rattle.gs_token_terms.specs.Contexts.{base_cost, CountsBase, CountsDeclared, Yields};

use crate::budgets::Budget;
use crate::iris::{expanded, fit, named_iri, resolved_iri};
use crate::plain::plain_reference;
use crate::prefixes::Prefixes;
use crate::references::has_scheme;
use crate::symbols::TermToken;
use gs_model::{Fault, memory_apart};
use gs_term::TermText;
use std::alloc::{AllocError, Global};

/// The most bytes of a base: twice as many as a term may have.
const MAX_BASE_BYTES: usize = 131_072;

/// The most bytes of a base for which nothing counts: to go through it takes some microseconds.
const SHORT_BASE_BYTES: usize = 128;

/// How many bytes that are made a byte of a longer base counts, where a reference is resolved.
const BYTES_FOR_BYTE: usize = 4;

/// And a '/', which ends a segment: each one is appended by itself.
const BYTES_FOR_SEGMENT: usize = 12;

/// The base and the prefixes in force, and the request whose blank nodes are numbered.
#[derive(Drop)]
pub struct Context {
    alloc: Global,
    base: String,
    /// What it counts to go through the base.
    cost: usize,
    prefixes: Prefixes,
    pub request: u64,
    ghost costs: { cost ≡ base_cost (string_bytes base) },
    ghost absolute: { is_absolute (string_bytes base) ≡ true },
}

/// What it counts to go through a base.
fn cost_of(base: &str) -> usize
    ensures { result ≡ base_cost base.now }
{
    let mut cost = 0usize;
    for byte in base.as_bytes() {
        let one = if *byte == b'/' {
            BYTES_FOR_SEGMENT
        } else {
            BYTES_FOR_BYTE
        };
        cost = cost.saturating_add(one);
    }
    cost
}

/// Where the first colon stands.
fn colon(text: &[u8]) -> Option<usize>
    ensures { result ≡ position (λ c. c == 58) text.now }
{
    text.iter().position(|b| *b == b':')
}

/// The prefix and the local part of a name, without the first colon between them.
fn parts(text: &str) -> Option<(&str, &str)>
    ensures { option_map (λ p. (p.0.now, p.1.now)) result ≡ split_at_colon text.now }
{
    match colon(text.as_bytes()) {
        None => None,
        Some(i) => Some((&text[..i], &text[i + 1..])),
    }
}

/// The reference between the brackets of a token.
fn reference(alloc: Global, text: &str) -> Result<Option<String>, AllocError>
    ensures { Yields result (iri_of text.now) }
{
    let mut meaning = String::new(alloc);
    match memory_apart(gs_escape::iri(text.as_bytes(), &mut meaning))? {
        Ok(()) => Ok(Some(meaning)),
        Err(_) => Ok(None),
    }
}

impl Context {
    ghost use Rattle.gs_triples.specs.Languages.{of_terms};
    ghost use Rattle.gs_triples.specs.Directives.{without_prefixes, with_prefix, with_base};
    ghost use Rattle.gs_triples.specs.Meanings as meaning;
    ghost use Rattle.gs_triples.specs.Meanings.{made_of, name_text, iri_text};
    ghost use Rattle.gs_token_terms.specs.Views.{token_at, context_of};
    ghost use Rattle.gs_token_terms.specs.Contexts.{ChangesContext};

    /// Under an absolute base, with no prefix.
    pub fn new(alloc: Global, base: &str, request: u64) -> Result<Context, AllocError>
        requires { is_absolute base.now ≡ true }
        ensures { IfOk result (λ c. context_of c ≡ without_prefixes of_terms base.now request) }
    {
        let cost = cost_of(base);
        let base = String::from_str(alloc, base)?;
        Ok(Context {
            alloc,
            base,
            cost,
            prefixes: Prefixes::new(alloc),
            request,
        })
    }

    /// The text of a reference is to be resolved: what reading the base takes counts among what is made.
    #[inline]
    pub fn count_base(&self, budget: &mut Budget, text: &str) -> Result<(), AllocError>
        ensures { CountsBase result (context_of self.now).base text.now budget.old budget.new }
    {
        if self.base.len() <= SHORT_BASE_BYTES || has_scheme(text) {
            return Ok(());
        }
        budget.make(self.cost)
    }

    /// The IRI that a reference means, which is absolute as the base is.
    fn resolve(&self, text: &str) -> Result<Option<String>, AllocError>
        ensures value { Yields result (option_map (resolved (string_bytes self.now.base)) (iri_of text.now)) }
        ensures absolute { IfOk result (λ o. IfSome o (λ i. is_absolute (string_bytes i) ≡ true)) }
    {
        let Some(reference) = reference(self.alloc, text)? else {
            return Ok(None);
        };
        let mut iri = String::new(self.alloc);
        match memory_apart(gs_iri::resolve_under(
            self.base.as_str(),
            reference.as_str(),
            &mut iri,
        ))? {
            Ok(()) => Ok(Some(iri)),
            Err(_) => Ok(None),
        }
    }

    /// The IRI that a prefixed name means.
    #[tactic(auto, unfolding(gs_triples::specs::Meanings::name_text))]
    fn name(&self, text: &str) -> Result<Option<String>, AllocError>
        ensures { Yields result (name_text (context_of self.now) text.now) }
    {
        let Some((prefix, local)) = parts(text) else {
            return Ok(None);
        };
        match self.prefixes.get(prefix) {
            None => Ok(None),
            Some(iri) => expanded(self.alloc, iri, local),
        }
    }

    /// The same, as a term.
    #[tactic(auto, unfolding(gs_triples::specs::Meanings::name_text, gs_triples::specs::Meanings::made_of))]
    fn name_term(&self, text: &str) -> Result<Result<TermText, Fault>, AllocError>
        ensures value { IfOk result (λ m. m
            ≡ made_of (option_map Iri (name_text (context_of self.now) text.now))) }
        ensures kind { IfOk result (λ m. IfOk m (λ t. is_iri t ≡ true)) }
    {
        let Some((prefix, local)) = parts(text) else {
            return Ok(Err(Fault::Syntax));
        };
        match self.prefixes.get(prefix) {
            None => Ok(Err(Fault::Syntax)),
            Some(iri) => named_iri(self.alloc, iri, local),
        }
    }

    /// The IRI that a reference means, as a term.
    #[tactic(auto, unfolding(gs_triples::specs::Meanings::made_of))]
    fn reference_term(&self, text: &str) -> Result<Result<TermText, Fault>, AllocError>
        ensures value { IfOk result (λ m. m
            ≡ made_of (option_map Iri (option_map (resolved (string_bytes self.now.base)) (iri_of text.now)))) }
        ensures kind { IfOk result (λ m. IfOk m (λ t. is_iri t ≡ true)) }
    {
        if let Some(iri) = plain_reference(text) {
            return resolved_iri(self.alloc, self.base.as_str(), iri);
        }
        match reference(self.alloc, text)? {
            None => Ok(Err(Fault::Syntax)),
            Some(iri) => resolved_iri(self.alloc, self.base.as_str(), iri.as_str()),
        }
    }

    /// The IRI that a token means, if it means one.
    pub fn iri(&self, token: TermToken) -> Result<Option<String>, AllocError>
        ensures { Yields result (iri_text (context_of self.now) (token_at token.entry)) }
    {
        match token {
            TermToken::Reference(text, _) => self.resolve(text),
            TermToken::Namespace(text) | TermToken::Name(text) => self.name(text),
            _ => Ok(None),
        }
    }

    /// The IRI that a token means, as a term, or its fault: of the grammar where it means none.
    #[tactic(auto, unfolding(gs_triples::specs::Meanings::iri, gs_triples::specs::Meanings::made_of))]
    pub fn term(&self, token: TermToken) -> Result<Result<TermText, Fault>, AllocError>
        ensures value { IfOk result (λ m. m ≡ meaning.iri (context_of self.now) (token_at token.entry)) }
        ensures kind { IfOk result (λ m. IfOk m (λ t. is_iri t ≡ true)) }
    {
        match token {
            TermToken::Reference(text, _) => self.reference_term(text),
            TermToken::Namespace(text) | TermToken::Name(text) => self.name_term(text),
            _ => Ok(Err(Fault::Syntax)),
        }
    }

    /// Declares a prefix, whose text ends in its colon, by the text of a reference. Whether these
    /// are a prefix and a reference. The prefix's IRI counts among the texts of the request each time
    /// that it is declared.
    #[tactic(auto, unfolding(gs_triples::specs::Directives::with_prefix))]
    pub fn set_prefix(
        &mut self,
        budget: &mut Budget,
        prefix: &str,
        text: &str,
    ) -> Result<bool, AllocError>
        ensures context { ChangesContext result (context_of self.old) (context_of self.new)
            (with_prefix (context_of self.old) prefix.now text.now) }
        ensures counted { CountsDeclared result (context_of self.old).base text.now budget.old budget.new }
    {
        let Some((prefix, _)) = parts(prefix) else {
            return Ok(false);
        };
        self.count_base(budget, text)?;
        let Some(mut iri) = self.resolve(text)? else {
            return Ok(false);
        };
        budget.count(iri.len())?;
        fit(&mut iri);
        self.prefixes.insert(prefix, iri)?;
        Ok(true)
    }

    /// Sets the base by the text of a reference. Whether that is one. The base counts among the texts
    /// of the request each time that it is set. One of more than 131,072 bytes is refused as for want of
    /// memory, since each relative reference goes through it.
    #[tactic(auto, unfolding(gs_triples::specs::Directives::with_base))]
    pub fn set_base(&mut self, budget: &mut Budget, text: &str) -> Result<bool, AllocError>
        ensures context { ChangesContext result (context_of self.old) (context_of self.new)
            (with_base (context_of self.old) text.now) }
        ensures counted { CountsDeclared result (context_of self.old).base text.now budget.old budget.new }
    {
        self.count_base(budget, text)?;
        let Some(mut base) = self.resolve(text)? else {
            return Ok(false);
        };
        if base.len() > MAX_BASE_BYTES {
            return Err(AllocError);
        }
        budget.count(base.len())?;
        fit(&mut base);
        self.cost = cost_of(base.as_str());
        self.base = base;
        Ok(true)
    }
}
