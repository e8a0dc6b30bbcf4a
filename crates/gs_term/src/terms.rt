//! The canonical text of a term.
ghost use Rattle.std.specs.Prelude.{◌≡◌, ◌≤◌, length, IfOk};
ghost use Rattle.std.specs.Option.{option_copied};
ghost use Rattle.std.specs.Str.{str_to_ascii_lowercase};
ghost use Rattle.std.proofs.Common.{rules};
ghost use Rattle.std.specs.Cmp.{partial_order_from_own_ties};
ghost use Rattle.std.specs.Cmp.Rules.{comparing};
ghost use Rattle.gs_model.specs.Terms.{Iri, Blank, Literal, Typed, Tagged, text_of, IsTerm};
ghost use Rattle.gs_model.specs.Texts.{term_of, IsCanonical};
ghost use Rattle.gs_model.specs.Triples.{term_cmp, term_eq, is_iri as is_iri_of, is_subject as is_subject_of};
ghost use Rattle.gs_term.specs.Making.{Makes, MakesLiteral};
ghost use Rattle.gs_model.specs.Limits.{max_term_bytes};

use crate::literals::{self, XSD_STRING};
use gs_iri::is_absolute;
use gs_model::{MAX_TERM_BYTES, Refusal};
use itoa::Buffer;
use std::alloc::{AllocError, Global};
use std::cmp::Ordering;
use std::marker::Model;

/// The canonical bytes of one IRI, blank node or literal, at most 65,535. A contract sees the
/// term. Order is by the bytes; the first byte gives the kind: `<`, `_` or `"`.
#[derive(Debug, Drop)]
pub struct TermText {
    bytes: Vec<u8>,
}

impl Model for TermText {
    ghost use Rattle.gs_model.specs.Terms.{Term};
    ghost use Rattle.gs_model.specs.Texts.{term_of, IsCanonical};

    ghost Value = { Term };

    ghost view = { λ t. term_of t.bytes.items };

    ghost invariant = { λ t. IsCanonical t.bytes.items };
}

/// The canonical text of an IRI. One exact allocation.
pub(crate) fn iri_bytes(alloc: Global, text: &str) -> Result<Vec<u8>, AllocError>
    requires { length text.now ≤ max_term_bytes }
    ensures { IfOk result (λ v. v.items ≡ text_of (Iri text.now)) }
{
    let mut bytes = Vec::with_capacity(alloc, text.len() + 2)?;
    bytes.push(b'<')?;
    bytes.extend_from_slice(text.as_bytes())?;
    bytes.push(b'>')?;
    Ok(bytes)
}

/// The canonical text of a blank node.
fn blank_bytes(alloc: Global, request: u64, number: u64) -> Result<Vec<u8>, AllocError>
    ensures { IfOk result (λ v. v.items ≡ text_of (Blank request number)) }
{
    let mut first = Buffer::new();
    let mut second = Buffer::new();
    let first = first.format(request).as_bytes();
    let second = second.format(number).as_bytes();
    let mut bytes = Vec::with_capacity(alloc, first.len() + second.len() + 4)?;
    bytes.extend_from_slice(b"_:b")?;
    bytes.extend_from_slice(first)?;
    bytes.push(b'_')?;
    bytes.extend_from_slice(second)?;
    Ok(bytes)
}

impl TermText {
    /// The text.
    pub fn as_bytes(&self) -> &[u8]
        ensures text { result.now ≡ text_of self.now }
        ensures valid { IsTerm self.now }
    {
        self.bytes.as_slice()
    }

    /// Whether it is an IRI, by its first byte.
    pub fn is_iri(&self) -> bool
        ensures { result ≡ is_iri_of self.now }
    {
        self.as_bytes().first() == Some(&b'<')
    }

    /// Whether it may be a subject: an IRI or a blank node, by its first byte.
    pub fn is_subject(&self) -> bool
        ensures { result ≡ is_subject_of self.now }
    {
        match self.as_bytes().first() {
            None => false,
            Some(b) => *b != b'"',
        }
    }

    /// An IRI.
    pub fn iri(alloc: Global, text: &str) -> Result<TermText, Refusal>
        ensures { Makes (Iri text.now) result }
    {
        if !is_absolute(text) {
            return Err(Refusal::Syntax(0));
        }
        if text.len() > MAX_TERM_BYTES - 2 {
            return Err(Refusal::TermTooLong);
        }
        let bytes = iri_bytes(alloc, text)?;
        Ok(TermText { bytes })
    }

    /// The blank node of a request's number and its own.
    pub fn blank(alloc: Global, request: u64, number: u64) -> Result<TermText, Refusal>
        ensures { Makes (Blank request number) result }
    {
        let bytes = blank_bytes(alloc, request, number)?;
        Ok(TermText { bytes })
    }

    /// A literal of a datatype.
    fn typed(alloc: Global, lexical: &str, datatype: &str) -> Result<TermText, Refusal>
        ensures { Makes (Literal lexical.now (Typed datatype.now)) result }
    {
        if !is_absolute(datatype) {
            return Err(Refusal::Syntax(0));
        }
        if datatype.len() > MAX_TERM_BYTES {
            return Err(Refusal::TermTooLong);
        }
        let after = literals::datatype_len(datatype);
        let Some(count) = literals::fitting_count(lexical, after) else {
            return Err(Refusal::TermTooLong);
        };
        let mut bytes = literals::quoted_bytes(alloc, lexical, count, after)?;
        literals::push_datatype(&mut bytes, datatype)?;
        Ok(TermText { bytes })
    }

    /// A literal with a language tag, which is kept in lower case.
    fn tagged(alloc: Global, lexical: &str, tag: &str) -> Result<TermText, Refusal>
        ensures { Makes (Literal lexical.now (Tagged (str_to_ascii_lowercase tag.now))) result }
    {
        if !literals::is_tag(tag.as_bytes()) {
            return Err(Refusal::Syntax(0));
        }
        if tag.len() > MAX_TERM_BYTES {
            return Err(Refusal::TermTooLong);
        }
        let Some(count) = literals::fitting_count(lexical, tag.len() + 1) else {
            return Err(Refusal::TermTooLong);
        };
        let mut bytes = literals::quoted_bytes(alloc, lexical, count, tag.len() + 1)?;
        literals::push_tag(&mut bytes, tag.as_bytes())?;
        Ok(TermText { bytes })
    }

    /// A literal with a datatype or a language tag, not both, and of `xsd:string` with neither.
    pub fn literal(
        alloc: Global,
        lexical: &str,
        datatype: Option<&str>,
        tag: Option<&str>,
    ) -> Result<TermText, Refusal>
        ensures { MakesLiteral lexical.now (option_copied datatype.entry) (option_copied tag.entry) result }
    {
        match (datatype, tag) {
            (None, None) => TermText::typed(alloc, lexical, XSD_STRING),
            (Some(datatype), None) => TermText::typed(alloc, lexical, datatype),
            (None, Some(tag)) => TermText::tagged(alloc, lexical, tag),
            (Some(_), Some(_)) => Err(Refusal::Syntax(0)),
        }
    }
}

impl TermText {
    /// The term of a text that is known to be canonical: nothing is tested, and the bytes are copied once.
    pub fn of_canonical(alloc: Global, text: &[u8]) -> Result<TermText, AllocError>
        requires { IsCanonical text.now }
        ensures { IfOk result (λ t. t ≡ term_of text.now) }
    {
        let bytes = Vec::from_slice(alloc, text)?;
        Ok(TermText { bytes })
    }

    /// The same, of bytes that are taken over as they are.
    pub fn from_canonical(text: Vec<u8>) -> TermText
        requires { IsCanonical text.items }
        ensures { result ≡ term_of text.items }
    {
        TermText { bytes: text }
    }
}

impl Clone for TermText {
    ghost is_clone = { λ s t. t ≡ s };

    fn clone(&self) -> Result<TermText, AllocError> {
        let bytes = Vec::from_slice(*self.bytes.allocator(), &self.bytes)?;
        Ok(TermText { bytes })
    }
}

impl PartialEq for TermText {
    ghost eq = { term_eq };

    ghost laws = { Prim.search (comparing, rules) };

    fn eq(&self, other: &TermText) -> bool {
        self.bytes.as_slice() == other.bytes.as_slice()
    }
}

impl Eq for TermText {
    ghost laws = { Prim.search (comparing, rules) };
}

impl Ord for TermText {
    ghost cmp = { term_cmp };

    ghost total = { Prim.search (comparing, rules) };

    ghost matches_partial_cmp = { Prim.search (comparing, rules) };

    ghost matches_eq = { Prim.search (comparing, rules) };

    fn cmp(&self, other: &TermText) -> Ordering {
        self.bytes.as_slice().cmp(&other.bytes.as_slice())
    }
}

impl PartialOrd for TermText {
    ghost use Rattle.std.specs.Ordering.{as_partial_cmp};

    ghost partial_cmp = { as_partial_cmp term_cmp };

    ghost laws = { partial_order_from_own_ties (Prim.search (comparing, rules)) (Prim.search (comparing, rules)) };

    fn partial_cmp(&self, other: &TermText) -> Option<Ordering> {
        Some(self.cmp(other))
    }
}
