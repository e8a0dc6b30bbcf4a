//! The values of tokens, in a language.
ghost use Rattle.std.specs.Prelude.{◌≡◌, Some, IfOk, option_map, codes};
ghost use Rattle.gs_model.specs.Terms.{Literal, Typed};
ghost use Rattle.gs_escape.specs.Tokens.{rest_after};
ghost use Rattle.gs_blank.specs.Numbers.{Numbers, label_number};
ghost use Rattle.gs_token_terms.specs.Datatypes.{datatype_iri};
ghost use Rattle.gs_triple_values.specs.Terms.{stood, StandsFor, StandsNumbered, IsNumbered};
ghost use Rattle.gs_triple_values.specs.Terms.{iri_value, verb_value, word_value, subject_value};
ghost use Rattle.gs_triples.specs.Meanings.{standing, made_of, with_numbers};
ghost use Rattle.gs_triple_values.specs.declared.allowed.Allowed.{Allowed as Flags};

use crate::allowed::Allowed;
use crate::languages::Language;
use gs_blank::Numbering;
use gs_model::Fault;
use gs_token_terms::terms::{after, blank, number};
use gs_token_terms::{Context, Datatype, Symbol, TermToken, rdf_type};
use std::alloc::{AllocError, Global};

/// A variable as a verb, where one may stand.
fn variable_verb<L: Language>(
    alloc: Global,
    name: &[u8],
) -> Result<Result<L::Verb, Fault>, AllocError>
    ensures { StandsFor L.language.verb result (standing (L.language.grammar.variable name.now)) }
{
    match L::verb_variable(alloc, name)? {
        None => Ok(Err(Fault::Syntax)),
        Some(verb) => Ok(Ok(verb)),
    }
}

/// An IRI as a verb.
#[inline]
#[tactic(auto, using(crate::proofs::ValueLemmas::iri_ok, crate::proofs::ValueLemmas::iri_err))]
fn iri_verb<L: Language>(
    alloc: Global,
    context: &Context,
    token: TermToken,
) -> Result<Result<L::Verb, Fault>, AllocError>
    ensures { (a : Flags) → StandsFor L.language.verb result
        (iri_value L.language context.now a token.entry) }
{
    match context.term(token)? {
        Ok(term) => Ok(Ok(L::verb(term))),
        Err(fault) => Ok(Err(fault)),
    }
}

/// The verb of one token.
#[inline]
fn verb_term<L: Language>(
    alloc: Global,
    context: &Context,
    token: TermToken,
) -> Result<Result<L::Verb, Fault>, AllocError>
    ensures { (a : Flags) → StandsFor L.language.verb result
        (verb_value L.language context.now a (Symbol.Term token.entry)) }
{
    match token {
        TermToken::Variable(name) => variable_verb::<L>(alloc, name),
        _ => iri_verb::<L>(alloc, context, token),
    }
}

/// A verb.
#[inline]
pub fn verb<L: Language>(
    alloc: Global,
    context: &Context,
    symbol: Symbol,
) -> Result<Result<L::Verb, Fault>, AllocError>
    ensures { (a : Flags) → StandsFor L.language.verb result
        (verb_value L.language context.now a symbol.entry) }
{
    match symbol {
        Symbol::Term(token) => verb_term::<L>(alloc, context, token),
        Symbol::A => Ok(Ok(L::verb(rdf_type(alloc)?))),
        _ => Ok(Err(Fault::Syntax)),
    }
}

/// The number of a label, which stands after its mark.
fn labelled(numbering: &mut Numbering, label: &str) -> Result<Option<u64>, AllocError>
    ensures { IfOk result (λ o. option_map (λ k. (k, numbering.new)) o
        ≡ option_map (label_number numbering.old) (rest_after (codes "_:") label.now)) }
{
    let Some(label) = after(label, "_:") else {
        return Ok(None);
    };
    let Ok(number) = numbering.of_label(label) else {
        return Err(AllocError);
    };
    Ok(Some(number))
}

/// The blank node of a label, where labels may stand.
#[tactic(auto, unfolding(gs_triples::specs::Meanings::word), using(crate::proofs::ValueLemmas::no_label, crate::proofs::ValueLemmas::label_node))]
fn label<L: Language>(
    alloc: Global,
    context: &Context,
    allowed: Allowed,
    numbering: &mut Numbering,
    label: &str,
) -> Result<Result<L::Subject, Fault>, AllocError>
    ensures { StandsNumbered L.language.subject result numbering.new
        (subject_value L.language context.now allowed numbering.old (TermToken.Label label.entry)) }
{
    if !allowed.nodes {
        return Ok(Err(Fault::Syntax));
    }
    match labelled(numbering, label)? {
        None => Ok(Err(Fault::Syntax)),
        Some(number) => {
            let node = blank(alloc, context.request, number)?;
            Ok(Ok(L::subject(node)))
        }
    }
}

/// A variable as a subject, where one may stand.
fn variable_subject<L: Language>(
    alloc: Global,
    name: &[u8],
) -> Result<Result<L::Subject, Fault>, AllocError>
    ensures { StandsFor L.language.subject result (standing (L.language.grammar.variable name.now)) }
{
    match L::variable(alloc, name)? {
        None => Ok(Err(Fault::Syntax)),
        Some(subject) => Ok(Ok(subject)),
    }
}

/// An IRI as a subject.
#[tactic(auto, using(crate::proofs::ValueLemmas::iri_ok, crate::proofs::ValueLemmas::iri_err))]
fn iri_subject<L: Language>(
    alloc: Global,
    context: &Context,
    token: TermToken,
) -> Result<Result<L::Subject, Fault>, AllocError>
    ensures { (a : Flags) (n : Numbers) → StandsNumbered L.language.subject result n
        (with_numbers n (iri_value L.language context.now a token.entry)) }
{
    match context.term(token)? {
        Ok(term) => Ok(Ok(L::subject(term))),
        Err(fault) => Ok(Err(fault)),
    }
}

/// The subject of one token.
#[tactic(auto, unfolding(gs_triples::specs::Meanings::word))]
pub fn subject<L: Language>(
    alloc: Global,
    context: &Context,
    allowed: Allowed,
    numbering: &mut Numbering,
    token: TermToken,
) -> Result<Result<L::Subject, Fault>, AllocError>
    ensures { StandsNumbered L.language.subject result numbering.new
        (subject_value L.language context.now allowed numbering.old token.entry) }
{
    match token {
        TermToken::Label(name) => label::<L>(alloc, context, allowed, numbering, name),
        TermToken::Plain(_, _) => Ok(Err(Fault::Syntax)),
        TermToken::Variable(name) => variable_subject::<L>(alloc, name),
        _ => iri_subject::<L>(alloc, context, token),
    }
}

/// A number or a boolean.
#[inline]
#[tactic(auto, unfolding(gs_triples::specs::Meanings::word))]
fn plain<L: Language>(
    alloc: Global,
    text: &str,
    datatype: Datatype,
) -> Result<Result<L::Value, Fault>, AllocError>
    ensures { IfOk result (λ m. m
        ≡ stood L.language.grammar.of_term (made_of (Some (Literal text.now (Typed (datatype_iri datatype)))))) }
{
    match number(alloc, text, datatype)? {
        Ok(term) => Ok(Ok(L::value(term))),
        Err(fault) => Ok(Err(fault)),
    }
}

/// A token that is no literal, as a value.
#[inline]
fn node<L: Language>(
    alloc: Global,
    context: &Context,
    allowed: Allowed,
    numbering: &mut Numbering,
    token: TermToken,
) -> Result<Result<L::Value, Fault>, AllocError>
    ensures { IsNumbered result numbering.new
        (subject_value L.language context.now allowed numbering.old token.entry) }
{
    match subject::<L>(alloc, context, allowed, numbering, token)? {
        Ok(subject) => Ok(Ok(L::subject_value(subject))),
        Err(fault) => Ok(Err(fault)),
    }
}

/// The value of one token.
#[inline]
#[tactic(auto, unfolding(gs_triples::specs::Meanings::word))]
pub fn word<L: Language>(
    alloc: Global,
    context: &Context,
    allowed: Allowed,
    numbering: &mut Numbering,
    token: TermToken,
) -> Result<Result<L::Value, Fault>, AllocError>
    ensures { IsNumbered result numbering.new
        (word_value L.language context.now allowed numbering.old token.entry) }
{
    match token {
        TermToken::Plain(text, datatype) => plain::<L>(alloc, text, datatype),
        _ => node::<L>(alloc, context, allowed, numbering, token),
    }
}
