//! What triples are made of.
ghost use Rattle.std.specs.Prelude.{◌≡◌, ◌++◌, ℕ, [], length, true, IfOk, OnOk, OnErr, option_map};
ghost use Rattle.gs_model.specs.Triples.{is_iri, is_subject};

use gs_term::TermText;
use std::alloc::{AllocError, Global};

/// What triples are made of in a language: the types of their parts, and what tokens give.
pub trait Language {
    ghost use Rattle.gs_triple_values.specs.Languages.{TypedLanguage, triple_in};

    /// What may be the subject of a triple.
    type Subject: Drop;
    /// What may be the verb.
    type Verb: Drop;
    /// What may be the object.
    type Value: Drop;

    type Triple: Drop;

    /// Triples in their order, as an operation or a document keeps them.
    type List: Drop;

    // The language of the grammar, and what subjects, verbs and lists stand for in it.
    ghost language: { TypedLanguage Self.Subject Self.Verb Self.Value Self.Triple Self.List };

    // How many bytes the text of an object has, and those of a triple.
    ghost value_size: { Self.Value → ℕ };

    ghost triple_size: { Self.Triple → ℕ };

    /// A term.
    fn value(term: TermText) -> Self::Value
        ensures { result ≡ language.grammar.of_term term };

    /// An IRI or a blank node.
    fn subject(term: TermText) -> Self::Subject
        requires { is_subject term ≡ true }
        ensures { language.subject result ≡ language.grammar.of_term term };

    /// An IRI.
    fn verb(term: TermText) -> Self::Verb
        requires { is_iri term ≡ true }
        ensures { language.verb result ≡ language.grammar.of_term term };

    /// A variable of this name, where variables may stand.
    fn variable(alloc: Global, name: &[u8]) -> Result<Option<Self::Subject>, AllocError>
        ensures { IfOk result (λ o. option_map language.subject o ≡ language.grammar.variable name.now) };

    /// The same, as a verb.
    fn verb_variable(alloc: Global, name: &[u8]) -> Result<Option<Self::Verb>, AllocError>
        ensures { IfOk result (λ o. option_map language.verb o ≡ language.grammar.variable name.now) };

    /// What is a subject, as an object.
    fn subject_value(subject: Self::Subject) -> Self::Value
        ensures { result ≡ language.subject subject };

    /// A triple of these parts.
    fn triple(subject: Self::Subject, verb: Self::Verb, object: Self::Value) -> Self::Triple
        ensures { result ≡ triple_in language subject verb object };

    /// A triple of a subject and a verb that stay.
    fn next_triple(
        alloc: Global,
        subject: &Self::Subject,
        verb: &Self::Verb,
        object: Self::Value,
    ) -> Result<Self::Triple, AllocError>
        ensures { IfOk result (λ t. t ≡ triple_in language subject.now verb.now object) };

    /// A triple of a subject that stays, the last one of a verb.
    fn last_triple(
        alloc: Global,
        subject: &Self::Subject,
        verb: Self::Verb,
        object: Self::Value,
    ) -> Result<Self::Triple, AllocError>
        ensures { IfOk result (λ t. t ≡ triple_in language subject.now verb object) };

    /// How many bytes the text of an object has.
    fn value_bytes(value: &Self::Value) -> usize
        ensures { result ≡ value_size value.now };

    /// How many bytes the texts of a triple have.
    fn triple_bytes(triple: &Self::Triple) -> usize
        ensures { result ≡ triple_size triple.now };

    /// A list without triples. Takes no memory.
    fn no_triples(alloc: Global) -> Self::List
        ensures { language.items result ≡ [] };

    /// How many triples a list has.
    fn count(list: &Self::List) -> usize
        ensures { result ≡ length (language.items list.now) };

    /// Leaves no triple in a list.
    fn clear(list: &mut Self::List)
        ensures { language.items list.new ≡ [] };

    /// Moves triples to the end of a list, and says how many bytes its texts take more, or a greater
    /// number where it knows none of them. Where memory is refused, none is added.
    fn add_all(triples: &mut Vec<Self::Triple>, list: &mut Self::List) -> Result<usize, AllocError>
        ensures added { OnOk result (language.items list.new
            ≡ language.items list.old ++ triples.old.items) }
        ensures taken { OnOk result (triples.new.items ≡ []) }
        ensures kept { OnErr result (language.items list.new ≡ language.items list.old) };

    /// Moves the triples of a list to the end of another one, in the same way.
    fn append(from: &mut Self::List, list: &mut Self::List) -> Result<usize, AllocError>
        ensures added { OnOk result (language.items list.new
            ≡ language.items list.old ++ language.items from.old) }
        ensures taken { OnOk result (language.items from.new ≡ []) }
        ensures kept { OnErr result (language.items list.new ≡ language.items list.old) };
}
