//! The parser of one document.
ghost use Rattle.std.specs.Prelude.{◌≡◌};

use crate::places::Place;
use gs_triple_parser::TripleParser;
use gs_triple_values::Terms;
use std::alloc::Global;

/// A parser of one document, which takes its tokens in their order.
#[derive(Drop)]
pub struct Parser {
    pub(crate) alloc: Global,
    pub(crate) triples: TripleParser<Terms>,
    pub(crate) place: Place,
    /// The text of the prefix that a directive declares.
    pub(crate) prefix: String,
    /// The number of bytes up to the end of the last statement.
    pub last: u64,
}

impl Parser {
    ghost use Rattle.gs_model.specs.declared.faults.Fault.TheVariants.{Syntax};
    ghost use Rattle.gs_document.specs.States.{Between, lost, states_nothing};
    ghost use Rattle.gs_parse.specs.Views.{state_of, context_at, parser_numbers};
    ghost use Rattle.gs_parse.specs.Steps.{MovesQuietly};

    /// The grammar is broken outside triples: nothing is read after it.
    pub(crate) fn lose(&mut self)
        ensures { MovesQuietly self.old self.new (states_nothing (lost Syntax)) }
    {
        self.place = Place::Lost;
    }

    /// The text was read up to there, a number of bytes: the more of it, the more its triples and
    /// prefixes may take.
    #[inline]
    pub(crate) fn read_up_to(&mut self, end: u64)
        ensures state { state_of self.new ≡ state_of self.old }
        ensures last { self.new.last ≡ self.old.last }
    {
        self.triples.read_up_to(end);
    }

    /// A statement ends there, and the next one may begin.
    pub(crate) fn between(&mut self, end: u64)
        ensures state { state_of self.new ≡ Between (context_at self.old) (parser_numbers self.old) }
        ensures last { self.new.last ≡ end }
    {
        self.last = end;
        self.place = Place::Between;
    }
}
