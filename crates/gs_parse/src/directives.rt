//! What begins a statement, and the rest of a directive.
ghost use Rattle.std.specs.Prelude.{◌≡◌, OnOk, Some};

use crate::parser::Parser;
use crate::places::Place;
use gs_triple_values::{Symbol, TermToken};
use std::alloc::AllocError;

impl Parser {
    ghost use Rattle.gs_triples.specs.Symbols.{At};
    ghost use Rattle.gs_triple_values.specs.Contexts.{ChangesContext};
    ghost use Rattle.gs_document.specs.Machine.{step, set};
    ghost use Rattle.gs_parse.specs.Views.{parser_at, context_at, parser_numbers};
    ghost use Rattle.gs_parse.specs.Steps.{transition_at, declared, MovesQuietly};

    /// `@prefix` or `@base`.
    #[tactic(auto, unfolding(gs_document::specs::Machine::step))]
    fn begin_at(&mut self, text: &str)
        ensures { MovesQuietly self.old self.new (step (parser_at self.old Place.Between) (At text.now)) }
    {
        if text == "@prefix" {
            self.place = Place::InPrefix(true);
        } else if text == "@base" {
            self.place = Place::InBase(true);
        } else {
            self.lose();
        }
    }

    /// A symbol between two statements.
    #[tactic(auto, unfolding(gs_document::specs::Machine::step))]
    pub(crate) fn begin(&mut self, symbol: Symbol) -> Result<(), AllocError>
        ensures { OnOk result
            (MovesQuietly self.old self.new (transition_at self.old Place.Between symbol.entry)) }
    {
        match symbol {
            Symbol::At(text) => self.begin_at(text),
            Symbol::Prefix => self.place = Place::InPrefix(false),
            Symbol::Base => self.place = Place::InBase(false),
            _ => {
                self.triples.open(symbol)?;
                self.place = Place::Within;
            }
        }
        Ok(())
    }

    /// The prefix that a directive declares.
    #[tactic(auto, unfolding(gs_document::specs::Machine::step))]
    pub(crate) fn prefix(&mut self, dot: bool, symbol: Symbol) -> Result<(), AllocError>
        ensures { OnOk result
            (MovesQuietly self.old self.new (transition_at self.old (Place.InPrefix dot) symbol.entry)) }
    {
        match symbol {
            Symbol::Term(TermToken::Namespace(prefix)) => {
                self.prefix = String::from_str(self.alloc, prefix)?;
                self.place = Place::InPrefixIri(dot);
            }
            _ => self.lose(),
        }
        Ok(())
    }

    /// After the IRI of a directive, which ends there where no dot is to come.
    fn set(&mut self, dot: bool, end: u64)
        ensures { MovesQuietly self.old self.new
            (set dot end (parser_numbers self.old) (Some (context_at self.old))) }
    {
        if dot {
            self.place = Place::AtDot;
        } else {
            self.between(end);
        }
    }

    /// Declares the prefix that a directive has. Whether it and this are a prefix and an IRI.
    fn declare(&mut self, text: &str) -> Result<bool, AllocError>
        ensures context { ChangesContext result (context_at self.old) (context_at self.new)
            (declared self.old text.now) }
        ensures numbers { parser_numbers self.new ≡ parser_numbers self.old }
        ensures last { self.new.last ≡ self.old.last }
    {
        self.triples.set_prefix(self.prefix.as_str(), text)
    }

    /// The IRI that a prefix stands for.
    #[tactic(auto, unfolding(gs_document::specs::Machine::step))]
    pub(crate) fn prefix_iri(&mut self, dot: bool, symbol: Symbol) -> Result<(), AllocError>
        ensures { OnOk result
            (MovesQuietly self.old self.new (transition_at self.old (Place.InPrefixIri dot) symbol.entry)) }
    {
        match symbol {
            Symbol::Term(TermToken::Reference(text, end)) => {
                if self.declare(text)? {
                    self.set(dot, end);
                } else {
                    self.lose();
                }
            }
            _ => self.lose(),
        }
        Ok(())
    }

    /// The IRI of a base.
    #[tactic(auto, unfolding(gs_document::specs::Machine::step, gs_document::specs::Directives::with_base))]
    pub(crate) fn base(&mut self, dot: bool, symbol: Symbol) -> Result<(), AllocError>
        ensures { OnOk result
            (MovesQuietly self.old self.new (transition_at self.old (Place.InBase dot) symbol.entry)) }
    {
        match symbol {
            Symbol::Term(TermToken::Reference(text, end)) => {
                if self.triples.set_base(text)? {
                    self.set(dot, end);
                } else {
                    self.lose();
                }
            }
            _ => self.lose(),
        }
        Ok(())
    }

    /// The dot of a directive.
    #[tactic(auto, unfolding(gs_document::specs::Machine::step))]
    pub(crate) fn dot(&mut self, symbol: Symbol)
        ensures { MovesQuietly self.old self.new (transition_at self.old Place.AtDot symbol.entry) }
    {
        match symbol {
            Symbol::Dot(end) => self.between(end),
            _ => self.lose(),
        }
    }
}
