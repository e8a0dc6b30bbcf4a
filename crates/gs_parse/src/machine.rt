//! The whole machine.
ghost use Rattle.std.specs.Prelude.{◌≡◌, ◌++◌, true, OnOk, OnErr, IfOk};
ghost use Rattle.gs_model.specs.Iris.{is_absolute};
ghost use Rattle.gs_blank.specs.Numbers.{no_numbers};

use crate::parser::Parser;
use crate::places::Place;
use gs_lex::BorrowedToken;
use gs_triple_lists::TripleList;
use gs_triple_parser::{Scope, TripleParser, Turn};
use gs_triple_values::{Allowed, Symbol, symbol_of_borrowed};
use std::alloc::{AllocError, Global};

impl Parser {
    ghost use Rattle.gs_body.specs.Bodies.{all_stated, end_after};
    ghost use Rattle.gs_lex.specs.Lexemes.{lexeme_of_borrowed};
    ghost use Rattle.gs_triples.specs.Symbols.{symbol_of};
    ghost use Rattle.gs_document.specs.Documents.{start};
    ghost use Rattle.gs_document.specs.Machine as machine;
    ghost use Rattle.gs_document.specs.States.{Between};
    ghost use Rattle.gs_parse.specs.Views.{state_of};
    ghost use Rattle.gs_parse.specs.Steps.{transition_here, transition_within, transition_after, MovesBy, GivesTriples};

    /// At the start of a document under an absolute base, in the request of this number. The seed spreads
    /// the labels of its blank nodes (`gs_blank::Numbering::new`).
    pub fn new(alloc: Global, base: &str, request: u64, seed: u64) -> Result<Parser, AllocError>
        requires { is_absolute base.now ≡ true }
        ensures state { IfOk result (λ p. state_of p ≡ Between (start base.now request) no_numbers) }
        ensures last { IfOk result (λ p. p.last ≡ 0) }
    {
        let scope = Scope::new(alloc, base, request, seed)?;
        let allowed = Allowed {
            nodes: true,
            lone_lists: false,
        };
        Ok(Parser {
            alloc,
            triples: TripleParser::within(scope, allowed),
            place: Place::Between,
            prefix: String::new(alloc),
            last: 0,
        })
    }

    /// The symbol after the triples of a statement, which is to be their dot.
    #[tactic(auto, using(crate::proofs::StepLemmas::given_stated))]
    fn conclude(&mut self, symbol: Symbol, triples: &mut TripleList) -> Result<(), AllocError>
        ensures moves { OnOk result (MovesBy self.old self.new (transition_after self.old symbol.entry)) }
        ensures given { GivesTriples result triples.old.items triples.new.items
            (transition_after self.old symbol.entry) }
    {
        let Symbol::Dot(end) = symbol else {
            self.lose();
            return Ok(());
        };
        self.triples.append_to(triples)?;
        self.between(end);
        Ok(())
    }

    /// A symbol within the triples of a statement, or after them.
    #[tactic(auto, unfolding(gs_document::specs::Machine::step))]
    fn within(&mut self, symbol: Symbol, triples: &mut TripleList) -> Result<(), AllocError>
        ensures moves { OnOk result (MovesBy self.old self.new (transition_within self.old symbol.entry)) }
        ensures given { GivesTriples result triples.old.items triples.new.items
            (transition_within self.old symbol.entry) }
    {
        match self.triples.step(symbol)? {
            Turn::Over => self.conclude(symbol, triples),
            Turn::Taken => {
                self.place = Place::Within;
                Ok(())
            }
        }
    }

    /// One symbol more.
    #[tactic(auto, using(crate::proofs::StepLemmas::quiet_moves, crate::proofs::StepLemmas::quiet_given), unfolding(gs_document::specs::Machine::step, gs_triples::specs::Machine::step))]
    fn take(&mut self, symbol: Symbol, triples: &mut TripleList) -> Result<(), AllocError>
        ensures moves { OnOk result (MovesBy self.old self.new (transition_here self.old symbol.entry)) }
        ensures given { GivesTriples result triples.old.items triples.new.items
            (transition_here self.old symbol.entry) }
    {
        match self.place {
            Place::Within => return self.within(symbol, triples),
            Place::Between => self.begin(symbol)?,
            Place::InPrefix(dot) => self.prefix(dot, symbol)?,
            Place::InPrefixIri(dot) => self.prefix_iri(dot, symbol)?,
            Place::InBase(dot) => self.base(dot, symbol)?,
            Place::AtDot => self.dot(symbol),
            Place::Lost => self.lose(),
        }
        Ok(())
    }

    /// One token more: the triples of the statement that it ends are added to the list. After a
    /// refusal the list is as it was, and the parser is of no more use. Where the texts of the
    /// document so far are too many for its bytes, that is refused as for want of memory.
    pub fn step(
        &mut self,
        token: BorrowedToken<'_>,
        triples: &mut TripleList,
    ) -> Result<(), AllocError>
        ensures state { OnOk result (state_of self.new
            ≡ (machine.step (state_of self.old) (symbol_of (lexeme_of_borrowed token.entry))).0) }
        ensures given { OnOk result (triples.new.items ≡ triples.old.items
            ++ all_stated (machine.step (state_of self.old) (symbol_of (lexeme_of_borrowed token.entry))).1) }
        ensures last { OnOk result (self.new.last ≡ end_after self.old.last
            (machine.step (state_of self.old) (symbol_of (lexeme_of_borrowed token.entry))).1) }
        ensures err { OnErr result (triples.new.items ≡ triples.old.items) }
    {
        self.read_up_to(token.end);
        self.take(symbol_of_borrowed(token), triples)
    }
}
