//! The block of an operation.
ghost use Rattle.std.specs.Prelude.{◌≡◌, ◌≤◌, ◌++◌, [], true, false, None, Some, OnOk, IfOk};

use crate::rejections::Rejection;
use gs_lex::TokenKind;
use gs_model::{Fault, MAX_PATTERNS};
use gs_triple_parser::{Scope, TripleParser, Turn};
use gs_triple_values::{Allowed, Language, Patterns, Symbol, TermToken, Terms};
use std::alloc::{AllocError, Global};

/// What a symbol does in a block: it is taken, it closes the block with this end, or it is the
/// first departure.
#[derive(Clone, Copy)]
pub enum BlockTurn {
    Takes,
    Shuts(u64),
    Stops(Rejection),
}

/// Within the braces of an operation.
#[derive(Drop)]
pub struct Block<L: Language> {
    pub(crate) parser: TripleParser<L>,
    /// The triples before those that are being read.
    pub(crate) triples: L::List,
    /// Triples are being read; else they may begin.
    pub(crate) within: bool,
    /// No label may stand that has one of the first so many numbers.
    pub(crate) since: Option<u64>,
    /// The most triples.
    pub(crate) most: Option<usize>,
}

impl<L: Language> Block<L> {
    ghost use Rattle.gs_triple_values.specs.Views.{symbol_at};
    ghost use Rattle.gs_triple_parser.specs.Views.{scope_context, scope_numbers, triples_state, context_now, numbers_now};
    ghost use Rattle.gs_update_places.specs.Views.{rejection_at, bars_since, more_than, block_numbers, gathered_triples, scope_of, IsSoundBlock};
    ghost use Rattle.gs_update_places.specs.Steps.{triples_now, entered_turn, parted_turn, followed_turn, opening_turn, moved_turn, block_turn, end_turn};
    ghost use Rattle.gs_update_places.specs.Steps.{Making, Turned, TurnsTo, GoesOn, StaysIf, KeepsBounds, all_triples};

    /// Whether the triples are too many, with those that are being read.
    #[inline]
    fn has_too_many(&self) -> bool
        ensures { result ≡ more_than self.now.most (triples_now L.language self.now) }
    {
        let Some(most) = self.most else {
            return false;
        };
        match most.checked_sub(L::count(&self.triples)) {
            None => true,
            Some(left) => self.parser.has_more_than(left),
        }
    }

    /// After a symbol that triples took.
    #[inline]
    fn entered(&mut self) -> BlockTurn
        ensures turn { Turned L.language self.new result (entered_turn L.language self.old) }
        ensures parser { self.new.parser ≡ self.old.parser }
        ensures triples { self.new.triples ≡ self.old.triples }
        ensures bounds { KeepsBounds self.old self.new }
        ensures goes_on { GoesOn L.language self.old result }
    {
        if let Some(fault) = self.parser.fault() {
            return BlockTurn::Stops(Rejection::Broken(fault));
        }
        if self.has_too_many() {
            return BlockTurn::Stops(Rejection::OutOfProfile);
        }
        self.within = true;
        BlockTurn::Takes
    }

    /// Triples are over: they join those before. Whether they are too many.
    fn gather(&mut self) -> Result<bool, AllocError>
        ensures many { IfOk result (λ b. b ≡ more_than self.old.most (all_triples L.language self.old)) }
        ensures triples { OnOk result (L.language.items self.new.triples ≡ all_triples L.language self.old) }
        ensures context { context_now L.language self.new.parser ≡ context_now L.language self.old.parser }
        ensures numbers { numbers_now self.new.parser ≡ numbers_now self.old.parser }
        ensures bounds { KeepsBounds self.old self.new }
    {
        self.parser.append_to(&mut self.triples)?;
        match self.most {
            None => Ok(false),
            Some(most) => Ok(L::count(&self.triples) > most),
        }
    }

    /// The symbol after triples: a dot, or the closing brace.
    fn parted(&mut self, symbol: Symbol) -> BlockTurn
        ensures turn { Turned L.language self.new result (parted_turn L.language self.old symbol.entry) }
        ensures parser { self.new.parser ≡ self.old.parser }
        ensures bounds { KeepsBounds self.old self.new }
    {
        match symbol {
            Symbol::Dot(_) => {
                self.within = false;
                BlockTurn::Takes
            }
            Symbol::Foreign(TokenKind::CloseBrace, end) => BlockTurn::Shuts(end),
            _ => BlockTurn::Stops(Rejection::Broken(Fault::Syntax)),
        }
    }

    /// A symbol that ends triples.
    fn followed(&mut self, symbol: Symbol) -> Result<BlockTurn, AllocError>
        ensures turn { TurnsTo L.language result self.new (followed_turn L.language self.old symbol.entry) }
        ensures context { context_now L.language self.new.parser ≡ context_now L.language self.old.parser }
        ensures numbers { numbers_now self.new.parser ≡ numbers_now self.old.parser }
        ensures bounds { KeepsBounds self.old self.new }
    {
        if self.gather()? {
            return Ok(BlockTurn::Stops(Rejection::OutOfProfile));
        }
        Ok(self.parted(symbol))
    }

    /// A token of updates alone where triples may begin.
    fn at_foreign(&self, kind: TokenKind, end: u64) -> BlockTurn
        ensures { Turned L.language self.now result
            (opening_turn L.language self.now (Symbol.Foreign kind end)) }
    {
        match kind {
            TokenKind::CloseBrace => BlockTurn::Shuts(end),
            TokenKind::Graph => BlockTurn::Stops(Rejection::OutOfProfile),
            _ => BlockTurn::Stops(Rejection::Broken(Fault::Syntax)),
        }
    }

    /// A symbol where triples may begin.
    fn at_triples(&mut self, symbol: Symbol) -> Result<BlockTurn, AllocError>
        requires { IsSoundBlock self.old }
        ensures turn { TurnsTo L.language result self.new (opening_turn L.language self.old symbol.entry) }
        ensures stays { StaysIf L.language result self.old self.new }
    {
        match symbol {
            Symbol::Foreign(kind, end) => Ok(self.at_foreign(kind, end)),
            _ => {
                self.parser.open(symbol)?;
                Ok(self.entered())
            }
        }
    }

    /// A symbol, where any may stand.
    #[inline(always)]
    fn moved(&mut self, symbol: Symbol) -> Result<BlockTurn, AllocError>
        requires { IsSoundBlock self.old }
        ensures turn { TurnsTo L.language result self.new (moved_turn L.language self.old symbol.entry) }
        ensures stays { StaysIf L.language result self.old self.new }
    {
        if !self.within {
            return self.at_triples(symbol);
        }
        match self.parser.step(symbol)? {
            Turn::Taken => Ok(self.entered()),
            Turn::Over => self.followed(symbol),
        }
    }

    /// Whether a symbol is a label that may not stand.
    #[inline]
    fn bars(&self, symbol: Symbol) -> bool
        ensures { result ≡ bars_since self.now.since (numbers_now self.now.parser) (symbol_at symbol.entry) }
    {
        let Some(since) = self.since else {
            return false;
        };
        let Symbol::Term(TermToken::Label(label)) = symbol else {
            return false;
        };
        match self.parser.label_number(label) {
            None => false,
            Some(number) => number <= since,
        }
    }

    /// One symbol more. After a refusal the block is of no more use.
    #[inline(always)]
    pub fn step(&mut self, symbol: Symbol) -> Result<BlockTurn, AllocError>
        requires { IsSoundBlock self.old }
        ensures turn { TurnsTo L.language result self.new (block_turn L.language self.old symbol.entry) }
        ensures stays { StaysIf L.language result self.old self.new }
    {
        if !self.bars(symbol) {
            return self.moved(symbol);
        }
        let turn = self.moved(symbol)?;
        match turn {
            BlockTurn::Stops(rejection) => Ok(BlockTurn::Stops(rejection)),
            _ => Ok(BlockTurn::Stops(Rejection::Broken(Fault::Syntax))),
        }
    }

    /// Why a text that ends here is no update. After it the block is of no more use.
    pub fn end(&mut self) -> Result<Rejection, AllocError>
        ensures { IfOk result (λ r. (made : Making L.Triple) →
            rejection_at r ≡ end_turn L.language self.old made) }
    {
        if !self.within {
            return Ok(Rejection::Broken(Fault::Syntax));
        }
        match self.parser.step(Symbol::Foreign(TokenKind::CloseBrace, 0))? {
            Turn::Taken => match self.parser.fault() {
                None => Ok(Rejection::Broken(Fault::Syntax)),
                Some(fault) => Ok(Rejection::Broken(fault)),
            },
            Turn::Over => {
                let many = self.gather()?;
                if many {
                    Ok(Rejection::OutOfProfile)
                } else {
                    Ok(Rejection::Broken(Fault::Syntax))
                }
            }
        }
    }

    /// What stays for the next operation, and the triples of this one.
    pub fn into_parts(self) -> (Scope, L::List)
        ensures context { scope_context result.0 ≡ scope_of L.language self }
        ensures numbers { scope_numbers result.0 ≡ block_numbers self }
        ensures triples { result.1 ≡ gathered_triples self }
    {
        let Block {
            parser,
            triples,
            ..
        } = self;
        (parser.into_scope(), triples)
    }
}

ghost use Rattle.gs_update_text.specs.States.{InsertData, DeleteData, DeleteWhere};
ghost use Rattle.gs_update_places.specs.declared.places.Place.TheVariants as place;
ghost use Rattle.gs_update_places.specs.Steps.{LeadsToPlace, block_start};

/// INSERT DATA: no label that an earlier operation has.
pub(crate) fn inserting(alloc: Global, scope: Scope) -> Block<Terms>
    ensures { LeadsToPlace (place.Inserting result) (block_start InsertData scope) }
{
    let allowed = Allowed {
        nodes: true,
        lone_lists: true,
    };
    let parser = TripleParser::within(scope, allowed);
    let since = Some(parser.last_number());
    Block {
        parser,
        triples: Terms::no_triples(alloc),
        within: false,
        since,
        most: None,
    }
}

/// DELETE DATA: no blank nodes.
pub(crate) fn deleting(alloc: Global, scope: Scope) -> Block<Terms>
    ensures { LeadsToPlace (place.Deleting result) (block_start DeleteData scope) }
{
    let allowed = Allowed {
        nodes: false,
        lone_lists: false,
    };
    Block {
        parser: TripleParser::within(scope, allowed),
        triples: Terms::no_triples(alloc),
        within: false,
        since: None,
        most: None,
    }
}

/// DELETE WHERE: no blank nodes, and not too many patterns.
pub(crate) fn seeking(alloc: Global, scope: Scope) -> Block<Patterns>
    ensures { LeadsToPlace (place.Seeking result) (block_start DeleteWhere scope) }
{
    let allowed = Allowed {
        nodes: false,
        lone_lists: false,
    };
    Block {
        parser: TripleParser::within(scope, allowed),
        triples: Patterns::no_triples(alloc),
        within: false,
        since: None,
        most: Some(MAX_PATTERNS),
    }
}
