//! What stands before triples, and their first symbol.
ghost use Rattle.std.specs.Prelude.{◌≡◌, []};

use crate::frames::{Frame, Goal};
use crate::parser::TripleParser;
use crate::places::Place;
use crate::scopes::Scope;
use crate::stacks::Stack;
use gs_model::Fault;
use gs_triple_values::{Allowed, Language, Pending, Symbol, TermToken, values};
use std::alloc::AllocError;

impl<L: Language> TripleParser<L> {
    ghost use Rattle.gs_model.specs.declared.faults.Fault.TheVariants.{Syntax};
    ghost use Rattle.gs_triples.specs.States.{Lost};
    ghost use Rattle.gs_triples.specs.Languages.{of_terms};
    ghost use Rattle.gs_triples.specs.Meanings.{in_language};
    ghost use Rattle.gs_triples.specs.Directives.{with_prefix, with_base};
    ghost use Rattle.gs_triple_values.specs.Languages.{language_of};
    ghost use Rattle.gs_triple_parser.specs.Views.{scope_context, scope_numbers};
    ghost use Rattle.gs_triple_parser.specs.Views.{triples_state, context_now, numbers_now, pending_triples};
    ghost use Rattle.gs_triple_parser.specs.Machine.{Declares, Reaches, first_verb, opening_of};

    /// Before any triples, in a scope, where these may stand. Until triples open, a symbol is a
    /// fault of the grammar.
    pub fn within(scope: Scope, allowed: Allowed) -> TripleParser<L>
        ensures context { context_now L.language result
            ≡ in_language (language_of L.language allowed) (scope_context scope) }
        ensures numbers { numbers_now result ≡ scope_numbers scope }
        ensures pending { pending_triples L.language result ≡ [] }
        ensures state { triples_state L.language result ≡ Lost Syntax }
    {
        let alloc = scope.alloc;
        TripleParser {
            alloc,
            scope,
            allowed,
            stack: Stack::new(alloc),
            pending: Pending::new(alloc),
            text: String::new(alloc),
            place: Place::Lost(Fault::Syntax),
        }
    }

    /// What stays of the parser for the next block of triples.
    pub fn into_scope(self) -> Scope
        ensures context { scope_context result ≡ in_language of_terms (context_now L.language self) }
        ensures numbers { scope_numbers result ≡ numbers_now self }
    {
        let TripleParser { scope, .. } = self;
        scope
    }

    /// Declares a prefix, whose text ends in its colon, by the text of a reference. Whether these
    /// are a prefix and a reference.
    pub fn set_prefix(&mut self, prefix: &str, text: &str) -> Result<bool, AllocError>
        ensures { Declares L.language result self.old self.new
            (with_prefix (context_now L.language self.old) prefix.now text.now) }
    {
        self.scope.set_prefix(prefix, text)
    }

    /// Sets the base by the text of a reference. Whether that is one.
    pub fn set_base(&mut self, text: &str) -> Result<bool, AllocError>
        ensures { Declares L.language result self.old self.new
            (with_base (context_now L.language self.old) text.now) }
    {
        self.scope.set_base(text)
    }

    /// The text was read up to there, a number of bytes: the more of it, the more its triples and
    /// prefixes may take.
    #[inline]
    pub fn read_up_to(&mut self, end: u64)
        ensures state { triples_state L.language self.new ≡ triples_state L.language self.old }
        ensures context { context_now L.language self.new ≡ context_now L.language self.old }
        ensures numbers { numbers_now self.new ≡ numbers_now self.old }
        ensures pending { pending_triples L.language self.new ≡ pending_triples L.language self.old }
    {
        self.scope.budget.read_up_to(end);
    }

    /// A subject, whose verbs come next.
    pub(crate) fn begin(&mut self, subject: L::Subject)
        ensures { triples_state L.language self.new
            ≡ first_verb L.language self.old (L.language.subject subject) }
    {
        self.stack.clear();
        self.pending.clear();
        self.place = Place::Heading(Goal::Verbs(0, subject));
    }

    /// A collection opens triples.
    fn open_list(&mut self) -> Result<(), AllocError>
        ensures { Reaches L.language result self.new (opening_of L.language self.old Symbol.OpenList) }
    {
        self.stack.clear();
        self.pending.clear();
        self.stack.push(Frame::ToVerbs)?;
        self.place = Place::Heading(Goal::Begun(1));
        Ok(())
    }

    /// Brackets open triples.
    fn open_brackets(&mut self)
        ensures { triples_state L.language self.new ≡ opening_of L.language self.old Symbol.Open }
    {
        if self.allowed.nodes {
            self.place = Place::Opened;
        } else {
            self.lose(Fault::Syntax);
        }
    }

    /// A token that is a term or a variable opens triples.
    fn open_word(&mut self, token: TermToken) -> Result<(), AllocError>
        ensures { Reaches L.language result self.new
            (opening_of L.language self.old (Symbol.Term token.entry)) }
    {
        let scope = &mut self.scope;
        match values::subject::<L>(
            self.alloc,
            &scope.context,
            self.allowed,
            &mut scope.numbering,
            token,
        )? {
            Ok(subject) => self.begin(subject),
            Err(fault) => self.lose(fault),
        }
        Ok(())
    }

    /// The first symbol of triples. After a refusal the parser is of no more use.
    pub fn open(&mut self, symbol: Symbol) -> Result<(), AllocError>
        ensures { Reaches L.language result self.new (opening_of L.language self.old symbol.entry) }
    {
        self.count_symbol(symbol)?;
        match symbol {
            Symbol::Term(token) => return self.open_word(token),
            Symbol::Open => self.open_brackets(),
            Symbol::OpenList => return self.open_list(),
            _ => self.lose(Fault::Syntax),
        }
        Ok(())
    }
}
