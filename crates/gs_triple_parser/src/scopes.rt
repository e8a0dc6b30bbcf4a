//! What stays from one block of triples to the next.
ghost use Rattle.std.specs.Prelude.{◌≡◌, true, IfOk};
ghost use Rattle.gs_model.specs.Iris.{is_absolute};
ghost use Rattle.gs_blank.specs.Numbers.{no_numbers};

use gs_blank::Numbering;
use gs_triple_values::{Budget, Context};
use std::alloc::{AllocError, Global};

/// The base and the prefixes in force, the request, the numbers of its blank nodes so far, and how
/// much its texts may take.
#[derive(Drop)]
pub struct Scope {
    pub(crate) alloc: Global,
    pub(crate) context: Context,
    pub(crate) numbering: Numbering,
    pub(crate) budget: Budget,
}

impl Scope {
    ghost use Rattle.gs_triples.specs.Languages.{of_terms};
    ghost use Rattle.gs_triples.specs.Directives.{without_prefixes, with_prefix, with_base};
    ghost use Rattle.gs_triple_parser.specs.Views.{scope_context, scope_numbers};
    ghost use Rattle.gs_triple_values.specs.Contexts.{ChangesContext};

    /// Under an absolute base, with no prefix and no blank node, in the request of this number.
    /// `gs_iri::is_absolute` tests a base. The seed spreads the labels (`gs_blank::Numbering::new`).
    pub fn new(alloc: Global, base: &str, request: u64, seed: u64) -> Result<Scope, AllocError>
        requires { is_absolute base.now ≡ true }
        ensures context { IfOk result (λ s. scope_context s ≡ without_prefixes of_terms base.now request) }
        ensures numbers { IfOk result (λ s. scope_numbers s ≡ no_numbers) }
    {
        Ok(Scope {
            alloc,
            context: Context::new(alloc, base, request)?,
            numbering: Numbering::new(alloc, seed),
            budget: Budget::new(),
        })
    }

    /// The text was read up to there, a number of bytes: the more of it, the more its triples and
    /// prefixes may take.
    pub fn read_up_to(&mut self, end: u64)
        ensures context { scope_context self.new ≡ scope_context self.old }
        ensures numbers { scope_numbers self.new ≡ scope_numbers self.old }
    {
        self.budget.read_up_to(end);
    }

    /// Declares a prefix, whose text ends in its colon, by the text of a reference. Whether these
    /// are a prefix and a reference.
    pub fn set_prefix(&mut self, prefix: &str, text: &str) -> Result<bool, AllocError>
        ensures context { ChangesContext result (scope_context self.old) (scope_context self.new)
            (with_prefix (scope_context self.old) prefix.now text.now) }
        ensures numbers { scope_numbers self.new ≡ scope_numbers self.old }
    {
        self.context.set_prefix(&mut self.budget, prefix, text)
    }

    /// Sets the base by the text of a reference. Whether that is one.
    pub fn set_base(&mut self, text: &str) -> Result<bool, AllocError>
        ensures context { ChangesContext result (scope_context self.old) (scope_context self.new)
            (with_base (scope_context self.old) text.now) }
        ensures numbers { scope_numbers self.new ≡ scope_numbers self.old }
    {
        self.context.set_base(&mut self.budget, text)
    }
}
