//! The parser.
ghost use Rattle.std.specs.Prelude.{◌≡◌, ◌≢◌, ◌++◌, ◌∷◌, [], true, Some, option_map, OnOk, IfOk, IfSome, IfNone};
ghost use Rattle.gs_model.specs.Iris.{is_absolute};
ghost use Rattle.gs_update_places.specs.Views.{IsSoundPlace};

use gs_event::Op;
use gs_model::Fault;
use gs_triple_lists::TripleList;
use gs_triple_parser::Scope;
use gs_triple_values::Symbol;
use gs_update_places::{BlockTurn, Place, Rejection};
use std::alloc::{AllocError, Global};
use std::mem;

/// A parser of one update, which takes its symbols in their order.
#[derive(Drop)]
pub struct UpdateParser {
    pub(crate) alloc: Global,
    pub(crate) place: Place,
    /// The operations so far.
    pub(crate) operations: Vec<Op>,
    /// The number of bytes up to the end of the last of them.
    pub(crate) last: u64,
}

/// The triples of an operation, put in order for the store, with no more room than they and their terms
/// take: an update may have very many operations.
fn settled(mut triples: TripleList) -> Result<TripleList, AllocError>
    ensures { IfOk result (λ l. l ≡ triples) }
{
    triples.put_in_order()?;
    triples.shrink_to_fit();
    Ok(triples)
}

impl UpdateParser {
    ghost use Rattle.gs_blank.specs.Numbers.{no_numbers};
    ghost use Rattle.gs_triple_values.specs.Views.{symbol_at};
    ghost use Rattle.gs_update_text.specs.Grammar.{first_scope};
    ghost use Rattle.gs_update_text.specs.States.{UpdateStep, Between, Rejected, quiet};
    ghost use Rattle.gs_update_text.specs.Machine as machine;
    ghost use Rattle.gs_update_places.specs.declared.rejections.Rejection.{Rejection as Code};
    ghost use Rattle.gs_update_places.specs.Views.{rejection_at, state_at};
    ghost use Rattle.gs_update.specs.Views.{update_state_of, update_operation_of, operations_so_far, IsSoundParser};
    ghost use Rattle.gs_triple_parser.specs.Views.{scope_context, scope_numbers};
    ghost use Rattle.gs_update_places.specs.Steps.{transition_at_place};
    ghost use Rattle.gs_update_places.specs.Places.{IsPassage, Follows, concluded, closed_at};
    ghost use Rattle.gs_update.specs.Steps.{Starts, Moves, EndsUpdateText};

    /// At the start of an update of so many bytes under an absolute base, in the request of this
    /// number. The seed spreads the labels of its blank nodes (`gs_blank::Numbering::new`).
    pub fn new(
        alloc: Global,
        base: &str,
        request: u64,
        seed: u64,
        bytes: u64,
    ) -> Result<UpdateParser, AllocError>
        requires { is_absolute base.now ≡ true }
        ensures { IfOk result (λ p. Starts p (Between (first_scope base.now request) no_numbers)) }
    {
        let mut scope = Scope::new(alloc, base, request, seed)?;
        scope.read_up_to(bytes);
        Ok(UpdateParser {
            alloc,
            place: Place::Between(scope),
            operations: Vec::new(alloc),
            last: 0,
        })
    }

    /// At another place, where no operation ends.
    fn stand(&mut self, place: Place) -> Result<(), AllocError>
        requires { IsSoundPlace place }
        ensures { OnOk result (Moves self.old self.new (quiet (state_at place))) }
    {
        drop(mem::replace(&mut self.place, place));
        Ok(())
    }

    /// One operation more, which ends there.
    fn add(&mut self, operation: Op, end: u64) -> Result<(), AllocError>
        ensures operations { OnOk result (self.new.operations.items
            ≡ self.old.operations.items ++ operation ∷ []) }
        ensures last { OnOk result (self.new.last ≡ end) }
    {
        self.operations.push(operation)?;
        self.last = end;
        Ok(())
    }

    /// An operation ends there.
    fn conclude(&mut self, scope: Scope, operation: Op, end: u64) -> Result<(), AllocError>
        ensures { OnOk result (Moves self.old self.new
            (concluded (Some (update_operation_of operation)) (scope_context scope) (scope_numbers scope) end)) }
    {
        self.add(operation, end)?;
        self.stand(Place::After(scope))
    }

    /// The block that the parser is in ends there: its operation is one more.
    fn shut(&mut self, end: u64) -> Result<(), AllocError>
        ensures { OnOk result (Moves self.old self.new (closed_at self.old.place end)) }
    {
        let lost = Place::Rejected(Rejection::Broken(Fault::Syntax));
        match mem::replace(&mut self.place, lost) {
            Place::Inserting(block) => {
                let (scope, triples) = block.into_parts();
                let triples = settled(triples)?;
                self.conclude(scope, Op::Insert(triples), end)
            }
            Place::Deleting(block) => {
                let (scope, triples) = block.into_parts();
                let triples = settled(triples)?;
                self.conclude(scope, Op::DeleteData(triples), end)
            }
            Place::Seeking(block) => {
                let (scope, patterns) = block.into_parts();
                if patterns.is_empty() {
                    return self.stand(Place::Rejected(Rejection::OutOfProfile));
                }
                self.conclude(scope, Op::DeleteWhere(patterns), end)
            }
            other => {
                drop(other);
                Ok(())
            }
        }
    }

    /// At the first departure. A function of its own, so that no `Place` is made where a symbol is
    /// taken.
    fn stop(&mut self, rejection: Rejection) -> Result<(), AllocError>
        ensures { OnOk result (Moves self.old self.new (quiet (Rejected (rejection_at rejection)))) }
    {
        self.stand(Place::Rejected(rejection))
    }

    /// After the turn of the block that the parser is in.
    #[inline(always)]
    fn follow(&mut self, turn: BlockTurn) -> Result<(), AllocError>
        ensures { (t : UpdateStep) → Follows t turn self.old.place → OnOk result (Moves self.old self.new t) }
    {
        match turn {
            BlockTurn::Takes => Ok(()),
            BlockTurn::Shuts(end) => self.shut(end),
            BlockTurn::Stops(rejection) => self.stop(rejection),
        }
    }

    /// A symbol outside a block.
    fn pass(&mut self, symbol: Symbol) -> Result<(), AllocError>
        requires { IsPassage self.old.place }
        ensures { OnOk result (Moves self.old self.new
            (transition_at_place self.old.place symbol.entry)) }
    {
        self.place.pass(self.alloc, symbol)
    }

    /// One symbol more. After a refusal the parser is of no more use.
    #[inline(always)]
    pub fn step(&mut self, symbol: Symbol) -> Result<(), AllocError>
        requires { IsSoundParser self.old }
        ensures { OnOk result (Moves self.old self.new
            (machine.step (update_state_of self.old) (symbol_at symbol.entry))) }
    {
        match self.place.step_block(symbol)? {
            Some(turn) => self.follow(turn),
            None => self.pass(symbol),
        }
    }

    /// The departure after which nothing is read.
    pub fn rejection(&self) -> Option<Rejection>
        ensures some { IfSome result (λ r. update_state_of self.now ≡ Rejected (rejection_at r)) }
        ensures none { IfNone result ((r : Code) → update_state_of self.now ≢ Rejected (rejection_at r)) }
    {
        self.place.rejection()
    }

    /// The departure of a text that ends here, if it is no update.
    pub fn end(&mut self) -> Result<Option<Rejection>, AllocError>
        ensures { IfOk result (λ o. EndsUpdateText self.old self.new (option_map rejection_at o)) }
    {
        self.place.end()
    }

    /// The operations.
    pub fn into_operations(self) -> Vec<Op>
        ensures { result ≡ operations_so_far self }
    {
        let UpdateParser {
            place,
            operations,
            ..
        } = self;
        drop(place);
        operations
    }
}
