//! The operations of a patch, as a page stores them.
ghost use Rattle.std.specs.Prelude.{◌≡◌, ◌≤◌, length, map, IfOk, IfSome};
ghost use Rattle.gs_chronicle.specs.KeptOps.{kept_op, kept_brings, brings, ops_kept};

use gs_event::Op;
use gs_small_triples::{FormBlocks, SmallTriples};
use gs_term::Pattern;
use std::alloc::{AllocError, Global};
use std::mem;

/// A patch of more operations has no forms: each is two small blocks, which would lie among those of what it
/// was made of.
pub(crate) const MOST_FORMS: usize = 1_024;

/// So many operations are moved into spare blocks. More would take long.
const MOST_MOVED: usize = 16;

/// An operation of a patch, as a page stores it.
#[derive(Debug, Drop)]
pub enum KeptOp {
    /// INSERT DATA, with its triples in their small form.
    Insert(SmallTriples),
    /// DELETE DATA, likewise.
    DeleteData(SmallTriples),
    /// DELETE WHERE, with its patterns as they came.
    DeleteWhere(Vec<Pattern>),
}

/// The operations of a patch, as a page stores them.
#[derive(Debug, Drop)]
pub enum KeptOps {
    /// Each as the page keeps it.
    Kept(Vec<KeptOp>),
    /// As they came, where no forms were given.
    AsTheyCame(Vec<Op>),
}

/// How a page keeps an operation, without its patterns.
fn form_of(alloc: Global, op: &Op) -> Result<KeptOp, AllocError>
    ensures { IfOk result (λ k. kept_brings k ≡ brings op.now) }
{
    match op {
        Op::Insert(list) => Ok(KeptOp::Insert(SmallTriples::of(alloc, list)?)),
        Op::DeleteData(list) => Ok(KeptOp::DeleteData(SmallTriples::of(alloc, list)?)),
        Op::DeleteWhere(_) => Ok(KeptOp::DeleteWhere(Vec::new(alloc))),
    }
}

/// The same of so many operations as have forms.
fn all_forms(alloc: Global, ops: &[Op]) -> Result<Vec<KeptOp>, AllocError>
    ensures { IfOk result (λ v. map kept_brings v.items ≡ map brings ops.now) }
{
    let mut forms = Vec::with_capacity(alloc, ops.len())?;
    for op in ops {
        forms.push(form_of(alloc, op)?)?;
    }
    Ok(forms)
}

/// How a page keeps these operations, without patterns, which it takes from them when it stores them. `None`
/// where there are more than 1,024, or memory is refused. Linear in what they bring.
pub fn forms_of(alloc: Global, ops: &[Op]) -> Option<Vec<KeptOp>>
    ensures forms { IfSome result (λ v. map kept_brings v.items ≡ map brings ops.now) }
    ensures few { IfSome result (λ v. length ops.now ≤ 1_024) }
{
    if ops.len() > MOST_FORMS {
        return None;
    }
    all_forms(alloc, ops).ok()
}

/// Takes the patterns of an operation.
fn take_patterns(form: &mut KeptOp, op: &mut Op)
    requires { kept_brings form.old ≡ brings op.old }
    ensures { kept_op form.new ≡ op.old }
{
    if let KeptOp::DeleteWhere(kept) = form {
        if let Op::DeleteWhere(patterns) = op {
            mem::swap(kept, patterns);
        }
    }
}

/// Takes the patterns of all operations.
fn take_all(forms: &mut [KeptOp], ops: &mut [Op])
    requires { map kept_brings forms.old ≡ map brings ops.old }
    ensures { map kept_op forms.new ≡ ops.old }
{
    for place in 0..forms.len() {
        take_patterns(&mut forms[place], &mut ops[place]);
    }
}

impl KeptOps {
    /// Operations as a page stores them, of which these are the forms, if they could be made. Takes no
    /// memory. Triples that have a form stay with the operations.
    pub(crate) fn of(forms: Option<Vec<KeptOp>>, ops: &mut Vec<Op>) -> KeptOps
        requires { IfSome forms (λ v. map kept_brings v.items ≡ map brings ops.old.items) }
        ensures { ops_kept result ≡ ops.old.items }
    {
        match forms {
            Some(mut forms) => {
                take_all(&mut forms, ops);
                KeptOps::Kept(forms)
            }
            None => {
                let none = Vec::new(*ops.allocator());
                KeptOps::AsTheyCame(mem::replace(ops, none))
            }
        }
    }

    /// Moves the triples of a few operations into spare blocks, where these are found. Takes no memory.
    pub(crate) fn move_into(&mut self, blocks: &mut FormBlocks)
        ensures { ops_kept self.new ≡ ops_kept self.old }
    {
        if let KeptOps::Kept(ops) = self {
            if ops.len() <= MOST_MOVED {
                move_all(ops, blocks);
            }
        }
    }

    /// Leaves the blocks of a few operations that are of no more use.
    pub(crate) fn leave_to(self, blocks: &mut FormBlocks) {
        let KeptOps::Kept(mut ops) = self else {
            return;
        };
        if ops.len() > MOST_MOVED {
            return;
        }
        while let Some(op) = ops.pop() {
            op.leave_to(blocks);
        }
    }
}

impl KeptOp {
    fn move_into(&mut self, blocks: &mut FormBlocks)
        ensures { kept_op self.new ≡ kept_op self.old }
    {
        match self {
            KeptOp::Insert(triples) => triples.move_into(blocks),
            KeptOp::DeleteData(triples) => triples.move_into(blocks),
            KeptOp::DeleteWhere(_) => {}
        }
    }

    fn leave_to(self, blocks: &mut FormBlocks) {
        match self {
            KeptOp::Insert(triples) => triples.leave_to(blocks),
            KeptOp::DeleteData(triples) => triples.leave_to(blocks),
            KeptOp::DeleteWhere(_) => {}
        }
    }
}

/// Moves the triples of operations into spare blocks, where these are found.
fn move_all(ops: &mut [KeptOp], blocks: &mut FormBlocks)
    ensures { map kept_op ops.new ≡ map kept_op ops.old }
{
    for op in ops.iter_mut() {
        op.move_into(blocks);
    }
}
