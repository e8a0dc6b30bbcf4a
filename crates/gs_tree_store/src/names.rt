//! Names that the store makes up.
ghost use Rattle.std.specs.Prelude.{◌≡◌, IfOk};
ghost use Rattle.gs_tree_store.specs.Verdicts.{name_for, HasCounts};

use crate::books::{self, Books};
use gs_made_names::made_name;
use gs_term::{GraphName, Target};
use std::alloc::{AllocError, Global};

/// The first of the names for this request that is not in the store.
fn new_name(books: &Books, alloc: Global, request: u64) -> Result<GraphName, AllocError>
    requires { HasCounts books.now }
    ensures { IfOk result (λ name. name ≡ name_for books.now request) }
{
    let base = books.base.as_str();
    for number in 0..books.records.names() as u64 {
        let name = Target::Named(made_name(alloc, base, request, number)?);
        if !books::is_there(books, &name) {
            return made_name(alloc, base, request, number);
        }
    }
    made_name(alloc, base, request, books.records.names() as u64)
}

/// The same name, twice: one to keep, and one to report.
pub fn new_name_twice(
    books: &Books,
    alloc: Global,
    request: u64,
) -> Result<(GraphName, GraphName), AllocError>
    requires { HasCounts books.now }
    ensures { IfOk result (λ r. (r.0 ≡ name_for books.now request) × (r.1 ≡ name_for books.now request)) }
{
    let name = new_name(books, alloc, request)?;
    let given = name.clone()?;
    Ok((name, given))
}
