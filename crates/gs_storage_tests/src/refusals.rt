//! Storage where a request for memory is refused. With memory these show the usual answers;
//! `rt try --test --fail-alloc N` refuses the request of that number.
use crate::lengths::{LONGEST, literal_of};
use crate::outcome::none_wrong;
use crate::terms::term;
use gs_dict::Dict;
use gs_model::Refusal;
use gs_pool::{Key, Node, Pool};
use gs_term::TermText;
use std::alloc::Global;
use std::test::Fail;

/// Whether a term gets this number, also where the first request for it was refused: then it is new as
/// before.
fn is_given(dict: &mut Dict, term: &TermText, number: u32) -> Result<bool, Refusal> {
    let before = dict.len();
    let id = match dict.intern(term) {
        Err(Refusal::NoMemory) => {
            if dict.len() != before || dict.find(term).is_some() {
                return Ok(false);
            }
            dict.intern(term)?
        }
        given => given?,
    };
    Ok(id.number == number && dict.find(term) == Some(id))
}

/// The same of the IRI with this number in it.
fn is_given_iri(alloc: Global, dict: &mut Dict, number: u32) -> Result<bool, Refusal> {
    let iri = term(alloc, u64::from(number))?;
    let is_right = is_given(dict, &iri, number);
    drop(iri);
    is_right
}

/// The first number that its term does not get.
fn first_not_given(alloc: Global, dict: &mut Dict) -> Result<Option<u32>, Refusal> {
    for number in 0..1_100 {
        if !is_given_iri(alloc, dict, number)? {
            return Ok(Some(number));
        }
    }
    Ok(None)
}

/// Terms get the numbers 0, 1, 2 and so on, whichever request was refused on the way.
#[test]
fn a_refused_term_is_new_as_before(rt: HostRuntime) -> Result<(), Fail> {
    let mut dict = Dict::new(rt.alloc(), 1, u32::MAX)?;
    let first = first_not_given(rt.alloc(), &mut dict);
    drop(dict);
    none_wrong(first)
}

/// Adds as many literals as there are to be, each as long as may be.
fn push_literals(alloc: Global, literals: &mut Vec<TermText>) -> Result<(), Refusal> {
    for number in 0..24 {
        literals.push(literal_of(alloc, number, LONGEST)?)?;
    }
    Ok(())
}

/// The place of the first of these literals that it does not get as its number.
fn first_not_placed(dict: &mut Dict, literals: &[TermText]) -> Result<Option<u32>, Refusal> {
    let mut number = 0u32;
    for literal in literals {
        if !is_given(dict, literal, number)? {
            return Ok(Some(number));
        }
        number = number.saturating_add(1);
    }
    Ok(None)
}

/// The same of literals that are made for it.
fn first_literal_not_given(
    alloc: Global,
    dict: &mut Dict,
    literals: &mut Vec<TermText>,
) -> Result<Option<u32>, Refusal> {
    push_literals(alloc, literals)?;
    first_not_placed(dict, literals)
}

/// Thirteen of these 24 texts, which are made before the first gets its number, begin a block, which is a
/// request for memory.
#[test]
fn a_refused_block_changes_nothing(rt: HostRuntime) -> Result<(), Fail> {
    let mut dict = Dict::new(rt.alloc(), 1, u32::MAX)?;
    let mut literals: Vec<TermText> = Vec::new(rt.alloc());
    let first = first_literal_not_given(rt.alloc(), &mut dict, &mut literals);
    drop(literals);
    drop(dict);
    none_wrong(first)
}

/// The node of an object.
fn node(object: u32) -> Node {
    Node {
        key: Key {
            subject: 0,
            predicate: 0,
            object,
        },
        left: None,
        right: None,
        height: 1,
        birth: 0,
    }
}

/// Whether a node gets this number, also where the first request for it was refused.
fn is_number_of_node(pool: &mut Pool, number: u32) -> Result<bool, Refusal> {
    let before = pool.nodes_in_use();
    let id = match pool.alloc(node(number)) {
        Ok(id) => id,
        Err(_) if pool.nodes_in_use() == before => pool.alloc(node(number))?,
        Err(_) => return Ok(false),
    };
    Ok(id == number && pool.is_plain(id))
}

/// The first number that its node does not get.
fn first_number_not_given(pool: &mut Pool) -> Result<Option<u32>, Refusal> {
    for number in 0..300 {
        if !is_number_of_node(pool, number)? {
            return Ok(Some(number));
        }
    }
    Ok(None)
}

/// Nodes get the numbers 0, 1, 2 and so on, and are as they were after a refusal.
#[test]
fn a_refused_node_changes_nothing(rt: HostRuntime) -> Result<(), Fail> {
    let mut pool = Pool::new(rt.alloc(), u32::MAX);
    let first = first_number_not_given(&mut pool);
    drop(pool);
    none_wrong(first)
}
