//! Dictionaries that lose terms, beside a plain list of what each number stands for.
use crate::draws::Draws;
use crate::outcome::none_wrong;
use crate::terms::term;
use gs_dict::{Dict, TermId};
use gs_model::Refusal;
use std::alloc::Global;
use std::test::Fail;

/// What each number stands for, or that it stands for nothing.
type Numbers = Vec<Option<u64>>;

/// The number of what was drawn.
fn number_in(numbers: &[Option<u64>], drawn: u64) -> Option<u32> {
    let mut number = 0u32;
    for known in numbers {
        if *known == Some(drawn) {
            return Some(number);
        }
        number = number.saturating_add(1);
    }
    None
}

/// Notes that a number stands for what was drawn. Whether it stood for nothing.
fn note(numbers: &mut Numbers, number: u32, drawn: u64) -> Result<bool, Refusal> {
    let place = number as usize;
    if place == numbers.len() {
        numbers.push(Some(drawn))?;
        return Ok(true);
    }
    match numbers.get_mut(place) {
        Some(known) if known.is_none() => {
            *known = Some(drawn);
            Ok(true)
        }
        _ => Ok(false),
    }
}

/// Whether a term is found exactly where it has a number, and then keeps it, and is else given one that stood
/// for nothing.
fn is_numbered(
    alloc: Global,
    dict: &mut Dict,
    numbers: &mut Numbers,
    drawn: u64,
) -> Result<bool, Refusal> {
    let drawn_term = term(alloc, drawn)?;
    let known = number_in(numbers, drawn);
    let found = dict.find(&drawn_term).map(|id| id.number);
    let id = dict.intern(&drawn_term);
    drop(drawn_term);
    let number = id?.number;
    let is_right = match known {
        Some(known) => number == known,
        None => note(numbers, number, drawn)?,
    };
    Ok(is_right && found == known)
}

/// Marks two of three numbers, by draws, and forgets what the others stand for.
fn marked(alloc: Global, draws: &mut Draws, numbers: &mut Numbers) -> Result<Vec<bool>, Refusal> {
    let mut marks = Vec::with_capacity(alloc, numbers.len())?;
    for known in numbers.iter_mut() {
        let is_marked = draws.next() % 3 > 0;
        marks.push(is_marked)?;
        if !is_marked {
            *known = None;
        }
    }
    Ok(marks)
}

/// The first number of which the dictionary says anything else than the list.
fn wrong_number(
    alloc: Global,
    dict: &Dict,
    numbers: &[Option<u64>],
) -> Result<Option<u32>, Refusal> {
    let mut number = 0u32;
    for known in numbers {
        let id = TermId { number };
        let is_right = match known {
            None => !dict.has(id),
            Some(drawn) => {
                let wanted = term(alloc, *drawn)?;
                dict.has(id) && dict.is_number_of(id, &wanted) && dict.find(&wanted) == Some(id)
            }
        };
        if !is_right {
            return Ok(Some(number));
        }
        number = number.saturating_add(1);
    }
    Ok(None)
}

/// Takes the terms of numbers without a mark, and gives their room back. The first number that is wrong then.
fn swept(
    alloc: Global,
    dict: &mut Dict,
    draws: &mut Draws,
    numbers: &mut Numbers,
) -> Result<Option<u32>, Refusal> {
    let marks = marked(alloc, draws, numbers)?;
    dict.sweep(&marks, 0, marks.len());
    drop(marks);
    dict.compact();
    wrong_number(alloc, dict, numbers)
}

/// The first of 24 rounds after which something is wrong: in each, 500 of 4,000 terms are given numbers, and
/// then a third of all numbers lose theirs.
fn wrong_round(
    alloc: Global,
    dict: &mut Dict,
    numbers: &mut Numbers,
) -> Result<Option<u32>, Refusal> {
    let mut draws = Draws::new(5);
    for round in 0..24 {
        for _ in 0..500 {
            let drawn = draws.next() % 4_000;
            if !is_numbered(alloc, dict, numbers, drawn)? {
                return Ok(Some(round));
            }
        }
        if swept(alloc, dict, &mut draws, numbers)?.is_some() {
            return Ok(Some(round));
        }
    }
    // Were no number given again, they would be more than 9,000, and their texts more than 70,000 bytes.
    let are_few = numbers.len() < 1_500 && dict.text_bytes() < 40_000;
    Ok(if are_few { None } else { Some(24) })
}

#[test]
fn numbers_that_lost_their_terms_are_given_again(rt: HostRuntime) -> Result<(), Fail> {
    let mut dict = Dict::new(rt.alloc(), 1, u32::MAX)?;
    let mut numbers: Numbers = Vec::new(rt.alloc());
    let wrong = wrong_round(rt.alloc(), &mut dict, &mut numbers);
    drop(numbers);
    drop(dict);
    none_wrong(wrong)
}

/// What is wrong of a dictionary of ten numbers that are given, lost and given again.
fn wrong_end(
    alloc: Global,
    dict: &mut Dict,
    numbers: &mut Numbers,
) -> Result<Option<u32>, Refusal> {
    for drawn in 0..10u64 {
        is_numbered(alloc, dict, numbers, drawn)?;
    }
    dict.sweep(&[false; 10], 0, 10);
    for known in numbers.iter_mut() {
        *known = None;
    }
    for drawn in 10..20u64 {
        if !is_numbered(alloc, dict, numbers, drawn)? {
            return Ok(Some(0));
        }
    }
    wrong_number(alloc, dict, numbers)
}

#[test]
fn a_full_dictionary_gives_lost_numbers(rt: HostRuntime) -> Result<(), Fail> {
    let mut dict = Dict::new(rt.alloc(), 1, 9)?;
    let mut numbers: Numbers = Vec::new(rt.alloc());
    let wrong = wrong_end(rt.alloc(), &mut dict, &mut numbers);
    drop(numbers);
    drop(dict);
    none_wrong(wrong)
}
