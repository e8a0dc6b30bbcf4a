//! Families of triples: large graphs that a line of text stands for.
//!
//! A family is how many triples it has and three words. A word may end in `@` and a rule, which makes a
//! number of the place of a triple, from 0 on: `@*2+5` is five more than twice the place, `@/12` the
//! place divided by 12, and `@%12` what that leaves.
use gs_model::Refusal;
use std::alloc::{AllocError, Global};

/// The number that a text is.
fn number(text: &str) -> u64 {
    text.parse::<u64>().unwrap_or_default()
}

/// The number that a rule makes of a place, before what is added to it.
fn made(form: &str, place: u64) -> u64 {
    if let Some(by) = form.strip_prefix('*') {
        return place.saturating_mul(number(by));
    }
    if let Some(by) = form.strip_prefix('/') {
        return place.checked_div(number(by)).unwrap_or_default();
    }
    if let Some(by) = form.strip_prefix('%') {
        return place.checked_rem(number(by)).unwrap_or_default();
    }
    place
}

/// The number that a rule makes of a place.
fn ruled(rule: &str, place: u64) -> u64 {
    let (form, more) = rule.split_once('+').unwrap_or((rule, "0"));
    made(form, place).saturating_add(number(more))
}

/// Appends a word of the triple at a place.
fn push_word(alloc: Global, word: &str, place: u64, to: &mut String) -> Result<(), AllocError> {
    let Some((name, rule)) = word.split_once('@') else {
        return to.push_str(word);
    };
    let number = ruled(rule, place);
    let text = format!(in alloc; "{name}{number}")?;
    to.push_str(text.as_str())
}

/// Appends the triple at a place, and a comma.
fn push_triple(alloc: Global, words: &str, place: u64, to: &mut String) -> Result<(), AllocError> {
    for word in words.split(' ') {
        push_word(alloc, word, place, to)?;
        to.push(' ')?;
    }
    to.push(',')
}

/// Appends the triples of a family.
fn push_family(alloc: Global, family: &str, to: &mut String) -> Result<(), AllocError> {
    let Some((many, words)) = family.trim().split_once(' ') else {
        return Ok(());
    };
    for place in 0..number(many) {
        push_triple(alloc, words, place, to)?;
    }
    Ok(())
}

/// The triples of families, with a comma between two, in the notation of triples.
pub fn triples_of(alloc: Global, families: &str) -> Result<String, Refusal> {
    let mut text = String::new(alloc);
    for family in families.split(',') {
        push_family(alloc, family, &mut text)?;
    }
    Ok(text)
}
