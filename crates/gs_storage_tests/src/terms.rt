//! Dictionaries beside a plain list of what was drawn.
use crate::draws::Draws;
use crate::outcome::none_wrong;
use gs_dict::{Dict, TermId};
use gs_model::Refusal;
use gs_term::TermText;
use std::alloc::Global;
use std::test::Fail;

/// The IRI of what was drawn.
pub fn term(alloc: Global, drawn: u64) -> Result<TermText, Refusal> {
    let text = format!(in alloc; "e:{drawn}")?;
    TermText::iri(alloc, text.as_str())
}

/// The number that the list has for what was drawn.
fn number_in(list: &[u64], drawn: u64) -> Option<TermId> {
    let mut number = 0u32;
    for known in list {
        if *known == drawn {
            return Some(TermId { number });
        }
        number = number.saturating_add(1);
    }
    None
}

/// Whether a term has the number that the list has for what was drawn, before and after it is given one.
fn is_numbered(
    dict: &mut Dict,
    list: &mut Vec<u64>,
    drawn: u64,
    term: &TermText,
    guess: TermId,
) -> Result<bool, Refusal> {
    let known = number_in(list, drawn);
    let found = dict.find(term);
    if known == None {
        list.push(drawn)?;
    }
    let id = Some(dict.intern_near(guess, term)?);
    Ok(found == known && id == number_in(list, drawn) && dict.find(term) == id)
}

/// Whether a number is that of what was drawn, and has its text.
fn is_number_of(alloc: Global, dict: &Dict, number: u32, drawn: u64) -> Result<bool, Refusal> {
    let wanted = term(alloc, drawn)?;
    let id = TermId { number };
    Ok(dict.is_number_of(id, &wanted) && dict.has(id) && dict.text(id) == wanted.as_bytes())
}

/// The first number of the dictionary that has another text than the list, or that of all where they
/// are not as many, or no more than buckets. It is counted from 10,000 on.
fn wrong_number(alloc: Global, dict: &Dict, list: &[u64]) -> Result<Option<u32>, Refusal> {
    let mut number = 0u32;
    for drawn in list {
        if !is_number_of(alloc, dict, number, *drawn)? {
            return Ok(Some(number.saturating_add(10_000)));
        }
        number = number.saturating_add(1);
    }
    let is_all = dict.len() == list.len() && dict.len() > 1_024;
    Ok(if is_all {
        None
    } else {
        Some(number.saturating_add(10_000))
    })
}

/// The first of 10,000 draws whose term has not the number that the list has, or the number that is wrong
/// after them.
fn wrong_draw(alloc: Global, dict: &mut Dict, list: &mut Vec<u64>) -> Result<Option<u32>, Refusal> {
    let mut draws = Draws::new(1);
    for step in 0..10_000 {
        let drawn = draws.next() % 2_500;
        let drawn_term = term(alloc, drawn)?;
        let guess = TermId {
            number: (draws.next() & 0xFF) as u32,
        };
        let is_right = is_numbered(dict, list, drawn, &drawn_term, guess);
        drop(drawn_term);
        if !is_right? {
            return Ok(Some(step));
        }
    }
    wrong_number(alloc, dict, list)
}

/// Goes past the first 1,024 buckets, which are doubled on the way.
#[test]
fn terms_have_the_numbers_of_a_list(rt: HostRuntime) -> Result<(), Fail> {
    let mut dict = Dict::new(rt.alloc(), 1, u32::MAX)?;
    let mut list: Vec<u64> = Vec::new(rt.alloc());
    let wrong = wrong_draw(rt.alloc(), &mut dict, &mut list);
    drop(list);
    drop(dict);
    none_wrong(wrong)
}

/// Whether a term gets this number twice, and its text can be read back.
fn is_given(dict: &mut Dict, term: &TermText, wanted: u32) -> Result<bool, Refusal> {
    let id = dict.intern(term)?;
    let again = dict.intern(term)?;
    Ok(id.number == wanted && again == id && dict.has(id) && dict.text(id) == term.as_bytes())
}

/// Terms that differ in a byte or two, in the order of their numbers: an IRI after `<`, a literal after `"`, and
/// else a blank node, by its request and its label.
const NEAR: &str = "<e:long/a
\"e:long/a
<e:long/b
\"e:long/b
<e:long/\u{E9}
\"e:long/\u{E9}
<e:long/\u{E8}
\"e:long/\u{E8}
<e:long/
\"e:long/
1 20
12 0";

/// The number that a word is.
fn number(word: &str) -> u64 {
    word.parse::<u64>().unwrap_or_default()
}

/// The term of a row.
fn term_of(alloc: Global, row: &str) -> Result<TermText, Refusal> {
    if let Some(text) = row.strip_prefix('<') {
        return TermText::iri(alloc, text);
    }
    if let Some(text) = row.strip_prefix('"') {
        return TermText::literal(alloc, text, None, None);
    }
    let (request, label) = row.split_once(' ').unwrap_or_default();
    TermText::blank(alloc, number(request), number(label))
}

/// The first of these terms that does not get its number, or `rows` where they are not twelve.
fn wrong_row(alloc: Global, dict: &mut Dict) -> Result<Option<&'static str>, Refusal> {
    let mut wanted = 0u32;
    for row in NEAR.lines() {
        let row_term = term_of(alloc, row)?;
        let is_right = is_given(dict, &row_term, wanted);
        drop(row_term);
        if !is_right? {
            return Ok(Some(row));
        }
        wanted = wanted.saturating_add(1);
    }
    Ok(if wanted == 12 { None } else { Some("rows") })
}

#[test]
fn terms_that_are_nearly_alike_have_two_numbers(rt: HostRuntime) -> Result<(), Fail> {
    let mut dict = Dict::new(rt.alloc(), 3, u32::MAX)?;
    let wrong = wrong_row(rt.alloc(), &mut dict);
    drop(dict);
    none_wrong(wrong)
}

/// The number that what was drawn is given.
fn given(alloc: Global, dict: &mut Dict, drawn: u64) -> Result<u32, Refusal> {
    let drawn_term = term(alloc, drawn)?;
    let id = dict.intern(&drawn_term);
    drop(drawn_term);
    Ok(id?.number)
}

/// Whether a term is refused for memory, and has no number then.
fn is_refused(alloc: Global, dict: &mut Dict, drawn: u64) -> Result<bool, Refusal> {
    let next = term(alloc, drawn)?;
    let is_right = dict.intern(&next) == Err(Refusal::NoMemory) && dict.find(&next) == None;
    drop(next);
    Ok(is_right)
}

/// What is wrong of a dictionary of three numbers, which refuses a fourth term, and knows the third.
fn wrong_end(alloc: Global, dict: &mut Dict) -> Result<Option<&'static str>, Refusal> {
    for drawn in 0..3u64 {
        given(alloc, dict, drawn)?;
    }
    if !is_refused(alloc, dict, 3)? {
        return Ok(Some("the fourth term"));
    }
    let is_right = dict.len() == 3 && given(alloc, dict, 2)? == 2;
    Ok(if is_right {
        None
    } else {
        Some("the count, or the third term")
    })
}

#[test]
fn past_the_last_number_memory_is_wanted(rt: HostRuntime) -> Result<(), Fail> {
    let mut dict = Dict::new(rt.alloc(), 1, 2)?;
    let wrong = wrong_end(rt.alloc(), &mut dict);
    drop(dict);
    none_wrong(wrong)
}
