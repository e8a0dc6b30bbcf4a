//! The order of keys by the texts of their terms.
ghost use Rattle.std.specs.Prelude.{◌≡◌};
ghost use Rattle.gs_keys.specs.Texts.{text_at, number_cmp};

use gs_dict::{Dict, TermId};
use gs_pool::Key;
use gs_tree::KeyOrder;
use std::cmp::Ordering;

/// Keys in the order of their triples' lines: by the texts of their terms in a dictionary. A number
/// without a term has no text, and stands before all that have one.
#[derive(Clone, Copy)]
pub struct ByText<'a> {
    dict: &'a Dict,
}

/// The text of a number, which is empty where it has no term.
fn text_of(dict: &Dict, number: u32) -> &[u8]
    ensures { result.now ≡ text_at dict.now.terms number }
{
    let id = TermId { number };
    if dict.has(id) { dict.text(id) } else { &[] }
}

/// How the texts of two numbers compare. Those of one number are not read.
fn compare_numbers(dict: &Dict, a: u32, b: u32) -> Ordering
    ensures { result ≡ number_cmp dict.now.terms a b }
{
    if a == b {
        return Ordering::Equal;
    }
    text_of(dict, a).cmp(&text_of(dict, b))
}

impl<'a> ByText<'a> {
    ghost use Rattle.gs_keys.specs.Texts.{dict_of};

    /// The order by the texts of a dictionary.
    pub fn new(dict: &'a Dict) -> ByText<'a>
        ensures { dict_of result ≡ dict.now }
    {
        ByText { dict }
    }
}

impl<'a> KeyOrder for ByText<'a> {
    ghost use Rattle.gs_keys.specs.Texts.{key_cmp, key_total};

    ghost compare = { λ order. key_cmp order.dict.now.terms };

    ghost total = { λ order. key_total order.dict.now.terms };

    fn compare(&self, a: Key, b: Key) -> Ordering {
        match compare_numbers(self.dict, a.subject, b.subject) {
            Ordering::Equal => {}
            other => return other,
        }
        match compare_numbers(self.dict, a.predicate, b.predicate) {
            Ordering::Equal => compare_numbers(self.dict, a.object, b.object),
            other => other,
        }
    }
}
