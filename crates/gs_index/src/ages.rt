//! The order of numbers: by the graphs of their entries, and of one graph the youngest first.
ghost use Rattle.std.specs.Prelude.{◌≡◌};
ghost use Rattle.gs_index.specs.Ages.{target_text, is_target, age_among};
ghost use Rattle.gs_index.specs.Kept.{ages_of};

use crate::entries::Entry;
use gs_pool::Key;
use gs_term::Target;
use gs_tree::KeyOrder;
use std::cmp::Ordering;

/// Keys in the order of the entries that their subjects number. A number past the last entry stands
/// for what is sought: this target, at this birth.
#[derive(Clone, Copy)]
pub struct ByAge<'a> {
    entries: &'a [Entry],
    target: &'a Target,
    birth: u64,
}

/// The text by which a target stands in the order.
fn text_of(target: &Target) -> &[u8]
    ensures { result.now ≡ target_text target.now }
{
    match target {
        Target::Default => &[],
        Target::Named(name) => name.in_brackets(),
    }
}

/// Whether two targets are the same.
pub fn is_same(a: &Target, b: &Target) -> bool
    ensures { result ≡ is_target a.now b.now }
{
    text_of(a) == text_of(b)
}

impl<'a> ByAge<'a> {
    /// The order of the entries' numbers, with what is sought.
    pub fn new(entries: &'a [Entry], target: &'a Target, birth: u64) -> ByAge<'a>
        ensures { ages_of result ≡ age_among entries.now target.now birth }
    {
        ByAge {
            entries,
            target,
            birth,
        }
    }

    /// The target of a number's entry, or the one sought.
    fn target_of(&self, number: u32) -> &Target
        ensures { result.now ≡ (ages_of self.now number).target }
    {
        match self.entries.get(number as usize) {
            Some(entry) => &entry.target,
            None => self.target,
        }
    }

    /// The birth of a number's entry, or the one sought.
    fn birth_of(&self, number: u32) -> u64
        ensures { result ≡ (ages_of self.now number).birth }
    {
        match self.entries.get(number as usize) {
            Some(entry) => entry.birth,
            None => self.birth,
        }
    }
}

impl<'a> KeyOrder for ByAge<'a> {
    ghost use Rattle.gs_index.specs.Ages.{aged_key_cmp, aged_key_total};
    ghost use Rattle.gs_index.specs.Kept.{ages_of};

    ghost compare = { λ order. aged_key_cmp (ages_of order) };

    ghost total = { λ order. aged_key_total (ages_of order) };

    fn compare(&self, a: Key, b: Key) -> Ordering {
        let (first, second) = (a.subject, b.subject);
        match text_of(self.target_of(first)).cmp(&text_of(self.target_of(second))) {
            Ordering::Equal => {}
            other => return other,
        }
        match self.birth_of(second).cmp(&self.birth_of(first)) {
            Ordering::Equal => second.cmp(&first),
            other => other,
        }
    }
}
