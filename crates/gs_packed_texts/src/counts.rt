//! How many bytes of their own texts have, in their order. A text that is its memory's last or earlier one
//! has no count.
ghost use Rattle.std.specs.Prelude.{◌≡◌, ◌+◌, ◌≤◌, ◌++◌, length, vec_len, vec_capacity};
ghost use Rattle.gs_packed_texts.specs.Packing.{text_mark_of};
ghost use Rattle.gs_packed_texts.specs.Kept.{own_by, own_counts};

use crate::windows::EARLIER;

/// Adds a text's count, for which there is room, so it takes no memory.
pub fn push_count(mark: u8, own: usize, counts: &mut Vec<u16>)
    requires short { own ≤ 65_535 }
    requires room { vec_len counts.old + 1 ≤ vec_capacity counts.old }
    ensures items { counts.new.items ≡ counts.old.items ++ own_counts (text_mark_of mark) own }
    ensures len { vec_len counts.new ≤ vec_len counts.old + 1 }
    ensures capacity { vec_capacity counts.new ≡ vec_capacity counts.old }
{
    if mark < EARLIER {
        counts.push_reserved(own as u16);
    }
}

/// The first text's count, 0 where it has none, and the counts after it.
pub fn split_count(mark: u8, counts: &[u16]) -> (usize, &[u16])
    requires { own_by (text_mark_of mark) ≤ length counts.now }
    ensures counts { counts.now ≡ own_counts (text_mark_of mark) result.0 ++ result.1.now }
    ensures none { own_by (text_mark_of mark) ≡ 0 → result.0 ≡ 0 }
{
    match counts.split_first() {
        Some((count, rest)) if mark < EARLIER => (usize::from(*count), rest),
        _ => (0, counts),
    }
}
