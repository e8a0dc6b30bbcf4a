//! Laws of the characters of a text, proved: the body is empty, and the contract is the law.
ghost use Rattle.std.specs.Prelude.{◌≡◌, ℕ, List};
ghost use Rattle.gs_machine.specs.Utf8.{IsLongestFront, Spells, symbols};

/// The machine gives what the definition says: the characters of a text up to its first fault,
/// which is marked; and the definition says one thing only.
pub fn text_has_one_spelling()
    ensures spelt { (x : List ℕ) → Spells x (symbols x) }
    ensures one { (x cs ds : List ℕ) → Spells x cs → Spells x ds → cs ≡ ds }
{}

/// Of the prefixes of a text that end between two characters one is the longest.
pub fn text_has_one_longest_front()
    ensures some { (x : List ℕ) → (front : List ℕ) × IsLongestFront x front }
    ensures one { (x a b : List ℕ) → IsLongestFront x a → IsLongestFront x b → a ≡ b }
{}
