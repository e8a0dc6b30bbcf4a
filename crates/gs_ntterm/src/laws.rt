//! A law of the definitions, proved: the body is empty, and the contract is the law.
ghost use Rattle.std.specs.Prelude.{◌≡◌, ℕ, List, true};
ghost use Rattle.gs_model.specs.Escapes.{hex_number, is_character};
ghost use Rattle.gs_ntterm.specs.Classes.{number_by_digits};

/// The number of an escape, digit by digit, is a character's exactly where the number that all its
/// digits write is one, and is then that number.
pub fn digits_make_the_number()
    ensures alike { (ds : List ℕ) → is_character (number_by_digits ds) ≡ is_character (hex_number ds) }
    ensures number { (ds : List ℕ) → is_character (hex_number ds) ≡ true
        → number_by_digits ds ≡ hex_number ds }
{}
