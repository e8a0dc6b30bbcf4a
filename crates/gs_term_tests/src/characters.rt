//! The characters at the ends of each range, and those beside them (Turtle, section 6.5).
use gs_chars::{is_iri_char, is_pn_chars, is_pn_chars_base, is_pn_chars_u};

/// The ends of the ranges of name starts.
const STARTS: [char; 28] = [
    'A',
    'Z',
    'a',
    'z',
    '\u{C0}',
    '\u{D6}',
    '\u{D8}',
    '\u{F6}',
    '\u{F8}',
    '\u{2FF}',
    '\u{370}',
    '\u{37D}',
    '\u{37F}',
    '\u{1FFF}',
    '\u{200C}',
    '\u{200D}',
    '\u{2070}',
    '\u{218F}',
    '\u{2C00}',
    '\u{2FEF}',
    '\u{3001}',
    '\u{D7FF}',
    '\u{F900}',
    '\u{FDCF}',
    '\u{FDF0}',
    '\u{FFFD}',
    '\u{10000}',
    '\u{EFFFF}',
];

/// Characters beside these ranges.
const BESIDE: [char; 33] = [
    '@',
    '[',
    '`',
    '{',
    '/',
    ':',
    ';',
    ',',
    '.',
    '\u{B6}',
    '\u{B8}',
    '\u{BF}',
    '\u{D7}',
    '\u{F7}',
    '\u{37E}',
    '\u{2000}',
    '\u{200B}',
    '\u{200E}',
    '\u{203E}',
    '\u{2041}',
    '\u{206F}',
    '\u{2190}',
    '\u{2BFF}',
    '\u{2FF0}',
    '\u{3000}',
    '\u{E000}',
    '\u{F8FF}',
    '\u{FDD0}',
    '\u{FDEF}',
    '\u{FFFE}',
    '\u{FFFF}',
    '\u{F0000}',
    '\u{10FFFF}',
];

/// The first of these characters that is otherwise a start of names without the underscore, a start with
/// it, and what a name goes on with.
fn first_other(characters: &[char], wanted: [bool; 3]) -> Option<char> {
    for c in characters {
        let found = [is_pn_chars_base(*c), is_pn_chars_u(*c), is_pn_chars(*c)];
        if found != wanted {
            return Some(*c);
        }
    }
    None
}

#[test]
fn ranges_of_name_starts_end_where_the_grammar_says(rt: HostRuntime) {
    assert_eq!(rt; first_other(&STARTS, [true, true, true]), None);
    assert_eq!(rt; first_other(&BESIDE, [false, false, false]), None);
}

/// Characters that a name goes on with, and does not start with.
const FURTHER: [char; 8] = [
    '-', '0', '9', '\u{B7}', '\u{300}', '\u{36F}', '\u{203F}', '\u{2040}',
];

#[test]
fn underscore_digits_and_marks_go_on_with_a_name(rt: HostRuntime) {
    assert_eq!(rt; first_other(&['_'], [false, true, true]), None);
    assert_eq!(rt; first_other(&FURTHER, [false, false, true]), None);
}

/// Characters that no IRI has.
const OUTSIDE: [char; 12] = [
    '\u{0}', '\n', ' ', '"', '<', '>', '\\', '^', '`', '{', '|', '}',
];

/// Characters that an IRI may have.
const INSIDE: [char; 14] = [
    '!',
    '#',
    ';',
    '=',
    '?',
    '[',
    ']',
    '_',
    'a',
    'z',
    '~',
    '\u{7F}',
    '\u{A0}',
    '\u{10FFFF}',
];

/// The first of these characters of which it is otherwise that an IRI may have it.
fn first_other_of_iris(characters: &[char], wanted: bool) -> Option<char> {
    for c in characters {
        if is_iri_char(*c) != wanted {
            return Some(*c);
        }
    }
    None
}

#[test]
fn iris_exclude_what_the_grammar_names(rt: HostRuntime) {
    assert_eq!(rt; first_other_of_iris(&OUTSIDE, false), None);
    assert_eq!(rt; first_other_of_iris(&INSIDE, true), None);
}
