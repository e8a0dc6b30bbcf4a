//! Each test is its ranges. That of `pn_chars_base` answers for ASCII without going through them.
ghost use Rattle.std.specs.Prelude.{◌≡◌};
ghost use Rattle.gs_model.specs.Characters.{in_ranges, pn_chars_base, pn_chars_u, pn_chars, is_iri_char as may_stand_in_iri};

/// PN_CHARS_BASE (Turtle, section 6.5).
pub fn is_pn_chars_base(c: char) -> bool
    ensures { result ≡ in_ranges pn_chars_base c }
{
    if c.is_ascii() {
        return c.is_ascii_alphabetic();
    }
    matches!(c,
        '\u{C0}'..='\u{D6}'
        | '\u{D8}'..='\u{F6}'
        | '\u{F8}'..='\u{2FF}'
        | '\u{370}'..='\u{37D}'
        | '\u{37F}'..='\u{1FFF}'
        | '\u{200C}'..='\u{200D}'
        | '\u{2070}'..='\u{218F}'
        | '\u{2C00}'..='\u{2FEF}'
        | '\u{3001}'..='\u{D7FF}'
        | '\u{F900}'..='\u{FDCF}'
        | '\u{FDF0}'..='\u{FFFD}'
        | '\u{10000}'..='\u{EFFFF}')
}

/// PN_CHARS_U (Turtle, section 6.5). N-Triples admits `:` besides, which `gs_ntterm` tests.
pub fn is_pn_chars_u(c: char) -> bool
    ensures { result ≡ in_ranges pn_chars_u c }
{
    c == '_' || is_pn_chars_base(c)
}

/// PN_CHARS (Turtle, section 6.5).
pub fn is_pn_chars(c: char) -> bool
    ensures { result ≡ in_ranges pn_chars c }
{
    match c {
        '-' | '0'..='9' | '\u{B7}' | '\u{300}'..='\u{36F}' | '\u{203F}'..='\u{2040}' => true,
        _ => is_pn_chars_u(c),
    }
}

/// A character that may stand in an IRI as it is (Turtle, section 6.5, IRIREF).
pub fn is_iri_char(c: char) -> bool
    ensures { result ≡ may_stand_in_iri c }
{
    match c {
        '\u{0}'..=' ' | '"' | '<' | '>' | '\\' | '^' | '`' | '{'..='}' => false,
        _ => true,
    }
}
