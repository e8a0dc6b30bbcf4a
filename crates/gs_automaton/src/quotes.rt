//! The moves of the automaton in IRIs and strings.
ghost use Rattle.std.specs.Prelude.{◌≡◌};
ghost use Rattle.gs_automaton.specs.States as spec;

use crate::classes::{is_echar, is_hex, is_line_end};
use crate::states::{Left, Mark, State, Text, short_of};
use crate::terminals::Terminal;
use gs_chars::is_iri_char;

fn character_of(mark: Mark) -> char
    ensures { result ≡ spec.character_of mark }
{
    match mark {
        Mark::Quote => '"',
        Mark::Apostrophe => '\'',
    }
}

fn long_of(mark: Mark) -> Terminal
    ensures { result ≡ spec.long_of mark }
{
    match mark {
        Mark::Quote => Terminal::StringLiteralLongQuote,
        Mark::Apostrophe => Terminal::StringLiteralLongSingleQuote,
    }
}

/// In an IRI or a string.
pub fn inside(text: Text, c: char) -> Option<State>
    ensures { result ≡ spec.inside text c }
{
    match text {
        Text::Iri => if c == '>' {
            Some(State::Ended(Terminal::IriRef))
        } else if c == '\\' {
            Some(State::Escape(text))
        } else if is_iri_char(c) {
            Some(State::Inside(text))
        } else {
            None
        },
        Text::Short(mark) => if c == character_of(mark) {
            Some(State::Ended(short_of(mark)))
        } else if c == '\\' {
            Some(State::Escape(text))
        } else if is_line_end(c) {
            None
        } else {
            Some(State::Inside(text))
        },
        Text::Long(mark) => if c == character_of(mark) {
            Some(State::OneMark(mark))
        } else if c == '\\' {
            Some(State::Escape(text))
        } else {
            Some(State::Inside(text))
        },
    }
}

/// Whether ECHAR may stand there.
fn has_echar(text: Text) -> bool
    ensures { result ≡ spec.has_echar text }
{
    match text {
        Text::Iri => false,
        Text::Short(_) => true,
        Text::Long(_) => true,
    }
}

/// After a backslash in one.
pub fn after_backslash(text: Text, c: char) -> Option<State>
    ensures { result ≡ spec.after_backslash text c }
{
    if c == 'u' {
        Some(State::Hex(text, Left::Four))
    } else if c == 'U' {
        Some(State::Hex(text, Left::Eight))
    } else if has_echar(text) {
        if is_echar(c) {
            Some(State::Inside(text))
        } else {
            None
        }
    } else {
        None
    }
}

/// After one hexadecimal digit more of a UCHAR.
fn after_hex(text: Text, left: Left) -> State
    ensures { result ≡ spec.after_hex text left }
{
    match left {
        Left::One => State::Inside(text),
        Left::Two => State::Hex(text, Left::One),
        Left::Three => State::Hex(text, Left::Two),
        Left::Four => State::Hex(text, Left::Three),
        Left::Five => State::Hex(text, Left::Four),
        Left::Six => State::Hex(text, Left::Five),
        Left::Seven => State::Hex(text, Left::Six),
        Left::Eight => State::Hex(text, Left::Seven),
    }
}

/// In the digits of a UCHAR.
pub fn hexadecimal(text: Text, left: Left, c: char) -> Option<State>
    ensures { result ≡ spec.state_after (State.Hex text left) c }
{
    if is_hex(c) {
        Some(after_hex(text, left))
    } else {
        None
    }
}

/// After quotes that open a string, or that may close a long one.
pub fn quoted(state: State, c: char) -> Option<State>
    requires { spec.IsQuoted state }
    ensures { result ≡ spec.state_after state c }
{
    match state {
        State::First(mark) if c == character_of(mark) => Some(State::Empty(mark)),
        State::First(mark) => inside(Text::Short(mark), c),
        State::Empty(mark) if c == character_of(mark) => Some(State::Opened(mark)),
        State::OneMark(mark) if c == character_of(mark) => Some(State::TwoMarks(mark)),
        State::TwoMarks(mark) if c == character_of(mark) => Some(State::Ended(long_of(mark))),
        State::Opened(mark) | State::OneMark(mark) | State::TwoMarks(mark) => {
            inside(Text::Long(mark), c)
        }
        _ => None,
    }
}
