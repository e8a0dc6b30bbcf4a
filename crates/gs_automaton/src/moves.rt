//! The moves of the automaton: which state comes after a character, by the tokens that a state is in.
ghost use Rattle.std.specs.Prelude.{◌≡◌, if◌then◌else◌, Some, None};
ghost use Rattle.gs_automaton.specs.States as spec;

use crate::classes::{
    is_alpha, is_alphanumeric, is_digit, is_exponent, is_hex, is_label_start, is_local,
    is_local_escape, is_local_start, is_name_char, is_prefix_start, is_sign, is_variable,
};
use crate::quotes::{after_backslash, hexadecimal, inside, quoted};
use crate::states::{Mark, State, Text};
use crate::terminals::Terminal;

/// One way on, where the character takes it.
fn only_if(takes: bool, state: State) -> Option<State>
    ensures { result ≡ (if takes then Some state else None) }
{
    if takes { Some(state) } else { None }
}

fn punctuation(c: char) -> Option<State>
    ensures { result ≡ spec.punctuation c }
{
    match c {
        ';' => Some(State::Ended(Terminal::Semicolon)),
        ',' => Some(State::Ended(Terminal::Comma)),
        '[' => Some(State::Ended(Terminal::OpenBracket)),
        ']' => Some(State::Ended(Terminal::CloseBracket)),
        '(' => Some(State::Ended(Terminal::OpenParenthesis)),
        ')' => Some(State::Ended(Terminal::CloseParenthesis)),
        _ => None,
    }
}

fn at_start(c: char) -> Option<State>
    ensures { result ≡ spec.at_start c }
{
    match c {
        '<' => Some(State::Inside(Text::Iri)),
        '"' => Some(State::First(Mark::Quote)),
        '\'' => Some(State::First(Mark::Apostrophe)),
        ':' => Some(State::Namespace),
        '_' => Some(State::Underscore),
        '@' => Some(State::AtSign),
        '.' => Some(State::Dot),
        '^' => Some(State::Caret),
        _ => {
            if is_sign(c) {
                Some(State::Sign)
            } else if is_digit(c) {
                Some(State::Integer)
            } else if is_prefix_start(c) {
                Some(State::Word)
            } else {
                punctuation(c)
            }
        }
    }
}

fn at_update_start(c: char) -> Option<State>
    ensures { result ≡ spec.at_update_start c }
{
    match c {
        '{' => Some(State::Ended(Terminal::OpenBrace)),
        '}' => Some(State::Ended(Terminal::CloseBrace)),
        '?' | '$' => Some(State::VariableMark),
        _ => at_start(c),
    }
}

/// In a blank node's label.
fn in_label(state: State, c: char) -> Option<State>
    requires { spec.IsInLabel state }
    ensures { result ≡ spec.state_after state c }
{
    match state {
        State::Underscore if c == ':' => Some(State::LabelColon),
        State::LabelColon if is_label_start(c) => Some(State::Label),
        State::Label | State::LabelDots if is_name_char(c) => Some(State::Label),
        State::Label | State::LabelDots if c == '.' => Some(State::LabelDots),
        _ => None,
    }
}

/// In a language tag.
fn in_tag(state: State, c: char) -> Option<State>
    requires { spec.IsInTag state }
    ensures { result ≡ spec.state_after state c }
{
    match state {
        State::AtSign | State::Tag if is_alpha(c) => Some(State::Tag),
        State::TagDash | State::TagPart if is_alphanumeric(c) => Some(State::TagPart),
        State::Tag | State::TagPart if c == '-' => Some(State::TagDash),
        _ => None,
    }
}

/// In a number.
#[inline(always)]
fn in_number(state: State, c: char) -> Option<State>
    requires { spec.IsInNumber state }
    ensures { result ≡ spec.state_after state c }
{
    match state {
        State::Sign => if is_digit(c) {
            Some(State::Integer)
        } else {
            only_if(c == '.', State::SignDot)
        },
        State::SignDot | State::Dot => only_if(is_digit(c), State::Fraction),
        State::Integer => if is_digit(c) {
            Some(State::Integer)
        } else if c == '.' {
            Some(State::IntegerDot)
        } else {
            only_if(is_exponent(c), State::Exponent)
        },
        State::IntegerDot | State::IntegerFraction => if is_digit(c) {
            Some(State::IntegerFraction)
        } else {
            only_if(is_exponent(c), State::Exponent)
        },
        State::Fraction => if is_digit(c) {
            Some(State::Fraction)
        } else {
            only_if(is_exponent(c), State::Exponent)
        },
        State::Exponent => if is_digit(c) {
            Some(State::ExponentDigits)
        } else {
            only_if(is_sign(c), State::ExponentSign)
        },
        State::ExponentSign | State::ExponentDigits => only_if(is_digit(c), State::ExponentDigits),
        _ => None,
    }
}

/// In a word, or in a prefix.
#[inline(always)]
fn in_word(state: State, c: char) -> Option<State>
    requires { spec.IsInWord state }
    ensures { result ≡ spec.state_after state c }
{
    match state {
        State::Word => if is_name_char(c) {
            Some(State::Word)
        } else if c == '.' {
            Some(State::WordDots)
        } else {
            only_if(c == ':', State::Namespace)
        },
        State::WordDots => if is_name_char(c) {
            Some(State::WordMore)
        } else {
            only_if(c == '.', State::WordDots)
        },
        State::WordMore => if is_name_char(c) {
            Some(State::WordMore)
        } else if c == '.' {
            Some(State::WordDots)
        } else {
            only_if(c == ':', State::Namespace)
        },
        _ => None,
    }
}

/// After the first character of a local name.
#[inline(always)]
fn local(c: char) -> Option<State>
    ensures { result ≡ spec.local c }
{
    if is_local(c) {
        return Some(State::Local);
    }
    match c {
        '.' => Some(State::LocalDots),
        '%' => Some(State::Percent),
        '\\' => Some(State::LocalEscape),
        _ => None,
    }
}

/// In a local name, after the colon of its prefix.
#[inline(always)]
fn in_local(state: State, c: char) -> Option<State>
    requires { spec.IsInLocal state }
    ensures { result ≡ spec.state_after state c }
{
    match state {
        State::Namespace if is_local_start(c) => Some(State::Local),
        State::Namespace if c == '%' => Some(State::FirstPercent),
        State::Namespace if c == '\\' => Some(State::FirstEscape),
        State::FirstPercent if is_hex(c) => Some(State::FirstPercentOne),
        State::Percent if is_hex(c) => Some(State::PercentOne),
        State::FirstPercentOne | State::PercentOne if is_hex(c) => Some(State::Local),
        State::FirstEscape | State::LocalEscape if is_local_escape(c) => Some(State::Local),
        State::Local | State::LocalDots => local(c),
        _ => None,
    }
}

/// The state after a character; none where no token goes on so.
#[inline(always)]
pub fn state_after(state: State, c: char) -> Option<State>
    ensures { result ≡ spec.state_after state c }
{
    match state {
        State::Start => at_start(c),
        State::UpdateStart => at_update_start(c),
        State::Inside(text) => inside(text, c),
        State::Escape(text) => after_backslash(text, c),
        State::Hex(text, left) => hexadecimal(text, left, c),
        State::Ended(_) => None,
        State::First(_)
        | State::Empty(_)
        | State::Opened(_)
        | State::OneMark(_)
        | State::TwoMarks(_) => quoted(state, c),
        State::Underscore | State::LabelColon | State::Label | State::LabelDots => {
            in_label(state, c)
        }
        State::AtSign | State::Tag | State::TagDash | State::TagPart => in_tag(state, c),
        State::Word | State::WordDots | State::WordMore => in_word(state, c),
        State::Namespace
        | State::FirstPercent
        | State::FirstPercentOne
        | State::FirstEscape
        | State::Local
        | State::LocalDots
        | State::Percent
        | State::PercentOne
        | State::LocalEscape => in_local(state, c),
        State::VariableMark => only_if(is_label_start(c), State::Variable),
        State::Variable => only_if(is_variable(c), State::Variable),
        State::Caret => only_if(c == '^', State::Ended(Terminal::Carets)),
        _ => in_number(state, c),
    }
}
