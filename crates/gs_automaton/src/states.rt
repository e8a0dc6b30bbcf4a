//! The states of the automaton that finds the tokens.
ghost use Rattle.std.specs.Prelude.{◌≡◌};
ghost use Rattle.gs_automaton.specs.States as spec;

use crate::terminals::Terminal;

/// The quote that a string stands in.
#[derive(Clone, Copy, Debug, PartialEq, Eq)]
pub enum Mark {
    Quote,
    Apostrophe,
}

/// A token that may have escapes.
#[derive(Clone, Copy, Debug, PartialEq, Eq)]
pub enum Text {
    Iri,
    Short(Mark),
    Long(Mark),
}

/// How many hexadecimal digits of a UCHAR are to come.
#[derive(Clone, Copy, Debug, PartialEq, Eq)]
pub enum Left {
    One,
    Two,
    Three,
    Four,
    Five,
    Six,
    Seven,
    Eight,
}

/// Where in a token the automaton stands.
#[derive(Clone, Copy, Debug, PartialEq, Eq)]
pub enum State {
    Start,
    UpdateStart,
    Inside(Text),
    /// After a backslash.
    Escape(Text),
    Hex(Text, Left),
    /// After a token that no character goes on with.
    Ended(Terminal),
    /// After a quote that opens a string, after two, and after three.
    First(Mark),
    Empty(Mark),
    Opened(Mark),
    /// After one and two quotes in a long string.
    OneMark(Mark),
    TwoMarks(Mark),
    Underscore,
    LabelColon,
    Label,
    LabelDots,
    AtSign,
    Tag,
    TagDash,
    TagPart,
    Sign,
    SignDot,
    Dot,
    Integer,
    IntegerDot,
    IntegerFraction,
    Fraction,
    Exponent,
    ExponentSign,
    ExponentDigits,
    /// In a word, after dots in it, and after characters after them: a prefix, if `:` comes.
    Word,
    WordDots,
    WordMore,
    Namespace,
    FirstPercent,
    FirstPercentOne,
    FirstEscape,
    Local,
    LocalDots,
    Percent,
    PercentOne,
    LocalEscape,
    VariableMark,
    Variable,
    Caret,
}

/// The string between two such quotes.
pub fn short_of(mark: Mark) -> Terminal
    ensures { result ≡ spec.short_of mark }
{
    match mark {
        Mark::Quote => Terminal::StringLiteralQuote,
        Mark::Apostrophe => Terminal::StringLiteralSingleQuote,
    }
}

/// What the text so far is.
#[inline(always)]
pub fn accepts(state: State) -> Option<Terminal>
    ensures { result ≡ spec.accepts state }
{
    match state {
        State::Ended(kind) => Some(kind),
        State::Empty(mark) => Some(short_of(mark)),
        State::Opened(_) => Some(Terminal::Opening),
        State::Label => Some(Terminal::BlankNodeLabel),
        State::Tag => Some(Terminal::LangTag),
        State::TagPart => Some(Terminal::LangTag),
        State::Dot => Some(Terminal::Dot),
        State::Integer => Some(Terminal::Integer),
        State::IntegerFraction => Some(Terminal::Decimal),
        State::Fraction => Some(Terminal::Decimal),
        State::ExponentDigits => Some(Terminal::Double),
        State::Word => Some(Terminal::Word),
        State::Namespace => Some(Terminal::PnameNs),
        State::Local => Some(Terminal::PnameLn),
        State::Variable => Some(Terminal::Var),
        _ => None,
    }
}

/// Where a token begins: one of Turtle, or of updates too.
pub fn start_of(updates: bool) -> State
    ensures { result ≡ spec.start_of updates }
{
    if updates {
        State::UpdateStart
    } else {
        State::Start
    }
}
