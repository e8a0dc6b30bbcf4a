//! What the texts of tokens mean.
ghost use Rattle.std.specs.Prelude.{◌≡◌, ◌==◌, Some, OnOk, OnErr, option_map, position};
ghost use Rattle.std.specs.Option.{option_copied};
ghost use Rattle.std.specs.String.{string_bytes};
ghost use Rattle.gs_model.specs.Characters.{colon as colon_of};
ghost use Rattle.gs_escape.specs.Tokens.{between as between_of, quoted as quoted_of, iri_of, string_of, local_of, split_at_colon, AppendsMeaning, ReportsMeaning};

use crate::forms::Form;
use crate::walks::append;
use gs_model::Refusal;

/// What stands between two delimiters.
#[tactic(auto, unfolding(crate::specs::Tokens::between))]
fn between<'a>(text: &'a [u8], front: &[u8], back: &[u8]) -> Option<&'a [u8]>
    ensures { option_copied result ≡ between_of front.now back.now text.now }
{
    match text.strip_prefix(front) {
        None => None,
        Some(rest) => rest.strip_suffix(back),
    }
}

/// A string literal without its quotes, and its form.
#[tactic(auto, unfolding(crate::specs::Tokens::quoted))]
fn quoted(text: &[u8]) -> Option<(Form, &[u8])>
    ensures { option_map (λ p. (p.0, p.1.now)) result ≡ quoted_of text.now }
{
    if let Some(inner) = between(text, b"\"\"\"", b"\"\"\"") {
        return Some((Form::StringLiteralLongQuote, inner));
    }
    if let Some(inner) = between(text, b"'''", b"'''") {
        return Some((Form::StringLiteralLongSingleQuote, inner));
    }
    if let Some(inner) = between(text, b"\"", b"\"") {
        return Some((Form::StringLiteralQuote, inner));
    }
    match between(text, b"'", b"'") {
        None => None,
        Some(inner) => Some((Form::StringLiteralSingleQuote, inner)),
    }
}

/// Appends the IRI, or the reference, that the text of an `IRIREF` token means, brackets and all.
/// `Syntax(0)` for any other text, and where an escape has a number that is no character's or a
/// character that no IRI has; `NoMemory` where the string could not grow. After a refusal the
/// string is as it was. Linear in the bytes of the text, with no allocation but the string's own
/// growth.
#[tactic(auto, unfolding(crate::specs::Tokens::iri_of))]
pub fn iri(text: &[u8], meaning: &mut String) -> Result<(), Refusal>
    ensures value { OnOk result (AppendsMeaning meaning.old meaning.new (iri_of text.now)) }
    ensures refused { ReportsMeaning (iri_of text.now) result }
    ensures kept { OnErr result (string_bytes meaning.new ≡ string_bytes meaning.old) }
{
    match between(text, b"<", b">") {
        None => Err(Refusal::Syntax(0)),
        Some(inner) => append(Form::IriRef, inner, meaning),
    }
}

/// Appends the lexical form that the text of a string literal means, quotes and all. `Syntax(0)`
/// for any other text, and where an escape has a number that is no character's; otherwise as
/// `iri`.
#[tactic(auto, unfolding(crate::specs::Tokens::string_of))]
pub fn string(text: &[u8], meaning: &mut String) -> Result<(), Refusal>
    ensures value { OnOk result (AppendsMeaning meaning.old meaning.new (string_of text.now)) }
    ensures refused { ReportsMeaning (string_of text.now) result }
    ensures kept { OnErr result (string_bytes meaning.new ≡ string_bytes meaning.old) }
{
    match quoted(text) {
        None => Err(Refusal::Syntax(0)),
        Some((form, inner)) => append(form, inner, meaning),
    }
}

/// Appends what the local part of a prefixed name means: a backslash goes from before the
/// character that it escapes, and a percent escape stays as it is. `Syntax(0)` where a backslash
/// stands before any other character, or where the bytes are no UTF-8; otherwise as `iri`. What
/// else a local part may not have is the lexer's to refuse.
pub fn local(text: &[u8], meaning: &mut String) -> Result<(), Refusal>
    ensures value { OnOk result (AppendsMeaning meaning.old meaning.new (local_of text.now)) }
    ensures refused { ReportsMeaning (local_of text.now) result }
    ensures kept { OnErr result (string_bytes meaning.new ≡ string_bytes meaning.old) }
{
    append(Form::Local, text, meaning)
}

/// Where the first colon stands.
fn colon(text: &[u8]) -> Option<usize>
    ensures { result ≡ position (λ c. c == colon_of) text.now }
{
    text.iter().position(|b| *b == b':')
}

/// The prefix and the local part of a prefixed name, without the first colon between them; `None`
/// where the text has no colon.
pub fn parts(text: &[u8]) -> Option<(&[u8], &[u8])>
    ensures { option_map (λ p. (p.0.now, p.1.now)) result ≡ split_at_colon text.now }
{
    match colon(text) {
        None => None,
        Some(i) => Some((&text[..i], &text[i + 1..])),
    }
}
