//! A text with escapes, appended as what it means.
ghost use Rattle.std.specs.Prelude.{◌≡◌, true, OnOk, OnErr, IfSome, option_map, encode_utf8};
ghost use Rattle.std.specs.Bool.{OnTrue};
ghost use Rattle.std.specs.String.{string_bytes};
ghost use Rattle.std.specs.Str.{IsUtf8};
ghost use Rattle.gs_iri.specs.Appending.{Appends, KeepsAll};
ghost use Rattle.gs_escape.specs.Meanings.{unescaped, meaning};
ghost use Rattle.gs_escape.specs.Runs.{front_escape};
ghost use Rattle.gs_escape.specs.Tokens.{AppendsMeaning, ReportsMeaning};

use crate::escapes::escape;
use crate::forms::Form;
use crate::runs::cut_run;
use gs_model::Refusal;

/// The character of the escape at the front, and the text after it.
#[tactic(auto, unfolding(crate::specs::Runs::front_escape))]
fn cut_escape(form: Form, text: &str) -> Option<(char, &str)>
    ensures value { option_map (λ e. (e.0, e.1.now)) result ≡ front_escape form text.now }
    ensures text { IfSome result (λ e. IsUtf8 e.1.now) }
{
    match text.as_bytes().split_first() {
        Some((b'\\', later)) => match escape(form, later) {
            None => None,
            Some((c, size)) => Some((c, &text[size + 1..])),
        },
        _ => None,
    }
}

/// Appends a text, where there was room so far. Whether there was.
fn put_text(text: &str, room: bool, unescaped: &mut String) -> bool
    ensures value { OnTrue result ((room ≡ true) × Appends unescaped.old unescaped.new text.now) }
    ensures front { KeepsAll unescaped.old unescaped.new }
{
    room && unescaped.push_str(text).is_ok()
}

/// Appends a character, where there was room so far. Whether there was.
fn put_character(c: char, room: bool, unescaped: &mut String) -> bool
    ensures value { OnTrue result ((room ≡ true) × Appends unescaped.old unescaped.new (encode_utf8 c)) }
    ensures front { KeepsAll unescaped.old unescaped.new }
{
    room && unescaped.push(c).is_ok()
}

/// Appends what a text means, up to its fault or the want of memory. A fault comes before the
/// want of memory.
fn append_front(form: Form, text: &str, out: &mut String) -> Result<(), Refusal>
    ensures value { OnOk result (AppendsMeaning out.old out.new (unescaped form 0 text.now)) }
    ensures refused { ReportsMeaning (unescaped form 0 text.now) result }
    ensures front { KeepsAll out.old out.new }
{
    let mut rest = text;
    let mut room = true;
    'parts: loop {
        let (plain, back) = cut_run(form, rest);
        room = put_text(plain, room, out);
        if back.is_empty() {
            return if room { Ok(()) } else { Err(Refusal::NoMemory) };
        }
        match cut_escape(form, back) {
            None => return Err(Refusal::Syntax(0)),
            Some((c, more)) => {
                room = put_character(c, room, out);
                rest = more;
            }
        }
    }
}

/// Appends what a text of a form means. After a refusal the string is as it was.
pub fn append(form: Form, text: &[u8], out: &mut String) -> Result<(), Refusal>
    ensures value { OnOk result (AppendsMeaning out.old out.new (meaning form text.now)) }
    ensures refused { ReportsMeaning (meaning form text.now) result }
    ensures kept { OnErr result (string_bytes out.new ≡ string_bytes out.old) }
{
    let Ok(text) = str::from_utf8(text) else {
        return Err(Refusal::Syntax(0));
    };
    let length = out.len();
    match append_front(form, text, out) {
        Ok(()) => Ok(()),
        Err(refusal) => {
            out.truncate(length);
            Err(refusal)
        }
    }
}
