//! A reference resolved against a base.
ghost use Rattle.std.specs.Prelude.{◌≡◌, true, OnOk, OnErr};
ghost use Rattle.std.specs.Option.{option_copied};
ghost use Rattle.std.specs.String.{string_bytes};
ghost use Rattle.gs_model.specs.Iris.{is_absolute as is_absolute_text};
ghost use Rattle.gs_iri.specs.Resolving.{scheme_text, front_text, directory_of, through_last, resolved as resolved_text, ReportsReference};
ghost use Rattle.gs_iri.specs.Appending.{Appends, AppendsHead, AppendsPart, AppendsRemoved, AppendsTail, KeepsAll, text_with};

use crate::absolute::{are_iri_bytes, is_absolute};
use crate::dots::{append_dots, last_slash};
use crate::references::{Parts, after, cut_parts};
use gs_model::Refusal;
use std::alloc::AllocError;

/// Appends the scheme and its ':', if it is defined.
#[tactic(auto, unfolding(crate::specs::Resolving::scheme_text))]
fn append_scheme(scheme: Option<&str>, resolved: &mut String) -> Result<(), AllocError>
    ensures ok { OnOk result (Appends resolved.old resolved.new (scheme_text (option_copied scheme.entry))) }
    ensures front { KeepsAll resolved.old resolved.new }
{
    match scheme {
        None => Ok(()),
        Some(text) => {
            resolved.push_str(text)?;
            resolved.push_str(":")
        }
    }
}

/// Appends a part after its mark, if it is defined.
#[tactic(auto, unfolding(crate::specs::Resolving::marked))]
fn append_marked(mark: &str, part: Option<&str>, resolved: &mut String) -> Result<(), AllocError>
    ensures ok { OnOk result (AppendsPart resolved.old resolved.new mark.now part.entry) }
    ensures front { KeepsAll resolved.old resolved.new }
{
    match part {
        None => Ok(()),
        Some(text) => {
            resolved.push_str(mark)?;
            resolved.push_str(text)
        }
    }
}

/// Appends the scheme and the authority, those that are defined.
fn append_head(
    scheme: Option<&str>,
    authority: Option<&str>,
    resolved: &mut String,
) -> Result<(), AllocError>
    ensures ok { OnOk result (AppendsHead resolved.old resolved.new scheme.entry authority.entry) }
    ensures front { KeepsAll resolved.old resolved.new }
{
    append_scheme(scheme, resolved)?;
    append_marked("//", authority, resolved)
}

/// Appends the query and the fragment, those that are defined.
fn append_tail(
    query: Option<&str>,
    fragment: Option<&str>,
    resolved: &mut String,
) -> Result<(), AllocError>
    ensures ok { OnOk result (AppendsTail resolved.old resolved.new query.entry fragment.entry) }
    ensures front { KeepsAll resolved.old resolved.new }
{
    append_marked("?", query, resolved)?;
    append_marked("#", fragment, resolved)
}

/// What stands before the last '/'.
fn before_last_slash(path: &str) -> Option<&str>
    ensures { front_text (option_copied result) ≡ through_last path.now }
{
    match last_slash(path.as_bytes()) {
        Some(i) => Some(&path[..i]),
        None => None,
    }
}

/// What the segments of a relative path stand after, with a '/' between (5.2.3).
#[tactic(auto, unfolding(crate::specs::Resolving::directory_of, crate::specs::Resolving::front_text))]
fn front_of<'a>(authority: Option<&str>, path: &'a str) -> Option<&'a str>
    ensures { front_text (option_copied result) ≡ directory_of (option_copied authority.entry) path.now }
{
    match authority {
        Some(_) if path.is_empty() => Some(""),
        _ => before_last_slash(path),
    }
}

/// Appends parts, their path after `front` and without its dot segments.
fn append_removed(
    target: &Parts,
    front: Option<&str>,
    resolved: &mut String,
) -> Result<(), AllocError>
    ensures ok { OnOk result (AppendsRemoved resolved.old resolved.new target.now front.entry) }
    ensures front { KeepsAll resolved.old resolved.new }
{
    append_head(target.scheme, target.authority, resolved)?;
    append_dots(front, target.path, resolved)?;
    append_tail(target.query, target.fragment, resolved)
}

/// Appends parts as they are (5.3).
fn append_joined(target: &Parts, resolved: &mut String) -> Result<(), AllocError>
    ensures ok { OnOk result (Appends resolved.old resolved.new (text_with target.now target.now.path.now)) }
    ensures front { KeepsAll resolved.old resolved.new }
{
    append_head(target.scheme, target.authority, resolved)?;
    resolved.push_str(target.path)?;
    append_tail(target.query, target.fragment, resolved)
}

/// Appends a reference resolved against a base (5.2.2).
fn append_resolved(base: &str, reference: &str, resolved: &mut String) -> Result<(), AllocError>
    ensures ok { OnOk result (Appends resolved.old resolved.new (resolved_text base.now reference.now)) }
    ensures front { KeepsAll resolved.old resolved.new }
{
    let r = cut_parts(reference);
    if r.scheme.is_some() {
        return append_removed(&r, None, resolved);
    }
    let b = cut_parts(base);
    if r.authority.is_some() {
        let target = Parts {
            scheme: b.scheme,
            authority: r.authority,
            path: r.path,
            query: r.query,
            fragment: r.fragment,
        };
        return append_removed(&target, None, resolved);
    }
    if r.path.is_empty() {
        let target = Parts {
            scheme: b.scheme,
            authority: b.authority,
            path: b.path,
            query: r.query.or(b.query),
            fragment: r.fragment,
        };
        return append_joined(&target, resolved);
    }
    let target = Parts {
        scheme: b.scheme,
        authority: b.authority,
        path: r.path,
        query: r.query,
        fragment: r.fragment,
    };
    if after(r.path, b'/').is_some() {
        return append_removed(&target, None, resolved);
    }
    append_removed(&target, front_of(b.authority, b.path), resolved)
}

/// Appends the IRI that a reference means under an absolute base, as `resolve` does. Linear in the
/// bytes of the reference, and in those of the base where the reference has no scheme.
pub fn resolve_under(base: &str, reference: &str, resolved: &mut String) -> Result<(), Refusal>
    requires { is_absolute_text base.now ≡ true }
    ensures value { OnOk result (Appends resolved.old resolved.new (resolved_text base.now reference.now)) }
    ensures refused { ReportsReference base.now reference.now result }
    ensures kept { OnErr result (string_bytes resolved.new ≡ string_bytes resolved.old) }
{
    if !are_iri_bytes(reference.as_bytes()) {
        return Err(Refusal::Syntax(0));
    }
    let before = resolved.len();
    match append_resolved(base, reference, resolved) {
        Ok(()) => Ok(()),
        Err(_) => {
            resolved.truncate(before);
            Err(Refusal::NoMemory)
        }
    }
}

/// Appends the IRI that a reference means under a base (RFC 3986, section 5.2, strict) to
/// `resolved`, after what stands there. `Syntax(0)` where the base is not absolute or the
/// reference has a character that no IRI has; `NoMemory` where the string could not grow. After
/// a refusal the string is as it was. Linear in the bytes of both, with no allocation but the
/// string's own growth.
pub fn resolve(base: &str, reference: &str, resolved: &mut String) -> Result<(), Refusal>
    ensures value { OnOk result (Appends resolved.old resolved.new (resolved_text base.now reference.now)) }
    ensures refused { ReportsReference base.now reference.now result }
    ensures kept { OnErr result (string_bytes resolved.new ≡ string_bytes resolved.old) }
{
    if !is_absolute(base) {
        return Err(Refusal::Syntax(0));
    }
    resolve_under(base, reference, resolved)
}
