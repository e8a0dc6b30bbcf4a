//! Terms whose text is written once.
ghost use Rattle.std.specs.Prelude.{◌≡◌, ◌∷◌, ◌++◌, true, IfOk};
ghost use Rattle.std.specs.List.{list_all};
ghost use Rattle.gs_model.specs.Characters.{quote, is_iri_char};
ghost use Rattle.gs_model.specs.Iris.{is_absolute};
ghost use Rattle.gs_model.specs.Terms.{Iri, Literal, Typed, text_of};
ghost use Rattle.gs_model.specs.Texts.{kind_of};
ghost use Rattle.gs_model.specs.Triples.{is_iri};
ghost use Rattle.gs_term.specs.Making.{made};
ghost use Rattle.gs_token_terms.specs.Plain.{is_plain, iri_name, IsAfter};

use gs_model::{Fault, MAX_TERM_BYTES};
use gs_term::TermText;
use std::alloc::{AllocError, Global};

/// The datatype that a text leaves out, in its marks.
const STRING_NAME: &[u8] = b"<http://www.w3.org/2001/XMLSchema#string>";

/// The text of the IRI of two parts, with room for so many bytes at once.
fn iri_bytes(alloc: Global, front: &str, back: &str, size: usize) -> Result<Vec<u8>, AllocError>
    ensures { IfOk result (λ v. v.items ≡ text_of (Iri (front.now ++ back.now))) }
{
    let mut bytes = Vec::with_capacity(alloc, size)?;
    bytes.push(b'<')?;
    bytes.extend_from_slice(front.as_bytes())?;
    bytes.extend_from_slice(back.as_bytes())?;
    bytes.push(b'>')?;
    Ok(bytes)
}

/// The IRI of two parts, of which the first is an IRI.
pub fn joined_iri(
    alloc: Global,
    front: &str,
    back: &str,
) -> Result<Result<TermText, Fault>, AllocError>
    requires absolute { is_absolute front.now ≡ true }
    requires characters { list_all is_iri_char back.now ≡ true }
    ensures value { IfOk result (λ m. m ≡ made (Iri (front.now ++ back.now))) }
    ensures kind { IfOk result (λ m. IfOk m (λ t. is_iri t ≡ true)) }
{
    if front.len() > MAX_TERM_BYTES || back.len() > MAX_TERM_BYTES {
        return Ok(Err(Fault::TermTooLong));
    }
    let size = front.len() + back.len() + 2;
    if size > MAX_TERM_BYTES {
        return Ok(Err(Fault::TermTooLong));
    }
    let bytes = iri_bytes(alloc, front, back, size)?;
    Ok(Ok(TermText::from_canonical(bytes)))
}

/// A form in quotes, and what stands after it in two parts, with room for so many bytes at once.
fn literal_bytes(
    alloc: Global,
    form: &str,
    mark: &[u8],
    after: &[u8],
    size: usize,
) -> Result<Vec<u8>, AllocError>
    ensures { IfOk result (λ v. v.items ≡ quote ∷ form.now ++ quote ∷ (mark.now ++ after.now)) }
{
    let mut bytes = Vec::with_capacity(alloc, size)?;
    bytes.push(b'"')?;
    bytes.extend_from_slice(form.as_bytes())?;
    bytes.push(b'"')?;
    bytes.extend_from_slice(mark)?;
    bytes.extend_from_slice(after)?;
    Ok(bytes)
}

/// The literal of a form with nothing to escape, and of what stands after its closing quote, in two
/// parts.
pub fn plain_literal(
    alloc: Global,
    form: &str,
    mark: &[u8],
    after: &[u8],
) -> Result<Result<TermText, Fault>, AllocError>
    requires plain { list_all is_plain form.now ≡ true }
    requires after { IsAfter (mark.now ++ after.now) }
    ensures { IfOk result (λ m. m ≡ made (Literal form.now (kind_of (mark.now ++ after.now)))) }
{
    if form.len() > MAX_TERM_BYTES || mark.len() > MAX_TERM_BYTES || after.len() > MAX_TERM_BYTES {
        return Ok(Err(Fault::TermTooLong));
    }
    let size = form.len() + mark.len() + after.len() + 2;
    if size > MAX_TERM_BYTES {
        return Ok(Err(Fault::TermTooLong));
    }
    let bytes = literal_bytes(alloc, form, mark, after, size)?;
    Ok(Ok(TermText::from_canonical(bytes)))
}

/// The same, of a datatype that is known to be an IRI.
pub fn named_literal(
    alloc: Global,
    form: &str,
    datatype: &TermText,
) -> Result<Result<TermText, Fault>, AllocError>
    requires plain { list_all is_plain form.now ≡ true }
    requires kind { is_iri datatype.now ≡ true }
    ensures { IfOk result (λ m. m ≡ made (Literal form.now (Typed (iri_name datatype.now)))) }
{
    let name = datatype.as_bytes();
    if name == STRING_NAME {
        return plain_literal(alloc, form, b"", b"");
    }
    plain_literal(alloc, form, b"^^", name)
}
