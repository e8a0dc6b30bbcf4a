//! One line for one triple (N-Triples, section 2), also of a named graph (N-Quads, section 2).
ghost use Rattle.std.specs.Prelude.{◌≡◌, ◌++◌, OnOk, OnErr, IfErr, Ok, Err, take, length};
ghost use Rattle.gs_model.specs.Triples.{line_of};
ghost use Rattle.gs_term.specs.Names.{quad_line_of};
ghost use Rattle.gs_ntwrite.specs.Fronts.{spaced_terms};

use gs_model::Refusal;
use gs_term::{GraphName, Triple};
use std::alloc::AllocError;

/// Appends the canonical line of a triple: its three terms, each with a space after it, a dot
/// and a line feed. Linear in the bytes of the line.
pub fn line(triple: &Triple, bytes: &mut Vec<u8>) -> Result<(), Refusal>
    ensures ok { OnOk result (bytes.new.items ≡ bytes.old.items ++ line_of triple.now) }
    ensures refused { IfErr result (λ e. e ≡ Refusal.NoMemory) }
    ensures kept { OnErr result (bytes.new.items ≡ bytes.old.items) }
{
    let before = bytes.as_slice().len();
    let pushed = push_line(triple, bytes);
    ended(pushed, before, bytes)
}

/// Appends the canonical line of a triple in a named graph: the same, with the name and a space before
/// the dot.
pub fn quad_line(triple: &Triple, name: &GraphName, bytes: &mut Vec<u8>) -> Result<(), Refusal>
    ensures ok { OnOk result (bytes.new.items ≡ bytes.old.items ++ quad_line_of name.now triple.now) }
    ensures refused { IfErr result (λ e. e ≡ Refusal.NoMemory) }
    ensures kept { OnErr result (bytes.new.items ≡ bytes.old.items) }
{
    let before = bytes.as_slice().len();
    let pushed = push_quad(triple, name, bytes);
    ended(pushed, before, bytes)
}

/// Ends an append that began with so many bytes: where memory was refused, they are cut back to these.
fn ended(pushed: Result<(), AllocError>, before: usize, bytes: &mut Vec<u8>) -> Result<(), Refusal>
    ensures ok { OnOk pushed (result ≡ Ok tt) }
    ensures whole { OnOk pushed (bytes.new.items ≡ bytes.old.items) }
    ensures err { OnErr pushed (result ≡ Err Refusal.NoMemory) }
    ensures cut { OnErr pushed (bytes.new.items ≡ take before bytes.old.items) }
{
    match pushed {
        Ok(()) => Ok(()),
        Err(_) => {
            bytes.truncate(before);
            Err(Refusal::NoMemory)
        }
    }
}

/// Appends the line; what stood before stays also where memory is refused.
fn push_line(triple: &Triple, bytes: &mut Vec<u8>) -> Result<(), AllocError>
    ensures ok { OnOk result (bytes.new.items ≡ bytes.old.items ++ line_of triple.now) }
    ensures front { take (length bytes.old.items) bytes.new.items ≡ bytes.old.items }
{
    push_terms(triple, bytes)?;
    bytes.extend_from_slice(b".\n")?;
    Ok(())
}

/// The same, with the name of a graph.
fn push_quad(triple: &Triple, name: &GraphName, bytes: &mut Vec<u8>) -> Result<(), AllocError>
    ensures ok { OnOk result (bytes.new.items ≡ bytes.old.items ++ quad_line_of name.now triple.now) }
    ensures front { take (length bytes.old.items) bytes.new.items ≡ bytes.old.items }
{
    push_terms(triple, bytes)?;
    bytes.extend_from_slice(name.in_brackets())?;
    bytes.extend_from_slice(b" .\n")?;
    Ok(())
}

/// Appends the three terms, each with a space after it.
fn push_terms(triple: &Triple, bytes: &mut Vec<u8>) -> Result<(), AllocError>
    ensures ok { OnOk result (bytes.new.items ≡ bytes.old.items ++ spaced_terms triple.now) }
    ensures front { take (length bytes.old.items) bytes.new.items ≡ bytes.old.items }
{
    bytes.extend_from_slice(triple.subject().as_bytes())?;
    bytes.push(b' ')?;
    bytes.extend_from_slice(triple.predicate().as_bytes())?;
    bytes.push(b' ')?;
    bytes.extend_from_slice(triple.object().as_bytes())?;
    bytes.push(b' ')?;
    Ok(())
}
