//! A whole body, in any list of pieces.
ghost use Rattle.std.specs.Prelude.{◌≡◌, ◌≢◌, [], ℕ, List, false, OnOk, IfOk, IfErr};
ghost use Rattle.gs_body.specs.Bodies.{Reports, Whole, all_stated, whole_text};

use crate::bodies::BodyReader;
use gs_model::Refusal;
use gs_triple_lists::TripleList;
use std::alloc::Global;

/// What a text says that comes in these pieces: its triples where it has no fault, and else its
/// first fault, or `NoMemory`.
pub fn read_pieces<R: BodyReader + Drop>(
    alloc: Global,
    mut reader: R,
    pieces: &[Vec<u8>],
) -> Result<TripleList, Refusal>
    requires fresh { R.Leads reader [] [] }
    requires unread { R.is_closed reader ≡ false }
    ensures given { IfOk result (λ v. v.items ≡ all_stated (R.meaning_of reader (whole_text pieces.now)).0) }
    ensures whole { OnOk result ((R.meaning_of reader (whole_text pieces.now)).1 ≡ Whole) }
    ensures fault { IfErr result (λ e. Reports e (R.meaning_of reader (whole_text pieces.now))) }
    ensures reported { IfErr result (λ e. e ≢ Refusal.Closed) }
{
    let mut triples = TripleList::new(alloc);
    for piece in pieces {
        reader.feed(piece.as_slice(), &mut triples)?;
    }
    reader.finish(&mut triples)?;
    Ok(triples)
}
