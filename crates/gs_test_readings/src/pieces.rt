//! A text fed in pieces of any size.
use gs_body::BodyReader;
use gs_model::Refusal;
use gs_triple_lists::TripleList;

/// The lengths of pieces in bytes; the last is whole.
pub const SIZES: [usize; 4] = [1, 2, 3, usize::MAX];

/// Feeds a text in pieces of so many bytes, at least 1, and ends it.
pub fn feed<R: BodyReader>(
    reader: &mut R,
    text: &[u8],
    size: usize,
    triples: &mut TripleList,
) -> Result<(), Refusal> {
    for piece in text.chunks(size.max(1)) {
        reader.feed(piece, triples)?;
    }
    reader.finish(triples)
}
