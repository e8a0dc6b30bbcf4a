//! Laws of the definitions, proved: each body is empty, and the contract is the law.
ghost use Rattle.gs_transfer.specs.Laws.{ChunkedIsTheGrammar, SizedIsTheFront, StaysWhole, StaysFaulty};

/// A body in chunks is whole exactly where the grammar has it at the front of the text, its data within the
/// limit: that of RFC 9112, section 7.1, with sizes of at most 16 digits, and with extensions and trailers
/// of any bytes that end no line.
pub fn chunked_is_the_grammar()
    ensures { ChunkedIsTheGrammar }
{}

/// A body of so many bytes is those at the front of the text (section 6.2).
pub fn sized_is_the_front()
    ensures { SizedIsTheFront }
{}

/// A body that is whole, or has a fault, stays so however the text goes on.
pub fn settled_stays()
    ensures whole { StaysWhole }
    ensures faulty { StaysFaulty }
{}
