//! Laws of the definitions, proved: each body is empty, and the contract is the law.
ghost use Rattle.gs_stream.specs.Laws.{HeadsStay, LongStays, LeadDoesNotCount, ReadsOn};

/// A head that is whole, or too long, stays so however the stream goes on; what is dropped before a
/// head does not count.
pub fn settled_heads_stay()
    ensures heads { HeadsStay }
    ensures long { LongStays }
    ensures lead { LeadDoesNotCount }
{}

/// The requests of a stream are those of its first head and of what stands after it.
pub fn requests_go_on()
    ensures { ReadsOn }
{}
