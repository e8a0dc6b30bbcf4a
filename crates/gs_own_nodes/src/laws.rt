//! Laws of blank nodes, proved: each body is empty, and the contract is the law.
ghost use Rattle.gs_own_nodes.specs.Own.{DocumentsNameTheirOwn, UpdatesNameTheirOwn};

/// Each blank node that a document says is one of the request under whose number it is read. So
/// documents that are read under two numbers share none.
pub fn documents_name_their_own()
    ensures { DocumentsNameTheirOwn }
{}

/// Each blank node that an update inserts, removes or matches is one of the request under whose number
/// it is read.
pub fn updates_name_their_own()
    ensures { UpdatesNameTheirOwn }
{}
