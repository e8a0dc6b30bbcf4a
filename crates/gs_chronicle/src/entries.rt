//! Entries of a page.
ghost use Rattle.std.specs.Prelude.{◌≡◌};
ghost use Rattle.gs_chronicle.specs.Requests.{call_of};
ghost use Rattle.gs_chronicle.specs.Rows.{row_of, entry_request};

use crate::requests::Request;
use gs_small_triples::FormBlocks;

/// A call that a store decided, under its number in the page.
#[derive(Debug, Drop)]
pub struct Entry {
    number: u64,
    seat: u16,
    request: Request,
    status: u16,
}

impl Entry {
    /// The entry of this number for this call.
    pub(crate) fn new(number: u64, seat: u16, request: Request, status: u16) -> Entry
        ensures { row_of result ≡ record { number = number; call = call_of seat request status } }
    {
        Entry {
            number,
            seat,
            request,
            status,
        }
    }

    /// As how many triples it counts.
    pub(crate) fn triples(&self) -> usize {
        self.request.triples()
    }

    /// Leaves the blocks of an entry that is of no more use.
    pub(crate) fn leave_to(self, blocks: &mut FormBlocks) {
        self.request.leave_to(blocks);
    }

    /// How many entries stand before it in its page.
    pub fn number(&self) -> u64
        ensures { result ≡ (row_of self.now).number }
    {
        self.number
    }

    /// The seat that made the call.
    pub fn seat(&self) -> u16
        ensures { result ≡ (row_of self.now).call.seat }
    {
        self.seat
    }

    /// What the store was asked.
    pub fn request(&self) -> &Request
        ensures { result.now ≡ entry_request self.now }
    {
        &self.request
    }

    /// The HTTP status that the store answered.
    pub fn status(&self) -> u16
        ensures { result ≡ (row_of self.now).call.status }
    {
        self.status
    }
}
