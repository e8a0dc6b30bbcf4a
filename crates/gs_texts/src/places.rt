//! Where a text stands.
ghost use Rattle.std.specs.Prelude.{◌≡◌, ◌<◌, ◌^◌};
ghost use Rattle.gs_texts.specs.Places.{IsPlaceOf, block_of, offset_of, length_of};

/// What a block's number is counted in, within a place.
const BLOCK_UNIT: u64 = 1 << 34;

/// What an offset is counted in.
const OFFSET_UNIT: u64 = 1 << 16;

/// How many offsets there are.
const OFFSETS: u64 = 1 << 18;

/// Where a text stands: the number of a block, an offset in it, and a length, both in bytes. The number
/// has the upper 30 bits, the offset the next 18, the length the lower 16.
#[derive(Clone, Copy, Debug, Drop)]
pub struct Place {
    bits: u64,
}

impl Place {
    /// The place of so many bytes from an offset on, in the block of a number.
    #[tactic(auto, unfolding(crate::specs::Places::block_of, crate::specs::Places::offset_of, crate::specs::Places::length_of))]
    pub fn new(block: usize, offset: usize, count: usize) -> Place
        requires block { block < 2 ^ 30 }
        requires offset { offset < 2 ^ 18 }
        requires count { count < 2 ^ 16 }
        ensures { IsPlaceOf result block offset count }
    {
        Place {
            bits: block as u64 * BLOCK_UNIT + offset as u64 * OFFSET_UNIT + count as u64,
        }
    }

    /// The number of the block.
    #[tactic(auto, unfolding(crate::specs::Places::block_of))]
    pub fn block(self) -> usize
        ensures { result ≡ block_of self }
    {
        (self.bits / BLOCK_UNIT) as usize
    }

    /// Where the text begins in its block.
    #[tactic(auto, unfolding(crate::specs::Places::offset_of))]
    pub fn offset(self) -> usize
        ensures { result ≡ offset_of self }
    {
        (self.bits / OFFSET_UNIT % OFFSETS) as usize
    }

    /// How many bytes the text has.
    #[tactic(auto, unfolding(crate::specs::Places::length_of))]
    pub fn length(self) -> usize
        ensures value { result ≡ length_of self }
        ensures small { result < 2 ^ 16 }
    {
        (self.bits % OFFSET_UNIT) as usize
    }
}
