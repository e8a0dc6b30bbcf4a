//! How much the texts of a request may take.
ghost use Rattle.std.specs.Prelude.{◌≡◌, ◌+◌, ◌≤◌, ◌<◌, IfSome, IfNone};
ghost use Rattle.gs_token_terms.specs.Budgets.{fresh_budget, budget_read_to, most_made, CountsBytes, MakesBytes, traded};

use std::alloc::AllocError;

/// The bytes that texts may have where nothing was read yet: 16 MiB.
const FIRST_BYTES: u64 = 16_777_216;

/// And for each byte that was read.
const BYTES_FOR_ONE: u64 = 64;

/// How many bytes more texts may have that were made, whether they are kept or not: 32 GiB. Each takes time.
const BYTES_MADE: u64 = 34_359_738_368;

/// How many bytes the texts have that a request was read into, and how many they may have. A prefix, or a
/// subject with many objects, makes long texts of few bytes. Each copy counts among those that are used,
/// until it is traded for what a list keeps of it, and among those that were made for ever.
#[derive(Clone, Copy)]
pub struct Budget {
    used: u64,
    made: u64,
    most: u64,
}

/// The sum, where it is within the limit. One that no number holds is over every limit.
#[inline]
fn sum_within(a: u64, b: u64, most: u64) -> Option<u64>
    ensures some { IfSome result (λ s. (s ≡ a + b) × (s ≤ most)) }
    ensures none { IfNone result (most < a + b) }
{
    let sum = a.checked_add(b)?;
    if sum <= most { Some(sum) } else { None }
}

impl Budget {
    /// Nothing was read.
    pub fn new() -> Budget
        ensures { result ≡ fresh_budget }
    {
        Budget {
            used: 0,
            made: 0,
            most: FIRST_BYTES,
        }
    }

    /// The text was read up to there, a number of bytes.
    #[inline]
    pub fn read_up_to(&mut self, end: u64)
        ensures { self.new ≡ budget_read_to self.old end }
    {
        self.most = FIRST_BYTES.saturating_add(end.saturating_mul(BYTES_FOR_ONE));
    }

    /// How many bytes were made once so many more are, unless these are too many.
    #[inline]
    fn made_with(&self, bytes: usize) -> Option<u64>
        ensures some { IfSome result (λ s. (s ≡ self.now.made + bytes) × (s ≤ most_made self.now)) }
        ensures none { IfNone result (most_made self.now < self.now.made + bytes) }
    {
        sum_within(
            self.made,
            bytes as u64,
            self.most.saturating_add(BYTES_MADE),
        )
    }

    /// So many bytes more were made, of which none is kept. Where too many were made, they are refused as for
    /// want of memory, and not counted.
    #[inline]
    pub fn make(&mut self, bytes: usize) -> Result<(), AllocError>
        ensures { MakesBytes result self.old self.new bytes }
    {
        match self.made_with(bytes) {
            Some(made) => {
                self.made = made;
                Ok(())
            }
            None => Err(AllocError),
        }
    }

    /// So many bytes more of texts. Where they are too many, or too many were made, they are refused as for
    /// want of memory, and not counted.
    #[inline]
    pub fn count(&mut self, bytes: usize) -> Result<(), AllocError>
        ensures { CountsBytes result self.old self.new bytes }
    {
        match (
            sum_within(self.used, bytes as u64, self.most),
            self.made_with(bytes),
        ) {
            (Some(used), Some(made)) => {
                self.used = used;
                self.made = made;
                Ok(())
            }
            _ => Err(AllocError),
        }
    }

    /// Texts that were counted with so many bytes have joined a list, which takes so many for them. What it
    /// takes less counts no longer.
    #[inline]
    pub fn trade(&mut self, counted: usize, kept: usize)
        ensures { self.new ≡ traded self.old counted kept }
    {
        let gone = counted.saturating_sub(kept);
        self.used = self.used.saturating_sub(gone as u64);
    }
}
