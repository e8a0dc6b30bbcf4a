//! Numbers that look drawn: always the same ones for the same seed.

/// A linear congruential generator.
#[derive(Drop)]
pub struct Draws {
    state: u64,
}

impl Draws {
    /// The numbers of this seed.
    pub fn new(seed: u64) -> Draws {
        let mut draws = Draws { state: seed };
        for _ in 0..4 {
            draws.advance();
        }
        draws
    }

    fn advance(&mut self) {
        self.state = self
            .state
            .wrapping_mul(6_364_136_223_846_793_005)
            .wrapping_add(1_442_695_040_888_963_407);
    }

    /// A number below this one, 0 where that is 0.
    pub fn below(&mut self, count: usize) -> usize {
        self.advance();
        let number = usize::try_from(self.state / 8_589_934_592).unwrap_or_default();
        number.checked_rem(count).unwrap_or_default()
    }

    /// At one chance of so many.
    pub fn is_one_in(&mut self, count: usize) -> bool {
        self.below(count) == 0
    }

    /// One of these texts.
    pub fn pick(&mut self, texts: &[&'static str]) -> &'static str {
        let number = self.below(texts.len());
        texts.get(number).copied().unwrap_or_default()
    }
}
