//! Numbers that look random, the same ones in each run.

/// A linear congruence.
#[derive(Drop)]
pub(crate) struct Dice {
    state: u64,
}

impl Dice {
    pub(crate) fn new(state: u64) -> Dice {
        Dice { state }
    }

    /// A number below `sides`, and 0 where that is 0.
    pub(crate) fn below(&mut self, sides: u64) -> u64 {
        self.state = self
            .state
            .wrapping_mul(6364136223846793005)
            .wrapping_add(1442695040888963407);
        (self.state >> 33) % sides.max(1)
    }
}
