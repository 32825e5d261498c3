//! The reader's part.

ghost use Rattle.std.specs.Prelude.{◌≡◌};
ghost use Rattle.pipe_state.specs.Sides.{reader_has};

use crate::chain::Chain;
use crate::sides::ReaderSide;
use ghost_halves::PrivateHalf;

/// The chain of the segments that the reader has, which nobody else reaches, and what says so to what the ends share.
#[derive(Drop)]
pub struct Reading {
    pub chain: Chain,
    pub half: PrivateHalf<ReaderSide>,
    ghost told: { half.value ≡ reader_has chain },
}
