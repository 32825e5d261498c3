//! A place in the concatenated spans.

use std::marker::Model;

/// A place in the concatenated spans, as .NET's `SequencePosition`. It is the same place in every sequence of these spans.
#[derive(Clone, Copy, Debug, PartialEq, Eq)]
pub struct Position {
    place: u64,
}

impl Model for Position {
    ghost use Rattle.std.specs.Prelude.{ℕ};

    ghost Value = { ℕ };

    ghost view = { λ position. position.place };

    ghost inverse = { λ place. record { place = place } };
}

impl Position {
    ghost use Rattle.std.specs.Prelude.{◌≡◌};

    #[inline]
    pub(crate) fn new(place: u64) -> Position
        ensures { result ≡ place }
    {
        Position { place }
    }

    #[inline]
    pub(crate) fn place(self) -> u64
        ensures { result ≡ self }
    {
        self.place
    }
}
