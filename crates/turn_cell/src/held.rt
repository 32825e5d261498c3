//! The state, while a seat has the turn.

ghost use Rattle.std.specs.Prelude.{◌≡◌};
ghost use Rattle.std.specs.Borrow.{sem};
ghost use Rattle.turn_cell.specs.Lending.{LendsState};

use std::marker::Model;

/// The state of a cell, in the hands of the seat whose turn it is.
///
/// `put` gives it back. One that is dropped leaves the turn held for ever, and each later take
/// answers `Busy`.
#[derive(Drop)]
pub struct Held<S> {
    pub(crate) state: S,
    pub(crate) entries: u64,
}

impl<S> Model for Held<S> {
    ghost use Rattle.turn_cell.specs.Seat.{HeldState};

    ghost Value = { HeldState S };

    ghost view = { λ held. record { state = held.state; entries = held.entries } };
}

impl<S> Held<S> {
    /// The state.
    pub fn state(&self) -> &S
        ensures { result.now ≡ self.now.state }
    {
        &self.state
    }

    /// The state, to be changed. What is written is the held state afterwards, and `entries` stays.
    pub fn state_mut(&mut self) -> &mut S
        ensures* lends { sem 𝓛 (LendsState S.row self.entry result) }
        ensures state { result.now ≡ self.old.state }
    {
        &mut self.state
    }

    /// How many entries the history had when the turn was taken.
    pub fn entries(&self) -> u64
        ensures { result ≡ self.now.entries }
    {
        self.entries
    }
}
