//! A cell, and the answers of its calls that aren't Ok.

use crate::rule::{OneHistory, Opening};
use crate::stands::Stands;
use crate::view::SeatView;
use atomic_table::Table;
use std::alloc::{AllocError, Global};
use std::marker::Model;

/// A state that several threads change in turn, each with a seat of its own.
///
/// Its one word is twice the number of entries of the history, and one more while a seat has the
/// turn.
#[derive(Drop)]
pub struct TurnCell<S: Stands> {
    pub(crate) table: Table<
        Option<S>,
        SeatView<S::Entry, S::Name>,
        Opening<S>,
        OneHistory<S>,
        Global,
    >,
}

impl<S: Stands> Model for TurnCell<S> {
    ghost use Rattle.std.specs.Prelude.{◌≡◌};
    ghost use Rattle.turn_cell.specs.Seat.{CellState};

    ghost Value = { CellState S.Name };

    ghost view = { λ cell. record {
      table = cell.table.shared.table_id;
      name = S.name cell.table.shared.key.state.value;
      seats = cell.table.shared.key.seats;
    } };

    ghost invariant = { λ cell.
        (cell.table.shared.table_id.words ≡ 1) × (cell.table.shared.table_id.slots ≡ 1) };
}

/// The turn was held by another seat.
#[derive(Clone, Copy, Debug, PartialEq, Eq)]
pub struct Busy {
    /// The word that the one exchange of the call found: odd, twice the number of entries and one
    /// more.
    pub word: u64,
}

/// There was no memory for a cell. The state comes back as it was.
#[derive(Drop)]
pub struct CellRefused<S> {
    pub state: S,
    pub error: AllocError,
}
