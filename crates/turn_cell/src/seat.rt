//! A seat, by which a thread takes its turns.

use crate::stands::Stands;
use crate::view::SeatView;
use atomic_table::Seat;
use std::marker::Model;

/// The right to take turns at one cell. It has no bytes: what it knows of the history stands in
/// contracts alone.
///
/// A seat may go to another thread. Once one is dropped, its cell can't be closed any more.
#[derive(Drop)]
pub struct TurnSeat<S: Stands> {
    pub(crate) seat: Seat<Option<S>, SeatView<S::Entry, S::Name>>,
}

impl<S: Stands> Model for TurnSeat<S> {
    ghost use Rattle.std.specs.Prelude.{◌≡◌};
    ghost use Rattle.turn_cell.specs.Seat.{SeatState};
    ghost use Rattle.turn_cell.specs.Rule.{shown, carried};

    ghost Value = { SeatState S.Entry S.Name };

    ghost view = { λ s. shown s.seat.table_id s.seat.me.0 };

    ghost invariant = { λ s.
        (s.seat.me.1 ≡ carried s.seat.me.0.holds) × (s.seat.me.0.next ≡ s.seat.me.0.seats) };
}
