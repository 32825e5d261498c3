//! A new cell and its seats.

ghost use Rattle.std.specs.Prelude.{◌≡◌, ◌+◌, ◌≤◌, [], length, IfOk, IfErr, IfSome, MatchOption};
ghost use Rattle.std.specs.Vec.{vec_capacity};
ghost use Rattle.turn_cell.specs.Seat.{AreNewSeats, new_seat};
ghost use Rattle.turn_cell.specs.Rule.{first_view};

use crate::cell::{CellRefused, TurnCell};
use crate::rule::{Deal, Opening};
use crate::seat::TurnSeat;
use crate::stands::Stands;
use crate::view::SeatView;
use atomic_table::{Refused, Seat, Table};
use std::alloc::{AllocError, Global};
use std::snapshot::Snapshot;

impl<S: Stands> TurnCell<S> {
    /// A cell whose history is empty, and its 1 to 16 seats, in the order of their numbers, which
    /// begin at 0.
    ///
    /// No other call of this crate takes memory.
    pub fn make(
        alloc: Global,
        state: S,
        seats: u32,
    ) -> Result<(TurnCell<S>, Vec<TurnSeat<S>>), CellRefused<S>>
        requires seats { (1 ≤ seats) × (seats ≤ 16) }
        requires state { S.stands state [] }
        ensures cell { IfOk result (λ made.
            (made.0.seats ≡ seats) × (made.0.name ≡ S.name state)) }
        ensures count { IfOk result (λ made. length made.1.items ≡ seats) }
        ensures seats { IfOk result (λ made. AreNewSeats made.0 made.1.items) }
        ensures refused { IfErr result (λ refused. refused.state ≡ state) }
    {
        let all = match Vec::with_capacity(alloc, seats as usize) {
            Ok(all) => all,
            Err(error) => return Err(CellRefused { state, error }),
        };
        let mut slots = match Vec::with_capacity(alloc, 1) {
            Ok(slots) => slots,
            Err(error) => return Err(CellRefused { state, error }),
        };
        let opening = Opening {
            state: Snapshot::of(&state),
            seats,
        };
        slots.push_reserved(Some(state));
        match Table::new(alloc, &[0], slots, &opening) {
            Ok((table, seat)) => {
                let cell = TurnCell { table };
                let all = cell.deal(all, seat, seats);
                Ok((cell, all))
            }
            Err(Refused { mut slots }) => {
                let Some(Some(state)) = slots.pop() else {
                    unreachable!()
                };
                slots.destroy_empty();
                Err(CellRefused {
                    state,
                    error: AllocError,
                })
            }
        }
    }

    // The seats, in order. Each is split from the one before it.
    fn deal(
        &self,
        mut all: Vec<TurnSeat<S>>,
        first: Seat<Option<S>, SeatView<S::Entry, S::Name>>,
        seats: u32,
    ) -> Vec<TurnSeat<S>>
        requires room { (all.items ≡ []) × (seats ≤ vec_capacity all) × (1 ≤ seats) }
        requires cell { (first.table_id ≡ self.now.table) × (self.now.seats ≡ seats) }
        requires first { first.me ≡ (first_view self.now.name seats, []) }
        ensures count { length result.items ≡ seats }
        ensures seats { AreNewSeats self.now result.items }
    {
        let mut last = first;
        for number in 1..seats {
            let next = self.table.shared.split_seat::<Deal>(&mut last);
            all.push_reserved(TurnSeat { seat: last });
            last = next;
        }
        all.push_reserved(TurnSeat { seat: last });
        all
    }

    /// The last of the seats of a new cell that are still together: that with the greatest number.
    pub fn last_new(&self, seats: &mut Vec<TurnSeat<S>>) -> Option<TurnSeat<S>>
        requires { AreNewSeats self.now seats.old.items }
        ensures rest { AreNewSeats self.now seats.new.items }
        ensures seat { IfSome result (λ seat.
            seat ≡ new_seat self.now (length seats.new.items)) }
        ensures count { MatchOption result
            (length seats.old.items ≡ 0)
            (λ _. length seats.old.items ≡ length seats.new.items + 1) }
    {
        seats.pop()
    }

    /// The seats of a new cell of three, in the order of their numbers.
    pub fn three_new(&self, mut seats: Vec<TurnSeat<S>>) -> (TurnSeat<S>, TurnSeat<S>, TurnSeat<S>)
        requires seats { AreNewSeats self.now seats.items }
        requires count { length seats.items ≡ 3 }
        ensures { result ≡ (new_seat self.now 0, new_seat self.now 1, new_seat self.now 2) }
    {
        let Some(third) = self.last_new(&mut seats) else {
            unreachable!()
        };
        let Some(second) = self.last_new(&mut seats) else {
            unreachable!()
        };
        let Some(first) = self.last_new(&mut seats) else {
            unreachable!()
        };
        (first, second, third)
    }
}
