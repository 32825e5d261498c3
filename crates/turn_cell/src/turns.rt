//! Taking the turn and giving it up, and how seats meet.

ghost use Rattle.std.specs.Prelude.{◌≡◌, ◌≤◌, ◌+◌, ◌^◌, ◌%◌, ◌↔◌, true, length, IsErr, IfOk, IfErr};
ghost use Rattle.turn_cell.specs.Seat.{IsOf, IsIdle, Takes, Closes, ClosesThree, HasTakenInAll, after_find, after_put, after_join};

use crate::cell::{Busy, TurnCell};
use crate::held::Held;
use crate::rule::{Meet, Put, Take};
use crate::seat::TurnSeat;
use crate::stands::{Adds, Stands};

impl<S: Stands> TurnCell<S> {
    /// Takes the turn where it is free. It makes one exchange, decides by what that found, and
    /// waits for nobody. `Busy` comes exactly where it found an odd word.
    pub fn try_take(&self, seat: &mut TurnSeat<S>) -> Result<Held<S>, Busy>
        requires { IsIdle self.now seat.old }
        ensures seat { IsOf self.now seat.new }
        ensures one_exchange { seat.new.exchanges ≡ seat.old.exchanges + 1 }
        ensures busy_exactly { IsErr result ↔ (seat.new.last % 2 ≡ 1) }
        ensures busy { IfErr result (λ busy. seat.new ≡ after_find busy.word seat.old) }
        ensures taken { IfOk result (λ held. Takes S.stands seat.old held seat.new) }
        ensures name { IfOk result (λ held. S.name held.state ≡ self.now.name) }
    {
        let word = self.table.shared.fetch_or::<Take<S>>(&mut seat.seat, 0, 1);
        if word % 2 == 1 {
            return Err(Busy { word });
        }
        match self.table.shared.exchange(&mut seat.seat, 0, None) {
            Some(state) => Ok(Held {
                state,
                entries: word / 2,
            }),
            None => unreachable!(),
        }
    }

    /// Gives the state back and the turn up, with 0 to 2 entries of this seat, which are those of
    /// `A`.
    ///
    /// The state stands for the history with these entries. A state that wasn't changed goes back
    /// with none. A history has at most 2^62 entries.
    pub fn put<A: Adds<S::Entry>>(&self, seat: &mut TurnSeat<S>, held: Held<S>, added: u8)
        requires seat { IsOf self.now seat.old }
        requires turn { seat.old.holds ≡ true }
        requires held { held.entries ≡ length seat.old.seen }
        requires few { added ≤ 2 }
        requires room { held.entries + added ≤ 2 ^ 62 }
        requires entries { length A.entries ≡ added }
        requires stands { S.stands held.state (after_put A.entries seat.old).seen }
        requires name { S.name held.state ≡ self.now.name }
        ensures seat { IsOf self.now seat.new }
        ensures put { seat.new ≡ after_put A.entries seat.old }
    {
        let Held { state, entries } = held;
        match self.table.shared.exchange(&mut seat.seat, 0, Some(state)) {
            None => {}
            Some(_other) => unreachable!(),
        }
        let word = 2 * (entries + added as u64);
        self.table.shared.store::<Put<A>>(&mut seat.seat, 0, word);
    }

    /// One seat takes in another, with its entries, its number and all that it had seen.
    pub fn join(&self, into: &mut TurnSeat<S>, from: TurnSeat<S>)
        requires into { IsIdle self.now into.old }
        requires from { IsIdle self.now from }
        ensures seat { IsOf self.now into.new }
        ensures joined { into.new ≡ after_join into.old from }
    {
        let TurnSeat { seat } = from;
        self.table.shared.join_seat::<Meet>(&mut into.seat, seat);
    }

    /// The state, once one seat has taken in all others.
    pub fn close(self, seat: TurnSeat<S>) -> S
        requires seat { IsIdle self seat }
        requires all { HasTakenInAll self seat }
        ensures closed { Closes S.stands self seat result }
        ensures name { S.name result ≡ self.name }
    {
        let TurnCell { table } = self;
        let TurnSeat { seat } = seat;
        let mut closed = table.close_with(seat);
        let home = closed.take(0);
        closed.free();
        match home {
            Some(state) => state,
            None => unreachable!(),
        }
    }

    /// The state of a cell of three, from its three seats.
    pub fn close_three(self, first: TurnSeat<S>, second: TurnSeat<S>, third: TurnSeat<S>) -> S
        requires count { self.seats ≡ 3 }
        requires first { IsIdle self first × (first.number ≡ 0) }
        requires second { IsIdle self second × (second.number ≡ 1) }
        requires third { IsIdle self third × (third.number ≡ 2) }
        ensures closed { ClosesThree S.stands first second third result }
        ensures name { S.name result ≡ self.name }
    {
        let all = self.meet(first, second, third);
        self.close(all)
    }

    // The first seat, once it has taken in the two others.
    fn meet(&self, mut first: TurnSeat<S>, second: TurnSeat<S>, third: TurnSeat<S>) -> TurnSeat<S>
        requires first { IsIdle self.now first }
        requires second { IsIdle self.now second }
        requires third { IsIdle self.now third }
        ensures idle { IsIdle self.now result }
        ensures met { result ≡ after_join (after_join first second) third }
    {
        self.join(&mut first, second);
        self.join(&mut first, third);
        first
    }
}
