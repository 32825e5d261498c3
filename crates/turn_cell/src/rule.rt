//! The rule of a cell's table, and what each kind of step tells its seat.

use crate::stands::{Adds, Stands};
use crate::view::SeatView;
use atomic_table::{Join, Play, Split, TableRule};
use std::marker::PhantomData;
use std::snapshot::Snapshot;

/// What a cell begins with. It has no bytes but the number of seats.
#[derive(Drop)]
pub struct Opening<S> {
    pub state: Snapshot<S>,
    pub seats: u32,
}

/// There is one history, and the state stands for it.
pub struct OneHistory<S> {
    of: PhantomData<S>,
}

impl<S: Stands> TableRule<Option<S>, SeatView<S::Entry, S::Name>, Opening<S>> for OneHistory<S> {
    ghost use Rattle.turn_cell.specs.Rule.{TurnRule, first_view};

    ghost holds = { λ opening.
        TurnRule S.stands S.name (S.name opening.state.value) opening.seats };

    ghost first = { λ opening. first_view (S.name opening.state.value) opening.seats };
}

/// The step that takes the turn, where it is free.
pub struct Take<S> {
    of: PhantomData<S>,
}

impl<S: Stands> Play<Option<S>, SeatView<S::Entry, S::Name>> for Take<S> {
    ghost use Rattle.turn_cell.specs.Rule.{Tries};

    ghost then = { Tries S.stands S.name };
}

/// The step that gives the turn up, with the entries that it adds.
pub struct Put<A> {
    of: PhantomData<A>,
}

impl<S, E, N, A: Adds<E>> Play<Option<S>, SeatView<E, N>> for Put<A> {
    ghost use Rattle.turn_cell.specs.Rule.{Puts};

    ghost then = { Puts A.entries };
}

/// The seat that was dealt last gives the next number, and its right to give further ones, to a
/// new seat.
pub struct Deal;

impl<E, N> Split<SeatView<E, N>> for Deal {
    ghost use Rattle.turn_cell.specs.Rule.{view_settled, view_following};

    ghost left = { view_settled };

    ghost right = { view_following };
}

/// One seat takes in another.
pub struct Meet;

impl<E, N> Join<SeatView<E, N>> for Meet {
    ghost use Rattle.turn_cell.specs.Rule.{view_after_join, spent_view};

    ghost both = { view_after_join };

    ghost spent = { spent_view };
}
