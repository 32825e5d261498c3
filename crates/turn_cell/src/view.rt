//! What the table of a cell keeps of each seat, in contracts alone.

use std::collections::LinkedList;

/// A seat that was taken in by another: its number, and its own entries.
pub struct Joined<E> {
    pub number: u64,
    pub own: LinkedList<E>,
}

/// What a seat knows. No value of it is made.
pub struct SeatView<E, N> {
    /// The name that all states of the cell have. A seat that was taken in by another has none.
    pub name: Option<N>,
    pub number: u64,
    /// The history, as far as this seat has seen it.
    pub seen: LinkedList<(u64, E)>,
    /// The entries of this seat.
    pub own: LinkedList<E>,
    /// The seats that it has taken in.
    pub joined: LinkedList<Joined<E>>,
    /// What the seats that met in this one had seen before they met.
    pub past: LinkedList<LinkedList<(u64, E)>>,
    /// While the seats are dealt, this one still gives out the numbers from here to `seats`.
    pub next: u64,
    pub seats: u64,
    pub holds: bool,
    pub exchanges: u64,
    /// The word that the last exchange found.
    pub last: u64,
}
