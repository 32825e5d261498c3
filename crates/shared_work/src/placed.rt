//! Things with a place.

use std::collections::LinkedList;

/// A thing, and where in a list it stands.
#[derive(Drop)]
pub struct Placed<T> {
    pub place: usize,
    pub it: T,
}

/// What a worker knows of the tasks, which contracts alone know. No value of it is made.
pub struct WorkerView<T> {
    /// How many of the 1,024 parts it has. The worker with all of them is the only one.
    pub parts: u64,
    /// All tasks, in their order.
    pub all: LinkedList<T>,
    /// The tasks that it has taken, also those that workers took which it took in.
    pub taken: LinkedList<Placed<T>>,
}
