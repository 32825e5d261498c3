//! The calls of a pipe's ends on what they share: each takes the turn by one exchange, makes one step over the segments, and gives
//! the turn back. What a seat then knows of the pipe's history is told by its definitions.
#![tactic(auto)]

mod entry;
mod faults;
mod laws;
mod state;
mod turns;

pub use entry::{Entry, PipeName};
pub use faults::{FlushFault, TryFault};
pub use laws::runs_are_the_lend;
pub use state::SharedPipe;
pub use turns::{advance, cancel_flush, cancel_read, commit, complete, end_reader, read, room};
