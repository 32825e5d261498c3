//! A state that several threads change in turn, and the one history of all that was done to it.
#![tactic(auto)]

mod cell;
mod held;
mod opening;
mod rule;
mod seat;
mod stands;
mod turns;
mod view;

pub use cell::{Busy, CellRefused, TurnCell};
pub use held::Held;
pub use seat::TurnSeat;
pub use stands::{Adds, Stands};
pub use view::Joined;
