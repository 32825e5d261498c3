//! The whole frames at the front of a slice: counted, and spelt anew into a room.
#![tactic(auto)]

mod clean;
mod copy;
mod front;
mod laws;
mod lines;
mod place;
mod spell;

pub use front::{Front, whole_front};
pub use laws::front_is_translated;
pub use spell::{Spelt, spell_front};
