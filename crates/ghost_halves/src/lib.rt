//! A value that contracts alone know, in two halves: what one half says of it is what the other says, whoever holds them.
//!
//! Neither half has a byte at run time, and no call here does anything at run time.
#![tactic(auto)]

mod halves;
mod update;

pub use halves::{PrivateHalf, SharedHalf, new_halves, update_halves};
pub use update::{Initial, Update};
