//! Tasks that a few threads share out among themselves by a queue, each of them with a pass of one pool.
#![tactic(auto)]

mod ordering;
mod placed;
mod rule;
mod task;
#[cfg(test)]
mod tests;
mod workers;

pub use placed::{Placed, WorkerView};
pub use task::Work;
pub use workers::run_all;
