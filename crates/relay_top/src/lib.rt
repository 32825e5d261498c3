//! The relay's commands, from their words to their status.
#![tactic(auto)]

mod batching;
mod doors;
mod drill;
mod laws;
mod local;
mod name_lines;
mod pumping;
mod serving;
mod telling;
mod threaded;

pub use laws::{
    what_batches_do, what_drills_do, what_is_untouched, what_relays_do, what_runs_come_to,
    what_servers_do,
};
pub use local::relay_local;
pub use relay_model::Status;
pub use relay_words::is_local;
pub use threaded::relay_main;
