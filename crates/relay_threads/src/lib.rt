//! Relays by threads. One relay on two threads, of which one takes bytes from a source into a pipe, and the other writes the
//! frames of what the pipe lends to a sink; and many relays by a few threads, each relay on one of them. With them stands what
//! all commands of many relays have in common: how devices are given back, and how a relay is told.
#![tactic(auto)]

mod answer_lines;
#[cfg(test)]
mod batch_tests;
mod batching;
mod pumping;
mod returning;
mod serve_end;
#[cfg(test)]
mod serve_tests;
mod serving;
mod summary;
mod telling;
#[cfg(test)]
mod tests;

pub use answer_lines::{LINE, add_line, report_on_answer};
pub use batching::{Finished, Task, batch};
pub use pumping::{Pumped, pump, settle};
pub use relay_engine::settled_pump_is_reported;
pub use returning::give_back;
pub use serve_end::{Ending, Numbered, ServeEnd};
pub use serving::serve;
pub use summary::{tell_broken_off, write_summary};
pub use telling::{cause_of, report_on, tell_answer, tell_no_memory};
