//! The engine of a relay: a filler, which takes bytes from a source into a pipe, a drainer, which writes the frames of what
//! the pipe lends to a sink, both in steps that may come in any order, and the relay on one thread that runs both.
#![tactic(auto)]

mod drain_end;
mod drain_pipe;
mod draining;
mod ending;
mod fill_pipe;
mod fill_side;
mod filling;
mod frames;
mod gathering;
mod laws;
mod lines;
mod local_reader;
mod local_writer;
mod pipe_drainer;
mod pipe_filler;
mod pump;
mod reading;
mod shared_reader;
mod shared_writer;

pub use drain_end::DrainEnd;
pub use ending::outcome_of;
pub use fill_side::fill;
pub use laws::{
    drained_at_first, drained_behind_others, drained_is_a_front, settled_pump_is_reported,
    steps_drain, steps_fill,
};
pub use lines::{Told, tell};
pub use pipe_drainer::{DrainStep, Drainer, drain, drainer_has_written};
pub use pipe_filler::{FillStep, Filler, filler_has_taken};
pub use pump::{options_of, pump_local, pump_over};
pub use relay_model::{FillEnd, Outcome, Report, status_of};
