//! What the two ends of a pipe share, and what each has for itself: the segments that hold a pipe's bytes, each in one place.
#![tactic(auto)]

mod arrival;
mod chain;
mod current;
mod filling;
mod full;
mod inbox;
mod laws;
mod lending;
mod options;
mod reading;
mod release;
mod rings;
mod segments;
mod sides;
mod state;
mod writing;

pub use arrival::{Arrival, Link};
pub use chain::Chain;
pub use filling::Filling;
pub use full::Full;
pub use inbox::Inbox;
pub use laws::{
    a_commit_joins_the_runs, numbered_blocks_fit, runs_lie_with_the_segments, spans_are_the_runs,
};
pub use options::{Field, Options};
pub use reading::Reading;
pub use segments::Segments;
pub use sides::{ReaderSide, WriterSide};
pub use state::PipeState;
pub use writing::Writing;
