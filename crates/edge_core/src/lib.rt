//! The outside of a relay: where bytes come from and where they go.
#![tactic(auto)]

mod device;
mod doors;
mod mem_doors;
mod mem_sink;
mod mem_source;
mod names;
mod no_doors;
mod plan;
mod returns;
mod std_edges;
mod whole_source;
mod writing;

pub use device::{Failed, Sink, Source};
pub use doors::{DoorError, Doors};
pub use mem_doors::MemDoors;
pub use mem_sink::MemSink;
pub use mem_source::MemSource;
pub use no_doors::NoDoors;
pub use std_edges::{ReadEdge, WriteEdge};
pub use whole_source::WholeSource;
pub use writing::{BrokenOff, write_all};
