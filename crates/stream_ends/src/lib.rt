//! A pipe's reader over a source, and its writer over a sink, for one thread: what .NET's `PipeReader.Create` and
//! `PipeWriter.Create` make over a `Stream`. The definitions stand in `specs/`.
#![tactic(auto)]

mod cases;
mod faults;
mod laws;
mod reader;
#[cfg(test)]
mod rows;
mod writer;

pub use cases::{canceled_read_of_a_full_reader, reads_of_a_whole_source};
pub use faults::{StreamFault, WriteFault};
pub use laws::reads_are_few;
pub use reader::StreamReader;
pub use writer::{StreamWriter, WriterKept};
