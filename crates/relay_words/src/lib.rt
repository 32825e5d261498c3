//! The words of the relay's commands, and the jobs that they ask for.
#![tactic(auto)]

mod batch;
mod cases;
mod command;
mod keys;
mod names;
mod number;
mod serve;
mod words;

pub use cases::{batch_cases, number_cases, serve_cases, word_cases};
pub use command::{Command, LocalCommand, ThreadedCommand, Usage};
pub use words::{is_local, read_local, read_words};
