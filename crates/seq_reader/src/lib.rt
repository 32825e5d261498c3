//! Reading a sequence of bytes from its front.
#![tactic(auto)]

mod cases;
mod numbers;
mod reader;
mod searches;

pub use cases::{number_cases, rest_cases, search_cases};
pub use reader::SeqReader;
