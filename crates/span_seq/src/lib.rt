//! Bytes that lie in many spans, seen as one sequence.
#![tactic(auto)]

mod cases;
mod position;
mod search;
mod sequence;
mod span_iter;
mod spans;
mod walk;

pub use cases::{bytes_cases, spans_cases};
pub use position::Position;
pub use search::{Byte, Search};
pub use sequence::Sequence;
pub use span_iter::SpanIter;
pub use spans::{Many, One, Spans};
