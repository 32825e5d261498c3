//! Sets of bytes, and searches of slices: for a byte of a set or a range, for one byte near the front, and for the first
//! difference.
#![tactic(auto)]

mod byte_set;
mod byte_test;
mod cases;
mod front;
mod index;
mod marks;
pub mod plain;
mod range;
mod scan;
mod search;
mod table;

pub use byte_set::ByteSet;
pub use cases::{count_cases, front_cases, scan_cases};
pub use front::common_front;
pub use index::{index_of_any, index_of_any_except, last_index_of_any};
pub use marks::lowest;
pub use range::{index_in_range, index_not_in_range};
pub use search::{count_of, index_near, marks_near, marks_near_64};
