//! What a relay does to its source and its sink, how it ends, and what follows from that. The definitions stand in `specs/`.
//! The functions of `laws` and `cases` do nothing: what they ensure are the laws and the worked cases.
#![tactic(auto)]

mod answer;
mod cases;
mod ending;
mod laws;
mod status;

pub use answer::{Answer, frames_of_answer, status_of_answer};
pub use cases::ending_cases;
pub use ending::{FillEnd, Outcome, Report};
pub use laws::{causes_of_statuses, complete_where_lawful, translates_all, whole_on_status_0};
pub use status::{Status, status_of};
