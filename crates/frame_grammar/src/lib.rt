//! Cutting a stream of bytes into frames, spelling payloads as frames, and what a job says of both.
#![tactic(auto)]

mod affix;
mod cutter;
mod job;
mod line_feed;
mod segments;
mod spelling;

pub use affix::Affix;
pub use cutter::{Cut, next_frame};
pub use frame_model::{BadKind, Framing};
pub use job::Job;
pub use segments::segments_of;
pub use spelling::{can_spell, spell_head, spell_tail};
