//! A segment of raw memory: one thread writes its end while another reads its front in place.
#![tactic(auto)]

mod block;
mod both;
mod front;
mod gate;
mod home;
mod known;
mod land;
mod many;
mod run;
mod tail;

pub use block::Block;
pub use both::block_of;
pub use front::{FrontEnd, FrontNote, SegFront};
pub use many::{ids_differ, own_blocks};
pub use tail::{Mark, SegTail, TailEnd, TailNote};
