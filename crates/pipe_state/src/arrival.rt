//! A segment on its way to the reader, and one that the reader has.

use seg_block::{Mark, SegFront, TailEnd};

/// What was done to one segment since the last read: how far it was published, its front where the reader hasn't got that
/// yet, and the end of its tail where the writer has finished it.
#[derive(Drop)]
pub struct Arrival {
    pub front: Option<SegFront>,
    pub mark: Mark,
    pub end: Option<TailEnd>,
}

/// A segment that the reader has: its front, and the end of its tail where the reader has heard that it is finished.
#[derive(Drop)]
pub struct Link {
    pub front: SegFront,
    pub end: Option<TailEnd>,
}
