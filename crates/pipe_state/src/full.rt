//! What fills a pipe.

/// What fills a pipe that has no segment at home: how many segments the writer has not finished, how many finished ones the
/// reader has not fetched, and how many of these it has. They add up to the segments of the pipe.
#[derive(Clone, Copy, Debug, PartialEq, Eq)]
pub struct Full {
    pub writer: usize,
    pub waiting: usize,
    pub reader: usize,
}
