//! What was done since the last read.

ghost use Rattle.std.specs.Prelude.{◌≡◌, ◌≤◌, ◌<◌, ◌∷◌, ◌++◌, List, [], length, None, IfOk};
ghost use Rattle.circular_buffer.specs.Buffer.{buffer};
ghost use Rattle.pipe_state.specs.Fetched.{AllFit, Fetched, Fits, arrive, arrived, put, renewed};

use crate::arrival::Arrival;
use crate::rings::put_behind;
use circular_buffer::HeapCircularBuffer;
use seg_block::{Mark, SegFront, TailEnd};
use std::alloc::{AllocError, Global};

/// One arrival for each segment to which something was done since the last read.
#[derive(Drop)]
pub struct Inbox {
    pub arrivals: HeapCircularBuffer<Arrival>,
}

impl Inbox {
    /// An inbox for so many segments.
    pub fn make(alloc: Global, segments: usize) -> Result<Inbox, AllocError>
        ensures { IfOk result (λ inbox. inbox.arrivals ≡ buffer [] segments) }
    {
        Ok(Inbox {
            arrivals: HeapCircularBuffer::with_capacity(alloc, segments)?,
        })
    }

    /// Something was done to the next segment, whose front the reader hasn't, or to the last one. Where that has an
    /// arrival already, this one takes its place.
    pub fn put(&mut self, front: Option<SegFront>, mark: Mark, end: Option<TailEnd>)
        requires room { length (put self.old.arrivals.items front mark end) ≤ self.old.arrivals.capacity }
        ensures fit { (fetched : List Fetched) → AllFit fetched self.old.arrivals.items → Fits (arrive fetched self.old.arrivals.items) front mark end →
            AllFit fetched self.new.arrivals.items }
        ensures fetched { (fetched : List Fetched) → AllFit fetched self.old.arrivals.items → Fits (arrive fetched self.old.arrivals.items) front mark end →
            arrive fetched self.new.arrivals.items ≡ arrived (arrive fetched self.old.arrivals.items) front mark end }
        ensures count { self.new.arrivals ≡ buffer (put self.old.arrivals.items front mark end) self.old.arrivals.capacity }
    {
        match front {
            Some(front) => self.append(Some(front), mark, end),
            None => self.renew(mark, end),
        }
    }

    // The same of the last segment.
    fn renew(&mut self, mark: Mark, end: Option<TailEnd>)
        requires room { length (renewed self.old.arrivals.items mark end) ≤ self.old.arrivals.capacity }
        ensures { self.new.arrivals ≡ buffer (renewed self.old.arrivals.items mark end) self.old.arrivals.capacity }
    {
        match self.arrivals.pop_back() {
            Some(
                Arrival {
                    front,
                    mark: _,
                    end: _,
                },
            ) => self.append(front, mark, end),
            None => self.append(None, mark, end),
        }
    }

    fn append(&mut self, front: Option<SegFront>, mark: Mark, end: Option<TailEnd>)
        requires room { length self.old.arrivals.items < self.old.arrivals.capacity }
        ensures { self.new.arrivals ≡ buffer (self.old.arrivals.items ++ record { front = front; mark = mark; end = end } ∷ []) self.old.arrivals.capacity }
    {
        put_behind(&mut self.arrivals, Arrival { front, mark, end });
    }
}
