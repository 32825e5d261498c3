//! The chain.

ghost use Rattle.std.specs.Prelude.{◌≡◌, ◌≤◌, ◌<◌, ◌+◌, ◌^◌, ◌∷◌, ◌++◌, ℕ, [], length, Some, None, IfOk, slice_get};
ghost use Rattle.circular_buffer.specs.Buffer.{buffer};
ghost use Rattle.pipe_state.specs.Fetched.{AllFit, Continues, Fits, FitsLast, arrive, arrived, all_fetched, continued, continue_last, fetched_front};
ghost use Rattle.span_seq.specs.Sequence.{bytes, part};
ghost use Rattle.span_seq.specs.Spans.{whole_of};
ghost use Rattle.pipe_core.specs.History.{bytes_of};
ghost use Rattle.pipe_core.specs.Lends.{drop_bytes};
ghost use Rattle.pipe_state.specs.Lying.{runs_of};
ghost use Rattle.pipe_state.specs.Chains.{Counts, front_at, spans_of};

use crate::arrival::{Arrival, Link};
use crate::rings::put_behind;
use circular_buffer::HeapCircularBuffer;
use seg_block::{Mark, SegFront, TailEnd};
use span_seq::{Sequence, Spans};
use std::alloc::{AllocError, Global};
use std::marker::Model;

/// The segments that have bytes for the reader, in order.
#[derive(Drop)]
pub struct Chain {
    pub(crate) links: HeapCircularBuffer<Link>,
    // How many bytes of the first are consumed.
    pub(crate) skip: usize,
    // How many bytes they have, where 64 bits tell it.
    pub(crate) held: Option<u64>,
}

impl Model for Chain {
    ghost use Rattle.pipe_state.specs.Chains.{ChainState, IsChain};

    ghost Value = { ChainState };

    ghost view = { λ c. record { links = c.links.items; skip = c.skip; capacity = c.links.capacity } };

    ghost invariant = { λ c. IsChain c.links.items c.skip c.held };
}

impl Chain {
    /// A chain for so many segments, which has none yet.
    pub fn make(alloc: Global, segments: usize) -> Result<Chain, AllocError>
        ensures { IfOk result (λ c. c ≡ record { links = []; skip = 0; capacity = segments }) }
    {
        Ok(Chain {
            links: HeapCircularBuffer::with_capacity(alloc, segments)?,
            skip: 0,
            held: Some(0),
        })
    }

    // More was done to the last segment.
    fn extend_last(&mut self, mark: &Mark, end: Option<TailEnd>)
        requires { FitsLast (all_fetched self.old.links) mark.now end }
        ensures fetched { all_fetched self.new.links ≡ continue_last (all_fetched self.old.links) mark.now end }
        ensures skip { self.new.skip ≡ self.old.skip }
        ensures capacity { self.new.capacity ≡ self.old.capacity }
    {
        let _count = self.links.len();
        match self.links.pop_back() {
            Some(Link { mut front, end: _ }) => {
                let before = front.seen().len();
                front.learn(mark);
                self.held = count_more(self.held, front.seen().len() - before);
                put_behind(&mut self.links, Link { front, end });
            }
            None => unreachable!(),
        }
    }

    // The next segment, of which nothing was seen before.
    fn add(&mut self, front: SegFront, mark: &Mark, end: Option<TailEnd>)
        requires continues { Continues (fetched_front front) mark.now end }
        requires room { length self.old.links < self.old.capacity }
        ensures fetched { all_fetched self.new.links ≡ all_fetched self.old.links ++ continued (fetched_front front) mark.now end ∷ [] }
        ensures skip { self.new.skip ≡ self.old.skip }
        ensures capacity { self.new.capacity ≡ self.old.capacity }
    {
        let mut front = front;
        front.learn(mark);
        self.held = count_more(self.held, front.seen().len());
        put_behind(&mut self.links, Link { front, end });
    }

    /// Takes in what was done since the last read. No byte moves.
    pub fn fetch(&mut self, inbox: &mut HeapCircularBuffer<Arrival>)
        requires fit { AllFit (all_fetched self.old.links) inbox.old.items }
        requires room { length (arrive (all_fetched self.old.links) inbox.old.items) ≤ self.old.capacity }
        ensures fetched { all_fetched self.new.links ≡ arrive (all_fetched self.old.links) inbox.old.items }
        ensures skip { self.new.skip ≡ self.old.skip }
        ensures capacity { self.new.capacity ≡ self.old.capacity }
        ensures inbox { inbox.new ≡ buffer [] inbox.old.capacity }
    {
        for _ in 0..inbox.len() {
            match inbox.pop_front() {
                Some(arrival) => self.take_in(arrival),
                None => unreachable!(),
            }
        }
    }

    // Takes in one of these.
    fn take_in(&mut self, arrival: Arrival)
        requires fits { Fits (all_fetched self.old.links) arrival.front arrival.mark arrival.end }
        requires room { length (arrived (all_fetched self.old.links) arrival.front arrival.mark arrival.end) ≤ self.old.capacity }
        ensures fetched { all_fetched self.new.links ≡ arrived (all_fetched self.old.links) arrival.front arrival.mark arrival.end }
        ensures skip { self.new.skip ≡ self.old.skip }
        ensures capacity { self.new.capacity ≡ self.old.capacity }
    {
        let Arrival { front, mark, end } = arrival;
        match front {
            Some(front) => self.add(front, &mark, end),
            None => self.extend_last(&mark, end),
        }
    }

    /// All that its segments have behind what is consumed, where it lies.
    pub fn whole(&self) -> Sequence<'_, Chain>
        requires { length (bytes_of (drop_bytes self.now.skip (runs_of (all_fetched self.now.links)))) ≤ 2 ^ 62 }
        ensures part { part result ≡ whole_of (spans_of self.now.skip (all_fetched self.now.links)) }
        ensures bytes { bytes result ≡ bytes_of (drop_bytes self.now.skip (runs_of (all_fetched self.now.links))) }
    {
        let _ = &self.links;
        match self.len() {
            Some(len) => Sequence::whole_with_len(self, len),
            None => Sequence::whole(self),
        }
    }

    // How many bytes lie behind what is consumed, where 64 bits tell it.
    fn len(&self) -> Option<u64>
        ensures { Counts result (length (bytes_of (drop_bytes self.now.skip (runs_of (all_fetched self.now.links))))) }
    {
        Some(self.held? - self.skip as u64)
    }

    /// The front of the segment in which a span lies.
    pub fn front(&self, index: usize) -> &SegFront
        requires { index < length self.now.links }
        ensures { front_at self.now.links index ≡ Some result.now }
    {
        match self.links.get(index) {
            Some(link) => &link.front,
            None => unreachable!(),
        }
    }
}

// What `held` counts, and so many more.
fn count_more(held: Option<u64>, more: usize) -> Option<u64>
    ensures { (n : ℕ) → Counts held n → Counts result (n + more) }
{
    held?.checked_add(more as u64)
}

// What `held` counts, but so many.
pub(crate) fn count_fewer(held: Option<u64>, fewer: usize) -> Option<u64>
    ensures { (n : ℕ) → Counts held (n + fewer) → Counts result n }
{
    held?.checked_sub(fewer as u64)
}

impl Spans for Chain {
    ghost use Rattle.pipe_state.specs.Fetched.{all_fetched};
    ghost use Rattle.pipe_state.specs.Chains.{spans_of};

    ghost spans = { λ c. spans_of c.skip (all_fetched c.links) };

    fn count(&self) -> usize {
        self.links.len()
    }

    fn span(&self, index: usize) -> &[u8] {
        let seen = self.front(index).seen();
        if index == 0 {
            return &seen[self.skip..];
        }
        seen
    }
}
