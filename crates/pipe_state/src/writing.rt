//! The writer's part.

ghost use Rattle.std.specs.Prelude.{◌≡◌, ◌≤◌, ◌<◌, ◌+◌, ◌-◌, ◌*◌, ◌^◌, ◌++◌, ◌∷◌, [], length, map, take, drop, max, IfOk, IfSome, IfNone};
ghost use Rattle.std.specs.List.{AllByRecursion};
ghost use Rattle.circular_buffer.specs.Buffer.{buffer};
ghost use Rattle.pipe_core.specs.History.{bytes_of, run_in};
ghost use Rattle.pipe_core.specs.Lends.{joined};
ghost use Rattle.pipe_state.specs.Lying.{AreFull, HaveOwnIds, runs_of};
ghost use Rattle.pipe_state.specs.Segments.{AreFilled, AreSized, EndsOnly, SendsOnly, writes_none};
ghost use Rattle.pipe_state.specs.Writing.{IsLeft, SetsAside, TakeUp, TakesNext};
ghost use Rattle.pipe_state.specs.Sides.{unfinished_of};
ghost use Rattle.pipe_state.specs.Current.{IsCommitted, drafts_in, list_of};

use crate::current::Current;
use crate::filling::Filling;
use crate::rings::put_behind;
use crate::segments::Segments;
use crate::sides::WriterSide;
use circular_buffer::HeapCircularBuffer;
use core::mem::replace;
use ghost_halves::PrivateHalf;
use std::alloc::{AllocError, Global};
use std::marker::Model;

/// The segments that the writer has not finished, which nobody else reaches.
#[derive(Drop)]
pub struct Writing {
    // Those that were left for want of room, each with a draft.
    left: HeapCircularBuffer<Filling>,
    pub(crate) current: Current,
    drafted: u64,
    count: usize,
    size: usize,
    half: PrivateHalf<WriterSide>,
}

impl Model for Writing {
    ghost use Rattle.std.specs.Prelude.{◌++◌};
    ghost use Rattle.pipe_state.specs.Current.{drafts_in, free_in, list_of};
    ghost use Rattle.pipe_state.specs.Writing.{WritingState, IsWriting};

    ghost Value = { WritingState };

    ghost view = { λ w. record {
      draft = drafts_in (w.left.items ++ list_of w.current);
      free = free_in w.current;
      has = w.half.value;
      name = w.half.name;
      count = w.count;
      size = w.size;
    } };

    ghost invariant = { λ w. IsWriting w.left w.current w.drafted w.count w.size w.half.value };
}

impl Writing {
    /// The part of a writer of a pipe with `count` segments of `size` bytes. It has no segment yet.
    pub fn make(
        alloc: Global,
        count: usize,
        size: usize,
        half: PrivateHalf<WriterSide>,
    ) -> Result<Writing, AllocError>
        requires none { half.value ≡ writes_none }
        requires small { count * size ≤ 2 ^ 62 }
        ensures { IfOk result (λ w. w ≡ record { draft = []; free = []; has = writes_none; name = half.name; count = count; size = size }) }
    {
        Ok(Writing {
            left: HeapCircularBuffer::with_capacity(alloc, count)?,
            current: Current::Untaken(Vec::new(alloc)),
            drafted: 0,
            count,
            size,
            half,
        })
    }

    /// No run of the draft is empty. It does nothing at run time.
    #[inline]
    pub fn is_full(&self)
        ensures { AreFull self.now.draft }
    {
        let _ = &self.left;
    }

    /// How many bytes are drafted.
    pub fn draft_len(&self) -> u64
        ensures { result ≡ length (bytes_of self.now.draft) }
    {
        self.drafted
    }

    /// How many bytes are free, at most as many as a segment has.
    pub fn free_len(&self) -> usize
        ensures free { result ≡ length self.now.free }
        ensures at_most { result ≤ self.now.size }
    {
        self.current.room()
    }

    /// How many segments the writer has not finished.
    pub fn unfinished_len(&self) -> usize
        ensures { result ≡ length self.now.has.segments }
    {
        match &self.current {
            Current::Filling(_) => self.left.len() + 1,
            Current::Untaken(_) => self.left.len(),
        }
    }

    /// How much the segments that it has not finished take up, where the one that it fills lacks room for `hint` bytes. It changes
    /// nothing.
    #[inline]
    pub fn take_up(&self, hint: usize, segments: &Segments)
        requires same { self.now.has ≡ segments.now.writer }
        requires short { length self.now.free < hint }
        requires fits { hint ≤ self.now.size }
        ensures { TakeUp (self.now.size - max self.now.has.hint hint + 1) self.now }
    {
        segments.order();
        let _ = &self.left;
        let _free = self.current.room();
    }

    /// Takes the first `n` bytes of the free part to the end of the draft.
    pub fn advance(&mut self, n: usize)
        requires { n ≤ length self.old.free }
        ensures draft { bytes_of self.new.draft ≡ bytes_of self.old.draft ++ take n self.old.free }
        ensures free { self.new.free ≡ drop n self.old.free }
        ensures others { self.new ≡ record self.old { draft = self.new.draft; free = self.new.free } }
    {
        self.current.advance(n);
        self.drafted += n as u64;
    }

    /// Fills another segment, which was at home, for want of room for `hint` bytes in the one that it fills. That one is finished
    /// where none of its bytes are drafted, and left until the draft is committed otherwise. How many bytes are free then, or
    /// None where no segment is at home.
    pub fn take_next(&mut self, hint: usize, segments: &mut Segments) -> Option<usize>
        requires pair { self.old.name ≡ segments.old.writer_name }
        requires short { length self.old.free < hint }
        requires fits { hint ≤ self.old.size }
        requires sizes { AreSized self.old.size segments.old.blocks }
        requires count { length segments.old.blocks ≡ self.old.count }
        ensures taken { IfSome result (λ n. TakesNext hint n self.old segments.old self.new segments.new) }
        ensures none { IfNone result ((segments.old.home ≡ []) × (segments.new ≡ segments.old) × (self.new ≡ self.old)) }
        ensures same { self.old.has ≡ segments.old.writer }
    {
        segments.order();
        match segments.take(hint, &mut self.half) {
            Some(next) => {
                segments.order();
                let free = next.room();
                match replace(&mut self.current, Current::Filling(next)) {
                    Current::Filling(before) => {
                        set_aside(before, &mut self.left, segments, &mut self.half);
                        Some(free)
                    }
                    Current::Untaken(_) => Some(free),
                }
            }
            None => None,
        }
    }

    /// The draft is committed, and all segments are finished. One of which nothing was used goes home.
    pub fn complete(self, segments: &mut Segments)
        requires pair { self.name ≡ segments.old.writer_name }
        requires own { HaveOwnIds segments.old.blocks }
        ensures runs { runs_of segments.new.live ≡ joined (runs_of segments.old.live ++ self.draft) }
        ensures segments { EndsOnly segments.old segments.new }
        ensures none_left { segments.new.writer ≡ record self.has { segments = [] } }
    {
        let Writing {
            mut left,
            current,
            drafted: _,
            count: _,
            size: _,
            mut half,
        } = self;
        finish_left(&mut left, segments, &mut half);
        match current {
            Current::Filling(filling) => end_last(filling, segments, &mut half),
            Current::Untaken(_) => {
                segments.order();
                segments.agree(&mut half);
            }
        }
    }

    /// The draft is committed, and the segments that were left are finished.
    pub fn commit(&mut self, segments: &mut Segments)
        requires pair { self.old.name ≡ segments.old.writer_name }
        requires own { HaveOwnIds segments.old.blocks }
        ensures runs { runs_of segments.new.live ≡ joined (runs_of segments.old.live ++ self.old.draft) }
        ensures segments { SendsOnly segments.old segments.new }
        ensures writing { self.new ≡ record self.old { draft = []; has = self.new.has } }
        ensures hint { self.new.has.hint ≡ self.old.has.hint }
        ensures filled { AreFilled segments.old.writer.hint segments.old.live → AreFilled segments.new.writer.hint segments.new.live }
    {
        segments.agree(&mut self.half);
        finish_left(&mut self.left, segments, &mut self.half);
        commit_current(&mut self.current, segments, &mut self.half);
        segments.agree(&mut self.half);
        self.drafted = 0;
    }
}

// The last segment that is not finished is finished, its draft committed. One of which nothing was used goes home.
fn end_last(filling: Filling, segments: &mut Segments, half: &mut PrivateHalf<WriterSide>)
    requires pair { half.old.name ≡ segments.old.writer_name }
    requires only { half.old.value.segments ≡ unfinished_of filling ∷ [] }
    requires own { HaveOwnIds segments.old.blocks }
    ensures runs { runs_of segments.new.live ≡ joined (runs_of segments.old.live ++ run_in filling.label.id filling.draft) }
    ensures segments { EndsOnly segments.old segments.new }
    ensures none_left { segments.new.writer ≡ record half.old.value { segments = [] } }
{
    segments.order();
    if filling.draft_len() > 0 {
        segments.finish(filling, half);
    } else if filling.is_sent() {
        segments.finish(filling, half);
    } else {
        segments.give_back(filling, half);
    }
}

// The segment that the writer filled is finished where nothing in it is drafted, and left otherwise.
fn set_aside(
    before: Filling,
    left: &mut HeapCircularBuffer<Filling>,
    segments: &mut Segments,
    half: &mut PrivateHalf<WriterSide>,
)
    requires pair { half.old.name ≡ segments.old.writer_name }
    requires room { length left.old.items < left.old.capacity }
    requires first { (length before.bytes + length before.draft + length before.spare ≡ before.label.size) → before.draft ≡ [] → half.old.value.segments ≡ unfinished_of before ∷ drop 1 half.old.value.segments }
    ensures size { length before.bytes + length before.draft + length before.spare ≡ before.label.size }
    ensures aside { SetsAside before left.old segments.old half.old.value left.new segments.new half.new.value }
    ensures pair { half.new.name ≡ segments.new.writer_name }
    ensures name { half.new.name ≡ half.old.name }
{
    let _room = before.room();
    if before.draft_len() > 0 {
        put_behind(left, before);
    } else {
        segments.finish(before, half);
    }
}

// The segments that were left are finished, their drafts committed.
fn finish_left(
    left: &mut HeapCircularBuffer<Filling>,
    segments: &mut Segments,
    half: &mut PrivateHalf<WriterSide>,
)
    requires pair { half.old.name ≡ segments.old.writer_name }
    requires first { half.old.value.segments ≡ map unfinished_of left.old.items ++ drop (length left.old.items) half.old.value.segments }
    requires left { AllByRecursion (IsLeft half.old.value.hint) left.old.items }
    requires own { HaveOwnIds segments.old.blocks }
    ensures left { left.new ≡ buffer [] left.old.capacity }
    ensures runs { runs_of segments.new.live ≡ joined (runs_of segments.old.live ++ drafts_in left.old.items) }
    ensures segments { SendsOnly segments.old segments.new }
    ensures half { half.new.value ≡ record half.old.value { segments = drop (length left.old.items) half.old.value.segments } }
    ensures filled { AreFilled half.old.value.hint segments.old.live → AreFilled half.old.value.hint segments.new.live }
    ensures pair { half.new.name ≡ segments.new.writer_name }
    ensures name { half.new.name ≡ half.old.name }
{
    segments.order();
    for _ in 0..left.len() {
        match left.pop_front() {
            Some(filling) => {
                segments.order();
                segments.finish(filling, half);
            }
            None => unreachable!(),
        }
    }
}

// The draft in the one segment that is not finished is committed.
fn commit_current(
    current: &mut Current,
    segments: &mut Segments,
    half: &mut PrivateHalf<WriterSide>,
)
    requires pair { half.old.name ≡ segments.old.writer_name }
    requires only { half.old.value.segments ≡ map unfinished_of (list_of current.old) }
    requires own { HaveOwnIds segments.old.blocks }
    ensures runs { runs_of segments.new.live ≡ joined (runs_of segments.old.live ++ drafts_in (list_of current.old)) }
    ensures segments { SendsOnly segments.old segments.new }
    ensures half { half.new.value ≡ record half.old.value { segments = map unfinished_of (list_of current.new) } }
    ensures current { IsCommitted current.old current.new }
    ensures filled { AreFilled half.old.value.hint segments.old.live → AreFilled half.old.value.hint segments.new.live }
    ensures pair { half.new.name ≡ segments.new.writer_name }
    ensures name { half.new.name ≡ half.old.name }
{
    segments.order();
    match current {
        Current::Filling(filling) => commit_filling(filling, segments, half),
        Current::Untaken(_) => {}
    }
}

// The same of that segment.
fn commit_filling(
    filling: &mut Filling,
    segments: &mut Segments,
    half: &mut PrivateHalf<WriterSide>,
)
    requires pair { half.old.name ≡ segments.old.writer_name }
    requires only { half.old.value.segments ≡ unfinished_of filling.old ∷ [] }
    requires own { HaveOwnIds segments.old.blocks }
    ensures runs { runs_of segments.new.live ≡ joined (runs_of segments.old.live ++ run_in filling.old.label.id filling.old.draft) }
    ensures segments { SendsOnly segments.old segments.new }
    ensures half { half.new.value ≡ record half.old.value { segments = unfinished_of filling.new ∷ [] } }
    ensures label { filling.new.label ≡ filling.old.label }
    ensures spare { filling.new.spare ≡ filling.old.spare }
    ensures draft { filling.new.draft ≡ [] }
    ensures filled { AreFilled half.old.value.hint segments.old.live → AreFilled half.old.value.hint segments.new.live }
    ensures pair { half.new.name ≡ segments.new.writer_name }
    ensures name { half.new.name ≡ half.old.name }
{
    segments.order();
    if filling.draft_len() > 0 {
        segments.commit(filling, half);
    }
}
