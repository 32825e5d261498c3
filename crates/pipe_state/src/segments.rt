//! What the two ends share of a pipe's segments.

ghost use Rattle.std.specs.Prelude.{◌≡◌, ◌≤◌, ◌+◌, ◌^◌, ◌∷◌, ◌++◌, true, false, List, [], length, drop, Some, IfSome, IfNone, IfOk, OnOk, OnErr};
ghost use Rattle.std.specs.Vec.{vec_len, vec_capacity};
ghost use Rattle.circular_buffer.specs.Buffer.{buffer};
ghost use Rattle.pipe_state.specs.Fetched.{all_fetched};
ghost use Rattle.pipe_state.specs.Released.{block_in, bytes_in, names_of};
ghost use Rattle.pipe_state.specs.Sending.{committed_in, with_committed};
ghost use Rattle.pipe_state.specs.Sides.{reader_has, unfinished_of};
ghost use Rattle.pipe_state.specs.Segments.{AreInOrder, AreOf, Releases, Starts, all_home, reads_none, sent_in, with_next, with_one, without_first, writes_none};

use crate::chain::Chain;
use crate::filling::Filling;
use crate::inbox::Inbox;
use crate::reading::Reading;
use crate::rings::{put_before, put_behind};
use crate::sides::{MadeOf, ReaderSide, WriterSide};
use circular_buffer::HeapCircularBuffer;
use ghost_halves::{PrivateHalf, SharedHalf, Update, new_halves, update_halves};
use seg_block::Block;
use span_seq::Spans;
use std::alloc::{AllocError, Global};
use std::marker::{Brand, Model};

/// The blocks at home, and what is on its way to the reader.
#[derive(Drop)]
pub struct Segments {
    home: HeapCircularBuffer<Block>,
    inbox: Inbox,
    reader: SharedHalf<ReaderSide>,
    writer: SharedHalf<WriterSide>,
    // How many segments the reader has.
    fetched: usize,
    // Known to contracts alone.
    made_of: SharedHalf<MadeOf>,
}

impl Model for Segments {
    ghost use Rattle.std.specs.Prelude.{◌≡◌, length};
    ghost use Rattle.pipe_state.specs.Fetched.{arrive};
    ghost use Rattle.pipe_state.specs.Released.{names_of};
    ghost use Rattle.pipe_state.specs.Segments.{SegmentsState, IsSegments};

    ghost Value = { SegmentsState };

    ghost view = { λ s. record {
      home = names_of s.home.items;
      live = arrive s.reader.value.segments s.inbox.arrivals.items;
      reader = s.reader.value;
      writer = s.writer.value;
      reader_name = s.reader.name;
      writer_name = s.writer.name;
      blocks = s.made_of.value;
    } };

    ghost invariant = { λ s. IsSegments s.home s.inbox.arrivals s.reader.value s.writer.value s.made_of.value × (s.fetched ≡ length s.reader.value.segments) };
}

impl Segments {
    /// The segments of these blocks, all at home, and what each end knows of them. The blocks are moved out of the list, whose
    /// room stays. For want of memory, which is the one refusal, the list is as it was.
    pub fn make(
        alloc: Global,
        blocks: &mut Vec<Block>,
    ) -> Result<(Segments, PrivateHalf<ReaderSide>, PrivateHalf<WriterSide>), AllocError>
        ensures made { IfOk result (λ made. made.0 ≡ all_home (names_of blocks.old.items) made.1.name made.2.name) }
        ensures reader { IfOk result (λ made. made.1.value ≡ reads_none) }
        ensures writer { IfOk result (λ made. made.2.value ≡ writes_none) }
        ensures moved { OnOk result (blocks.new.items ≡ []) }
        ensures room { vec_capacity blocks.new ≡ vec_capacity blocks.old }
        ensures unchanged { OnErr result (blocks.new ≡ blocks.old) }
    {
        let count = blocks.len();
        let mut home = HeapCircularBuffer::with_capacity(alloc, count)?;
        let inbox = Inbox::make(alloc, count)?;
        let (mut made_of, mut made) = new_halves::<MadeOf>();
        note_blocks::<Brand>(blocks.as_slice(), &mut made_of, &mut made);
        bring_home(blocks, &mut home);
        let (reader, readers) = new_halves::<ReaderSide>();
        let (writer, writers) = new_halves::<WriterSide>();
        let segments = Segments {
            home,
            inbox,
            reader,
            writer,
            fetched: 0,
            made_of,
        };
        Ok((segments, readers, writers))
    }

    /// The blocks that are at home, put behind those in the list, which has room for them.
    pub fn into_blocks(self, list: &mut Vec<Block>)
        requires room { vec_len list.old + length self.home ≤ vec_capacity list.old }
        ensures { names_of list.new.items ≡ names_of list.old.items ++ self.home }
    {
        let Segments {
            mut home,
            inbox: _,
            reader: _,
            writer: _,
            fetched: _,
            made_of: _,
        } = self;
        for _ in 0..home.len() {
            match home.pop_front() {
                Some(block) => list.push_reserved(block),
                None => unreachable!(),
            }
        }
    }

    /// How many segments are at home.
    pub fn home_len(&self) -> usize
        ensures { result ≡ length self.now.home }
    {
        self.home.len()
    }

    /// How many segments there are.
    pub fn count(&self) -> usize
        ensures { result ≡ length self.now.blocks }
    {
        self.home.capacity()
    }

    /// How many segments the reader has.
    pub fn fetched_len(&self) -> usize
        ensures { result ≡ length self.now.reader.segments }
    {
        self.fetched
    }

    /// Which segments are finished and which are not, and that each block is in one place. It does nothing at run time.
    #[inline]
    pub fn order(&self)
        ensures { AreInOrder self.now.home self.now.live self.now.writer.segments self.now.blocks }
    {
        let _ = &self.home;
    }

    /// The segments that the reader has lie in the pipe's blocks. It does nothing at run time.
    #[inline]
    pub fn reader_blocks(&self)
        ensures { AreOf self.now.blocks self.now.reader.segments }
    {
        let _ = &self.home;
    }

    /// What the writer has is what the ends share of it. It does nothing at run time.
    #[inline]
    pub fn agree(&mut self, half: &mut PrivateHalf<WriterSide>)
        requires pair { half.old.name ≡ self.old.writer_name }
        ensures same { half.old.value ≡ self.old.writer }
        ensures segments { self.new ≡ self.old }
        ensures half { (half.new.value ≡ half.old.value) × (half.new.name ≡ half.old.name) }
    {
        update_halves::<WriterSide, Brand>(&mut self.writer, half);
    }

    /// What the reader has is what the ends share of it. It does nothing at run time.
    #[inline]
    pub fn agree_reader(&mut self, reading: &mut Reading)
        requires pair { reading.old.half.name ≡ self.old.reader_name }
        ensures same { reader_has reading.old.chain ≡ self.old.reader }
        ensures segments { self.new ≡ self.old }
        ensures chain { reading.new.chain ≡ reading.old.chain }
        ensures pair { reading.new.half.name ≡ reading.old.half.name }
    {
        update_halves::<ReaderSide, Brand>(&mut self.reader, &mut reading.half);
    }

    /// A segment that was at home, for the writer, whose last one lacks room for `hint` bytes.
    pub fn take(&mut self, hint: usize, half: &mut PrivateHalf<WriterSide>) -> Option<Filling>
        requires pair { half.old.name ≡ self.old.writer_name }
        ensures some { IfSome result (λ f. Starts (self.old.home) f (self.new.home) × (self.new ≡ record self.old { home = self.new.home; writer = with_next f hint self.old.writer })) }
        ensures none { IfNone result ((self.old.home ≡ []) × (self.new ≡ self.old)) }
        ensures same { half.old.value ≡ self.old.writer }
        ensures half { half.new.value ≡ self.new.writer }
        ensures pair { half.new.name ≡ self.new.writer_name }
    {
        match self.home.pop_front() {
            Some(block) => {
                let filling = Filling::start(block);
                note_next::<Brand>(&filling, hint, &mut self.writer, half);
                Some(filling)
            }
            None => {
                update_halves::<WriterSide, Brand>(&mut self.writer, half);
                None
            }
        }
    }

    /// The draft of the one segment that the writer has not finished is committed.
    pub fn commit(&mut self, filling: &mut Filling, half: &mut PrivateHalf<WriterSide>)
        requires pair { half.old.name ≡ self.old.writer_name }
        requires only { half.old.value.segments ≡ unfinished_of filling.old ∷ [] }
        ensures filling { filling.new ≡ with_committed filling.old }
        ensures same { half.old.value ≡ self.old.writer }
        ensures state { self.new ≡ record self.old { live = sent_in filling.old.sent (committed_in filling.old false) self.old.live; writer = with_one filling.new self.old.writer } }
        ensures half { half.new.value ≡ self.new.writer }
        ensures pair { half.new.name ≡ self.new.writer_name }
    {
        let arrival = filling.commit();
        note_one::<Brand>(filling, &mut self.writer, half);
        self.inbox.put(arrival.front, arrival.mark, arrival.end);
    }

    /// The draft of the first segment that the writer has not finished is committed, and the segment is finished.
    pub fn finish(&mut self, filling: Filling, half: &mut PrivateHalf<WriterSide>)
        requires pair { half.old.name ≡ self.old.writer_name }
        requires first { half.old.value.segments ≡ unfinished_of filling ∷ drop 1 half.old.value.segments }
        ensures same { half.old.value ≡ self.old.writer }
        ensures state { self.new ≡ record self.old { live = sent_in filling.sent (committed_in filling true) self.old.live; writer = without_first self.old.writer } }
        ensures half { half.new.value ≡ self.new.writer }
        ensures pair { half.new.name ≡ self.new.writer_name }
    {
        update_halves::<WriterSide, Brand>(&mut self.writer, half);
        let arrival = filling.finish();
        self.inbox.put(arrival.front, arrival.mark, arrival.end);
    }

    /// The one segment that the writer has, of which nothing was committed, goes home. A draft is given up.
    pub fn give_back(&mut self, filling: Filling, half: &mut PrivateHalf<WriterSide>)
        requires pair { half.old.name ≡ self.old.writer_name }
        requires only { half.old.value.segments ≡ unfinished_of filling ∷ [] }
        requires unsent { filling.sent ≡ false }
        ensures same { half.old.value ≡ self.old.writer }
        ensures state { self.new ≡ record self.old { home = self.old.home ++ block_in filling.label ∷ []; writer = without_first self.old.writer } }
        ensures half { half.new.value ≡ self.new.writer }
        ensures pair { half.new.name ≡ self.new.writer_name }
    {
        update_halves::<WriterSide, Brand>(&mut self.writer, half);
        put_behind(&mut self.home, filling.give_up());
    }

    /// The reader gets all that was sent to it. No byte moves.
    pub fn fetch(&mut self, reading: &mut Reading)
        requires pair { reading.old.half.name ≡ self.old.reader_name }
        requires room { length self.old.blocks ≤ reading.old.chain.capacity }
        ensures state { self.new ≡ record self.old { reader = record { segments = self.old.live; skip = self.old.reader.skip } } }
        ensures same { reader_has reading.old.chain ≡ self.old.reader }
        ensures chain { reader_has reading.new.chain ≡ self.new.reader }
        ensures capacity { reading.new.chain.capacity ≡ reading.old.chain.capacity }
        ensures pair { reading.new.half.name ≡ self.new.reader_name }
    {
        update_halves::<ReaderSide, Brand>(&mut self.reader, &mut reading.half);
        reading.chain.fetch(&mut self.inbox.arrivals);
        self.fetched = reading.chain.count();
        note_chain::<Brand>(&reading.chain, &mut self.reader, &mut reading.half);
    }

    /// The reader gives up `n` more bytes. The segments that are finished, and of which all is given up, go home.
    pub fn release(&mut self, n: usize, reading: &mut Reading)
        requires pair { reading.old.half.name ≡ self.old.reader_name }
        requires within { reading.old.chain.skip + n ≤ length (bytes_in (all_fetched reading.old.chain.links)) }
        ensures state { Releases n self.old self.new }
        ensures same { reader_has reading.old.chain ≡ self.old.reader }
        ensures chain { reader_has reading.new.chain ≡ self.new.reader }
        ensures capacity { reading.new.chain.capacity ≡ reading.old.chain.capacity }
        ensures pair { reading.new.half.name ≡ self.new.reader_name }
    {
        update_halves::<ReaderSide, Brand>(&mut self.reader, &mut reading.half);
        reading.chain.release(n, &mut self.home);
        self.fetched = reading.chain.count();
        note_chain::<Brand>(&reading.chain, &mut self.reader, &mut reading.half);
    }
}

// Moves all blocks of a list to the front of a ring that has room for them.
fn bring_home(blocks: &mut Vec<Block>, home: &mut HeapCircularBuffer<Block>)
    requires { vec_len blocks.old + length home.old.items ≤ home.old.capacity }
    ensures moved { blocks.new.items ≡ [] }
    ensures room { vec_capacity blocks.new ≡ vec_capacity blocks.old }
    ensures home { home.new ≡ buffer (blocks.old.items ++ home.old.items) home.old.capacity }
{
    for _ in 0..blocks.len() {
        match blocks.pop() {
            Some(block) => put_before(home, block),
            None => unreachable!(),
        }
    }
}

// Both halves say which blocks these are.
fn note_blocks<A: Update<MadeOf>>(
    blocks: &[Block],
    shared: &mut SharedHalf<MadeOf>,
    private: &mut PrivateHalf<MadeOf>,
)
    requires pair { private.old.name ≡ shared.old.name }
    requires now { A.to shared.old.value ≡ names_of blocks.now }
    ensures { shared.new.value ≡ names_of blocks.now }
{
    update_halves::<MadeOf, A>(shared, private);
}

// Both halves say what the chain is now.
fn note_chain<A: Update<ReaderSide>>(
    chain: &Chain,
    shared: &mut SharedHalf<ReaderSide>,
    private: &mut PrivateHalf<ReaderSide>,
)
    requires pair { private.old.name ≡ shared.old.name }
    requires now { A.to shared.old.value ≡ reader_has chain.now }
    ensures shared { shared.new.value ≡ reader_has chain.now }
    ensures private { private.new.value ≡ reader_has chain.now }
    ensures names { (shared.new.name ≡ shared.old.name) × (private.new.name ≡ private.old.name) }
{
    update_halves::<ReaderSide, A>(shared, private);
}

// Both halves say that the writer has this one alone.
fn note_one<A: Update<WriterSide>>(
    filling: &Filling,
    shared: &mut SharedHalf<WriterSide>,
    private: &mut PrivateHalf<WriterSide>,
)
    requires pair { private.old.name ≡ shared.old.name }
    requires now { A.to shared.old.value ≡ with_one filling.now shared.old.value }
    ensures same { private.old.value ≡ shared.old.value }
    ensures shared { shared.new.value ≡ with_one filling.now shared.old.value }
    ensures private { private.new.value ≡ shared.new.value }
    ensures names { (shared.new.name ≡ shared.old.name) × (private.new.name ≡ private.old.name) }
{
    update_halves::<WriterSide, A>(shared, private);
}

// Both halves say that the writer has one more.
fn note_next<A: Update<WriterSide>>(
    filling: &Filling,
    hint: usize,
    shared: &mut SharedHalf<WriterSide>,
    private: &mut PrivateHalf<WriterSide>,
)
    requires pair { private.old.name ≡ shared.old.name }
    requires now { A.to shared.old.value ≡ with_next filling.now hint shared.old.value }
    ensures same { private.old.value ≡ shared.old.value }
    ensures shared { shared.new.value ≡ with_next filling.now hint shared.old.value }
    ensures private { private.new.value ≡ shared.new.value }
    ensures names { (shared.new.name ≡ shared.old.name) × (private.new.name ≡ private.old.name) }
{
    update_halves::<WriterSide, A>(shared, private);
}
