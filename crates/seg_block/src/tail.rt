//! The end of a segment that writes.

ghost use Rattle.std.specs.Prelude.{◌≡◌, ℕ, ◌+◌, ◌-◌, ◌≤◌, [], ◌∷◌, ◌++◌, length, take, drop};
ghost use Rattle.std.specs.Vec.{vec_len, vec_ptr};
ghost use Rattle.std.specs.Borrow.{sem};
ghost use mathlib.Core.List.{IsPrefix};
ghost use Rattle.seg_block.specs.Memory.{IsBlockSize, place};
ghost use Rattle.seg_block.specs.Rule.{tail};
ghost use Rattle.seg_block.specs.Gates.{IsKnownOf};

use crate::block::Block;
use crate::front::{FrontNote, SegFront};
use crate::gate::Gate;
use crate::known::Known;
use crate::run::{Run, vacate};
use core::mem::replace_with;
use std::alloc::Global;
use std_alloc::vec::Lodged;

/// The end that writes: it fills the free part, and publishes what it filled.
pub struct SegTail {
    gate: Gate,
    // The draft, and then the free part.
    free: Vec<u8, Lodged>,
    drafted: usize,
    published: usize,
    start: Known,
    id: u64,
    size: usize,
    alloc: Global,
    ghost writes: { (gate.role ≡ tail) × (gate.names.size ≡ size) × IsBlockSize size × IsKnownOf gate start },
    ghost counted: { (published ≡ length gate.log) × (published + vec_len free ≡ size) × (drafted ≤ vec_len free) },
    ghost lies: { vec_ptr free ≡ place gate.base published },
}

/// What the tail answers when it has ended.
#[derive(Drop)]
pub enum TailEnd {
    /// The front had ended before, and this is the block.
    Last(Block),
    /// The front had not ended, and it gets the block: with this note at once.
    Note(TailNote),
}

/// That the tail ended before the front.
#[derive(Drop)]
pub struct TailNote {
    pub(crate) known: Known,
    ghost first: { known.first ≡ tail ∷ [] },
}

/// How much had been published at a commit.
#[derive(Drop)]
pub struct Mark {
    pub(crate) known: Known,
    pub(crate) len: usize,
    ghost counted: { len ≡ length known.log },
}

impl Mark {
    ghost use Rattle.seg_block.specs.Words.{marked};

    /// How many bytes had been published.
    pub fn len(&self) -> usize
        ensures { result ≡ length (marked self.now) }
    {
        self.len
    }
}

impl Drop for SegTail {
    fn drop(self) {
        let _end = self.finish();
    }
}

impl SegTail {
    ghost use Rattle.seg_block.specs.Words.{id_of, size_of, identity_of, tail_size, tail_identity, tail_id, published, draft, spare, marked, tail_part, mark_part, note_part, SameTail, LendsSpare, Ends, IfNote, IsBlockOfTail, seen, front_part, front_note_part};

    pub(crate) fn start(
        mut gate: Gate,
        bytes: Run,
        start: Known,
        id: u64,
        size: usize,
        alloc: Global,
    ) -> SegTail
        requires end { (gate.role ≡ tail) × (gate.names.size ≡ size) × IsBlockSize size
            × IsKnownOf gate start × (gate.log ≡ []) }
        requires lies { (bytes.ptr ≡ place gate.base 0) × (length bytes.items ≡ size) }
        ensures { (result.gate ≡ gate) × (result.drafted ≡ 0) × (result.id ≡ id) × (result.size ≡ size) }
    {
        let free = gate.house(0, size, bytes);
        SegTail {
            gate,
            free,
            drafted: 0,
            published: 0,
            start,
            id,
            size,
            alloc,
        }
    }

    /// How many bytes are free: the size less the published bytes and the draft.
    pub fn room(&self) -> usize
        ensures value { length (published self.now) + length (draft self.now) + result ≡ tail_size self.now }
        ensures spare { result ≡ length (spare self.now) }
    {
        self.free.len() - self.drafted
    }

    /// How many bytes are in the draft.
    pub fn draft_len(&self) -> usize
        ensures { result ≡ length (draft self.now) }
    {
        self.drafted
    }

    /// The free part of the segment itself. What it holds isn't specified.
    pub fn spare_mut(&mut self) -> &mut [u8]
        ensures* writes_back { sem 𝓛 (LendsSpare self.entry result) }
        ensures value { result.now ≡ spare self.old }
    {
        let from = self.drafted;
        self.free.slice_mut(from..)
    }

    /// Adds the first `n` bytes of the free part, as they are now, to the draft.
    pub fn advance(&mut self, n: usize)
        requires { n ≤ length (spare self.old) }
        ensures tail { SameTail self.old self.new }
        ensures published { published self.new ≡ published self.old }
        ensures draft { draft self.new ≡ draft self.old ++ take n (spare self.old) }
        ensures spare { spare self.new ≡ drop n (spare self.old) }
    {
        self.drafted += n;
    }

    /// Publishes the draft.
    pub fn commit(&mut self) -> Mark
        ensures tail { SameTail self.old self.new }
        ensures published { published self.new ≡ published self.old ++ draft self.old }
        ensures draft { draft self.new ≡ [] }
        ensures spare { spare self.new ≡ spare self.old }
        ensures mark { (mark_part result ≡ tail_part self.old) × (marked result ≡ published self.new) }
    {
        replace_with(self, (), SegTail::committed)
    }

    fn committed(self, _unit: ()) -> (SegTail, Mark)
        ensures tail { SameTail self result.0 }
        ensures published { published result.0 ≡ published self ++ draft self }
        ensures draft { draft result.0 ≡ [] }
        ensures spare { spare result.0 ≡ spare self }
        ensures mark { (mark_part result.1 ≡ tail_part self) × (marked result.1 ≡ published result.0) }
    {
        let SegTail {
            mut gate,
            free,
            drafted,
            published,
            start,
            id,
            size,
            alloc,
        } = self;
        let (rest, known) = gate.commit(vacate(free), drafted as u64);
        let len = published + drafted;
        let free = gate.house(len, size - len, rest);
        let tail = SegTail {
            gate,
            free,
            drafted: 0,
            published: len,
            start,
            id,
            size,
            alloc,
        };
        (tail, Mark { known, len })
    }

    /// What a front of this segment has seen is a front part of what was published. It does nothing at run time.
    pub fn covers(&mut self, front: &mut SegFront)
        requires { front_part front.old ≡ tail_part self.old }
        ensures tail { self.new ≡ self.old }
        ensures front { front.new ≡ front.old }
        ensures seen { IsPrefix (seen front.old) (published self.old) }
    {
        self.gate.agree(&mut front.gate);
    }

    /// Ends the tail. A draft is given up: it is never published.
    pub fn finish(self) -> TailEnd
        ensures { Ends self result }
    {
        let known = self.start.again();
        self.left(known)
    }

    /// Ends the tail, and gives the block, since the front has ended.
    pub fn finish_with(self, note: FrontNote) -> Block
        requires { front_note_part note ≡ tail_part self }
        ensures { IsBlockOfTail self result }
    {
        let FrontNote { known } = note;
        match self.left(known) {
            TailEnd::Last(block) => block,
            TailEnd::Note(_) => unreachable!(),
        }
    }

    fn left(self, known: Known) -> TailEnd
        requires { IsKnownOf self.gate known }
        ensures end { Ends self result }
        ensures note { IfNote result (λ note. IsPrefix known.first note.known.first) }
    {
        let SegTail {
            mut gate,
            free,
            drafted: _,
            published: _,
            start: _,
            id,
            size,
            alloc,
        } = self;
        let (found, known) = gate.leave(vacate(free), known, 1);
        if found % 4 == 0 {
            gate.let_go();
            return TailEnd::Note(TailNote { known });
        }
        let (home, bytes) = gate.close();
        TailEnd::Last(Block::whole(home, bytes, id, size, alloc))
    }
}
