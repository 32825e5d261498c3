//! The end of a segment that reads.

ghost use Rattle.std.specs.Prelude.{◌≡◌, ℕ, ◌+◌, ◌-◌, ◌≤◌, [], ◌∷◌, ◌++◌, length, take, drop, max};
ghost use Rattle.std.specs.Vec.{vec_len, vec_ptr};
ghost use mathlib.Core.List.{IsPrefix};
ghost use Rattle.seg_block.specs.Memory.{IsBlockSize, place};
ghost use Rattle.seg_block.specs.Rule.{front};
ghost use Rattle.seg_block.specs.Gates.{IsKnownOf};

use crate::block::Block;
use crate::gate::Gate;
use crate::known::Known;
use crate::run::{Run, vacate};
use crate::tail::{Mark, TailNote};
use core::mem::replace_with;
use std::alloc::Global;
use std_alloc::vec::Lodged;

/// The end that reads what was published, in place.
pub struct SegFront {
    pub(crate) gate: Gate,
    // All that was fetched, of which the first `shown` bytes are seen.
    kept: Vec<u8, Lodged>,
    shown: usize,
    start: Known,
    id: u64,
    size: usize,
    alloc: Global,
    ghost reads: { (gate.role ≡ front) × (gate.names.size ≡ size) × IsBlockSize size × IsKnownOf gate start },
    ghost fetched: { (kept.items ≡ gate.log) × (shown ≤ vec_len kept) × (vec_len kept ≤ size) },
    ghost lies: { vec_ptr kept ≡ place gate.base 0 },
}

/// What the front answers when it has ended.
#[derive(Drop)]
pub enum FrontEnd {
    /// The tail had ended before, and this is the block.
    Last(Block),
    /// The tail had not ended, and it gets the block.
    Early(FrontNote),
}

/// That the front ended before the tail.
#[derive(Drop)]
pub struct FrontNote {
    pub(crate) known: Known,
    ghost first: { known.first ≡ front ∷ [] },
}

impl Drop for SegFront {
    fn drop(self) {
        let _end = self.finish();
    }
}

impl SegFront {
    ghost use Rattle.seg_block.specs.Words.{seen, acquired, marked, front_part, mark_part, note_part, SameFront, FrontEnds, IfEarly, IsTheBlock};

    pub(crate) fn start(
        mut gate: Gate,
        none: Run,
        start: Known,
        id: u64,
        size: usize,
        alloc: Global,
    ) -> SegFront
        requires end { (gate.role ≡ front) × (gate.names.size ≡ size) × IsBlockSize size
            × IsKnownOf gate start × (gate.log ≡ []) }
        requires lies { (none.ptr ≡ place gate.base 0) × (none.items ≡ []) }
        ensures { (result.gate ≡ gate) × (result.shown ≡ 0) × (result.start ≡ start)
            × (result.id ≡ id) × (result.size ≡ size) }
    {
        let kept = gate.house(0, 0, none);
        SegFront {
            gate,
            kept,
            shown: 0,
            start,
            id,
            size,
            alloc,
        }
    }

    /// Loads the watermark: all that is published is seen. The answer is how many bytes that is.
    pub fn look(&mut self) -> usize
        ensures front { SameFront self.old self.new }
        ensures seen { IsPrefix (seen self.old) (seen self.new) }
        ensures fresh { IsPrefix (acquired self.old) (seen self.new) }
        ensures acquired { acquired self.new ≡ acquired self.old }
        ensures value { result ≡ length (seen self.new) }
    {
        let start = self.start.again();
        replace_with(self, start, SegFront::fetched);
        self.shown = self.kept.len();
        self.shown
    }

    /// From here on each look shows at least what the mark stands for. It does nothing at run time.
    ///
    /// The mark that was acquired last counts.
    pub fn acquire(&mut self, mark: &Mark)
        requires { mark_part mark.now ≡ front_part self.old }
        ensures front { SameFront self.old self.new }
        ensures seen { seen self.new ≡ seen self.old }
        ensures acquired { acquired self.new ≡ marked mark.now }
    {
        self.start = mark.known.again();
    }

    /// What the mark stands for is seen too, and nothing that is longer.
    pub fn learn(&mut self, mark: &Mark)
        requires { mark_part mark.now ≡ front_part self.old }
        ensures front { SameFront self.old self.new }
        ensures seen { IsPrefix (seen self.old) (seen self.new) }
        ensures mark { IsPrefix (marked mark.now) (seen self.new) }
        ensures longer { length (seen self.new) ≡ max (length (seen self.old)) (length (marked mark.now)) }
        ensures acquired { acquired self.new ≡ acquired self.old }
    {
        replace_with(self, mark.known.again(), SegFront::fetched);
        self.shown = self.shown.max(mark.len);
    }

    // Fetches all that is published, and shows no more of it.
    fn fetched(self, known: Known) -> (SegFront, ())
        requires { IsKnownOf self.gate known }
        ensures { SameFront self result.0 × (result.0.shown ≡ self.shown)
            × (result.0.start ≡ self.start)
            × IsPrefix self.gate.log result.0.gate.log × IsPrefix known.log result.0.gate.log }
    {
        let SegFront {
            mut gate,
            kept,
            shown,
            start,
            id,
            size,
            alloc,
        } = self;
        let (found, run) = gate.look(vacate(kept), known);
        let kept = gate.house(0, (found / 4) as usize, run);
        let front = SegFront {
            gate,
            kept,
            shown,
            start,
            id,
            size,
            alloc,
        };
        (front, ())
    }

    /// What is seen, in the segment itself.
    pub fn seen(&self) -> &[u8]
        ensures { result.now ≡ seen self.now }
    {
        &self.kept.as_slice()[..self.shown]
    }

    /// Ends the front, and gives the block, since the tail has ended.
    pub fn finish_with(self, note: TailNote) -> Block
        requires { note_part note ≡ front_part self }
        ensures { IsTheBlock self result }
    {
        let TailNote { known } = note;
        match self.left(known) {
            FrontEnd::Last(block) => block,
            FrontEnd::Early(_) => unreachable!(),
        }
    }

    /// Ends the front.
    pub fn finish(self) -> FrontEnd
        ensures { FrontEnds self result }
    {
        let known = self.start.again();
        self.left(known)
    }

    fn left(self, known: Known) -> FrontEnd
        requires { IsKnownOf self.gate known }
        ensures end { FrontEnds self result }
        ensures early { IfEarly result (λ note. IsPrefix known.first note.known.first) }
    {
        let SegFront {
            mut gate,
            kept,
            shown: _,
            start: _,
            id,
            size,
            alloc,
        } = self;
        let (found, known) = gate.leave(vacate(kept), known, 2);
        if found % 4 == 0 {
            gate.let_go();
            return FrontEnd::Early(FrontNote { known });
        }
        let (home, bytes) = gate.close();
        FrontEnd::Last(Block::whole(home, bytes, id, size, alloc))
    }
}
