//! Bytes of a segment that nothing else can reach.

ghost use Rattle.std.specs.Prelude.{◌≡◌, ℕ, List, length};
ghost use Rattle.std.specs.Vec.{vec_ptr};
ghost use denote.RawPtr.{Ptr};
ghost use Rattle.seg_block.specs.Memory.{run_owns};

use std::marker::Model;
use std_alloc::vec::Lodged;

// The bytes `items` at `ptr`. It takes no memory itself.
#[derive(Drop)]
pub(crate) struct Run {
    ghost ptr: { Ptr },
    ghost items: { List ℕ },
}

impl Model for Run {
    ghost also_owns = { λ run. run_owns run.ptr run.items };
}

// Its bytes are reached by their owner alone.
unsafe impl Send for Run {}

// The bytes under a `Vec` that neither grows nor frees them.
pub(crate) fn vacate(vec: Vec<u8, Lodged>) -> Run
    ensures { (result.ptr ≡ vec_ptr vec) × (result.items ≡ vec.items) }
{
    let _len = vec.dislodge();
    Run {}
}
