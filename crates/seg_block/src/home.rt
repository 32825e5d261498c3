//! A block that is not parted, apart from its bytes.

ghost use Rattle.std.specs.Prelude.{◌≡◌, ℕ, [], length};
ghost use Rattle.std.specs.Vec.{vec_len, vec_ptr, vec_capacity};
ghost use Rattle.seg_block.specs.Memory.{home_owns, IsBlockSize, words_of, place};

use crate::gate::Gate;
use crate::known::Known;
use crate::land::Land;
use crate::run::Run;
use std::alloc::Global;
use std::marker::{Model, PhantomData};
use std_alloc::vec::{Lodged, lodge};

// Room for the watermark of a block of `size` bytes at `base`, and the way back to the allocator. It can't be let go of.
pub(crate) struct Home {
    pub(crate) base: *mut u64,
    ghost size: { ℕ },
}

impl Model for Home {
    ghost also_owns = { λ home. home_owns home.base home.size };
}

// A block is at home in any thread.
unsafe impl Send for Home {}

impl Home {
    ghost use Rattle.seg_block.specs.Gates.{Opens};

    // A block of words as room for the watermark, and as a `Vec` with room for the bytes.
    pub(crate) fn lay(land: Land<u64, Global>, size: usize) -> (Home, Vec<u8, Lodged>)
        requires { IsBlockSize size × (land.len ≡ words_of size) }
        ensures { (result.0.size ≡ size) × (result.1.items ≡ []) × (vec_len result.1 ≡ 0)
            × (vec_capacity result.1 ≡ size) × (vec_ptr result.1 ≡ place result.0.base 0) }
    {
        let Land { ptr: base, by: _ } = land;
        let bytes = unsafe { lodge(base.add(1) as *mut u8, 0, size) };
        (Home { base }, bytes)
    }

    // The block of words again.
    pub(crate) fn raze(self, run: Run, alloc: &Global) -> Land<u64, Global>
        requires { (run.ptr ≡ place self.base 0) × (length run.items ≡ self.size) }
        ensures { (result.len ≡ words_of self.size) × (result.heap ≡ alloc.now) }
    {
        let Home { base } = self;
        let Run {} = run;
        Land {
            ptr: base,
            by: PhantomData,
        }
    }

    // The two ends of a new parting, what is known of it, and no bytes for the front.
    pub(crate) fn open(self) -> (Gate, Gate, Known, Run)
        ensures { Opens self result.0 result.1 result.2 result.3 }
    {
        let Home { base } = self;
        unsafe {
            base.write(0);
        }
        (Gate { base }, Gate { base }, Known {}, Run {})
    }
}
