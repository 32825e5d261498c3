//! Room for values of one type, from an allocator.

ghost use Rattle.std.specs.Prelude.{◌≡◌, ℕ, IfOk};
ghost use Rattle.seg_block.specs.Memory.{land_owns, Fits};

use std::alloc::{AllocError, Allocator};
use std::marker::{Model, PhantomData};
use std::mem::{align_of, size_of};

// Room for `len` values at `ptr`, and the right to give it back to `heap`.
pub(crate) struct Land<T, A: Allocator> {
    pub(crate) ptr: *mut T,
    pub(crate) by: PhantomData<A>,
    pub(crate) ghost len: { ℕ },
    pub(crate) ghost heap: { A },
}

impl<T, A: Allocator> Model for Land<T, A> {
    ghost also_owns = { λ land. land_owns (A.dealloc_token land.heap) T.row land.ptr land.len };
}

impl<T, A: Allocator> Land<T, A> {
    pub(crate) fn new(alloc: &A, len: usize) -> Result<Land<T, A>, AllocError>
        requires { Fits T.row len }
        ensures { IfOk result (λ land. (land.len ≡ len) × (land.heap ≡ alloc.now)) }
    {
        match alloc.allocate(len * size_of::<T>(), align_of::<T>()) {
            Ok(room) => Ok(Land {
                ptr: room as *mut T,
                by: PhantomData,
            }),
            Err(refused) => Err(refused),
        }
    }

    pub(crate) fn free(self, alloc: &A, len: usize)
        requires { (self.len ≡ len) × (self.heap ≡ alloc.now) }
    {
        let Land { ptr, by: _ } = self;
        unsafe {
            alloc.deallocate(ptr as *mut u8, len * size_of::<T>(), align_of::<T>());
        }
    }
}
