//! Rings that are never full when something is put in.

ghost use Rattle.std.specs.Prelude.{◌≡◌, ◌<◌, ◌∷◌, ◌++◌, [], length};
ghost use Rattle.circular_buffer.specs.Buffer.{buffer};

use circular_buffer::HeapCircularBuffer;

/// Puts an item behind the others, for which there is room.
pub fn put_behind<T: Drop>(ring: &mut HeapCircularBuffer<T>, item: T)
    requires { length ring.old.items < ring.old.capacity }
    ensures { ring.new ≡ buffer (ring.old.items ++ item ∷ []) ring.old.capacity }
{
    match ring.try_push_back(item) {
        Ok(()) => {}
        Err(_) => unreachable!(),
    }
}

/// Puts an item before the others, for which there is room.
pub fn put_before<T: Drop>(ring: &mut HeapCircularBuffer<T>, item: T)
    requires { length ring.old.items < ring.old.capacity }
    ensures { ring.new ≡ buffer (item ∷ ring.old.items) ring.old.capacity }
{
    match ring.try_push_front(item) {
        Ok(()) => {}
        Err(_) => unreachable!(),
    }
}
