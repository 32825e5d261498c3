//! The loan of the writer's free part.

ghost use Rattle.std.specs.Prelude.{◌≡◌};
ghost use Rattle.std.specs.Borrow.{sem};
ghost use Rattle.pipe_state.specs.WritingLending.{LendsWriting};

use crate::writing::Writing;

impl Writing {
    /// The free part of the segment that it fills, in the segment itself: empty where it has none. What it holds isn't specified.
    pub fn spare_mut(&mut self) -> &mut [u8]
        ensures* lends { sem 𝓛 (LendsWriting self.entry result) }
        ensures value { result.now ≡ self.old.free }
    {
        self.current.spare_mut()
    }
}
