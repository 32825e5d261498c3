//! The writer of a pipe for one thread.

ghost use Rattle.std.specs.Prelude.{◌≡◌};
ghost use Rattle.std.specs.Borrow.{sem};

use pipe_state::Writing;

// The writer's part, until the writer has completed. From then on the empty list lends an empty free part.
#[derive(Drop)]
pub(crate) enum LocalWriter {
    Going(Writing),
    Completed(Vec<u8>),
}

impl LocalWriter {
    ghost use Rattle.pipe_shared.specs.Local.{free_in};
    ghost use Rattle.pipe_shared.specs.LocalLending.{LendsFree};

    // Its free part: empty where the writer has completed.
    pub fn spare_mut(&mut self) -> &mut [u8]
        ensures* lends { sem 𝓛 (LendsFree self.entry result) }
        ensures value { result.now ≡ free_in self.old }
    {
        match self {
            LocalWriter::Going(writing) => writing.spare_mut(),
            LocalWriter::Completed(none) => none.slice_mut(0..),
        }
    }
}
