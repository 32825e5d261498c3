//! The segment that the writer fills.

ghost use Rattle.std.specs.Prelude.{◌≡◌, ◌≤◌, length};
ghost use Rattle.std.specs.Borrow.{sem};

use crate::filling::Filling;

// The segment that the writer fills, once it has one. The empty list lends an empty free part.
#[derive(Drop)]
pub enum Current {
    Filling(Filling),
    Untaken(Vec<u8>),
}

impl Current {
    ghost use Rattle.pipe_state.specs.Current.{IsAdvanced, IsWhole, free_in};
    ghost use Rattle.pipe_state.specs.CurrentLending.{LendsRoom};

    // How many bytes are free.
    pub fn room(&self) -> usize
        ensures room { result ≡ length (free_in self.now) }
        ensures size { IsWhole self.now }
    {
        match self {
            Current::Filling(filling) => filling.room(),
            Current::Untaken(none) => none.len(),
        }
    }

    // The first `n` bytes of its free part join the draft.
    pub fn advance(&mut self, n: usize)
        requires { n ≤ length (free_in self.old) }
        ensures { IsAdvanced n self.old self.new }
    {
        match self {
            Current::Filling(filling) => {
                let _room = filling.room();
                filling.advance(n);
            }
            Current::Untaken(_) => {}
        }
    }

    // Its free part: empty where there is none.
    pub fn spare_mut(&mut self) -> &mut [u8]
        ensures* lends { sem 𝓛 (LendsRoom self.entry result) }
        ensures value { result.now ≡ free_in self.old }
    {
        match self {
            Current::Filling(filling) => filling.spare_mut(),
            Current::Untaken(none) => none.slice_mut(0..),
        }
    }
}
