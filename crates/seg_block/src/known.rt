//! What is known for good of one parting.

ghost use Rattle.std.specs.Prelude.{◌≡◌, ℕ, List};
ghost use denote.RawPtr.{Ptr};
ghost use Rattle.seg_block.specs.Rule.{Names, known_owns};
ghost use denote.Sharing.{said};

use std::marker::Model;

// The published list had reached `log`, and the ends in `first` had ended. It takes no memory.
#[derive(Drop)]
pub(crate) struct Known {
    ghost base: { Ptr },
    ghost names: { Names },
    ghost log: { List ℕ },
    ghost first: { List ℕ },
}

impl Model for Known {
    ghost also_owns = { λ known. known_owns known.base known.names known.log known.first };

    ghost also_shares = { λ known _ _. known_owns known.base known.names known.log known.first };
}

// What is known holds in any thread.
unsafe impl Send for Known {}

unsafe impl Sync for Known {}

impl Known {
    // What is known stays so.
    pub(crate) fn again(&self) -> Known
        ensures { result ≡ self.now }
    {
        Known {}
    }
}
