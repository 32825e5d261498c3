//! Searches of a slice, which a sequence makes span by span.

ghost use Rattle.std.specs.Prelude.{◌≡◌, ◌==◌, ℕ, Bool, position};

use memchr::memchr;

/// A search of a slice for the first byte that meets a test.
pub trait Search {
    /// The test.
    ghost meets: { Self → ℕ → Bool };

    /// The index of the first byte of `bytes` that meets the test.
    fn index_in(&self, bytes: &[u8]) -> Option<usize>
        ensures { result ≡ position (meets self.now) bytes.now };
}

/// The search for one byte.
#[derive(Clone, Copy, Debug)]
pub struct Byte(pub u8);

impl Search for Byte {
    ghost meets = { λ byte other. other == byte.0 };

    #[inline]
    fn index_in(&self, bytes: &[u8]) -> Option<usize> {
        memchr(self.0, bytes)
    }
}
