//! Tests of bytes, of one or of 16 at a time.

ghost use Rattle.std.specs.Prelude.{◌≡◌, ◌==◌, ◌&&◌, ◌||◌, ℕ, Bool, not, nat_le};
ghost use Rattle.byte_kernels.specs.Marks.{all_bits_where};

use std::simd::prelude::*;

/// A test of a byte.
pub(crate) trait ByteTest {
    /// The test.
    ghost meets: { Self → ℕ → Bool };

    /// Whether a byte meets it.
    fn byte(&self, byte: u8) -> bool
        ensures { result ≡ meets self.now byte };

    /// Which of 16 bytes meet it: a lane has all bits where its byte does, and none where it doesn't.
    fn lanes(&self, bytes: u8x16) -> u8x16
        ensures { result ≡ all_bits_where (meets self.now) bytes };
}

/// The test of being one byte.
#[derive(Clone, Copy, Debug, PartialEq, Eq)]
pub(crate) struct Just(pub(crate) u8);

impl ByteTest for Just {
    ghost meets = { λ just byte. byte == just.0 };

    #[inline(always)]
    fn byte(&self, byte: u8) -> bool {
        byte == self.0
    }

    #[inline(always)]
    fn lanes(&self, bytes: u8x16) -> u8x16 {
        bytes
            .simd_eq(u8x16::splat(self.0))
            .select(u8x16::splat(255), u8x16::splat(0))
    }
}

/// The test of lying in a range, its two ends included.
#[derive(Clone, Copy, Debug)]
pub(crate) struct Within {
    pub(crate) low: u8,
    pub(crate) high: u8,
}

impl ByteTest for Within {
    ghost meets = { λ range byte. nat_le range.low byte && nat_le byte range.high };

    #[inline(always)]
    fn byte(&self, byte: u8) -> bool {
        self.low <= byte && byte <= self.high
    }

    #[inline(always)]
    fn lanes(&self, bytes: u8x16) -> u8x16 {
        let from_low = bytes.simd_ge(u8x16::splat(self.low));
        let up_to_high = bytes.simd_le(u8x16::splat(self.high));
        (from_low & up_to_high).select(u8x16::splat(255), u8x16::splat(0))
    }
}

/// The test of meeting one of two tests.
#[derive(Clone, Copy, Debug)]
pub(crate) struct Either<A, B>(pub(crate) A, pub(crate) B);

impl<A: ByteTest, B: ByteTest> ByteTest for Either<A, B> {
    ghost meets = { λ test byte. A.meets test.0 byte || B.meets test.1 byte };

    #[inline(always)]
    fn byte(&self, byte: u8) -> bool {
        self.0.byte(byte) || self.1.byte(byte)
    }

    #[inline(always)]
    fn lanes(&self, bytes: u8x16) -> u8x16 {
        self.0.lanes(bytes) | self.1.lanes(bytes)
    }
}

/// The test of not meeting another test.
#[derive(Drop)]
pub(crate) struct Not<'a, T>(pub(crate) &'a T);

impl<T: ByteTest> ByteTest for Not<'_, T> {
    ghost meets = { λ test byte. not (T.meets test.0.now byte) };

    #[inline(always)]
    fn byte(&self, byte: u8) -> bool {
        !self.0.byte(byte)
    }

    #[inline(always)]
    fn lanes(&self, bytes: u8x16) -> u8x16 {
        self.0.lanes(bytes) ^ u8x16::splat(255)
    }
}
