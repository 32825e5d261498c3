//! Searches of a slice for a byte that meets a test.

ghost use Rattle.std.specs.Prelude.{◌≡◌, ◌≤◌, ◌+◌, not, position, length, slice_index, ◌==◌, take, drop, count_by};
ghost use Rattle.byte_kernels.specs.Scan.{last_position};
ghost use Rattle.byte_kernels.specs.Marks.{Marks};

use crate::byte_test::{ByteTest, Just, Not};
use crate::scan::{Places, first, group_of_64, last};
use std::simd::prelude::*;

/// The index of the first byte of `hay` that meets the test.
#[inline(always)]
pub(crate) fn first_with<T: ByteTest>(hay: &[u8], test: &T) -> Option<usize>
    ensures { result ≡ position (T.meets test.now) hay.now }
{
    first(&In { hay, test }, hay.len())
}

/// The index of the last byte of `hay` that meets the test.
#[inline(always)]
pub(crate) fn last_with<T: ByteTest>(hay: &[u8], test: &T) -> Option<usize>
    ensures { result ≡ last_position (T.meets test.now) hay.now }
{
    last(&In { hay, test }, hay.len())
}

/// The index of the first byte of `hay` that doesn't meet the test.
#[inline(always)]
pub(crate) fn first_without<T: ByteTest>(hay: &[u8], test: &T) -> Option<usize>
    ensures { result ≡ position (λ byte. not (T.meets test.now byte)) hay.now }
{
    let test = &Not(test);
    first(&In { hay, test }, hay.len())
}

// The bytes of a slice, as places that meet a test.
#[derive(Drop)]
struct In<'a, T> {
    hay: &'a [u8],
    test: &'a T,
}

impl<T: ByteTest> Places for In<'_, T> {
    ghost count = { λ places. length places.hay.now };

    ghost meets = { λ places place. T.meets places.test.now (slice_index places.hay.now place) };

    #[inline(always)]
    fn at(&self, place: usize) -> bool {
        self.test.byte(self.hay[place])
    }

    #[inline(always)]
    fn group(&self, from: usize) -> u64 {
        let lanes = self.test.lanes(u8x16::from_slice(&self.hay[from..]));
        lanes.simd_ge(u8x16::splat(128)).to_bitmask()
    }
}

/// The index of the first `byte`, where that is likely to be near. The search becomes a part of its caller.
#[inline(always)]
pub fn index_near(hay: &[u8], byte: u8) -> Option<usize>
    ensures { result ≡ position (λ other. other == byte) hay.now }
{
    first_with(hay, &Just(byte))
}

/// Which of the 16 bytes behind the first `from` are `byte`: a bit for each, and the lowest bit for the first.
#[inline(always)]
pub fn marks_near(hay: &[u8], from: usize, byte: u8) -> u64
    requires { from + 16 ≤ length hay.now }
    ensures { Marks (λ place. slice_index hay.now place == byte) from 16 result }
{
    let test = &Just(byte);
    In { hay, test }.group(from)
}

/// The same of 64 bytes.
#[inline(always)]
pub fn marks_near_64(hay: &[u8], from: usize, byte: u8) -> u64
    requires { from + 64 ≤ length hay.now }
    ensures { Marks (λ place. slice_index hay.now place == byte) from 64 result }
{
    let test = &Just(byte);
    group_of_64(&In { hay, test }, from)
}

/// How many bytes of `hay` are `byte`.
#[inline(always)]
pub fn count_of(hay: &[u8], byte: u8) -> usize
    ensures { result ≡ count_by (λ other. other == byte) hay.now }
{
    let mut from = 0;
    let mut count = 0;
    while hay.len() - from >= 16 {
        count += count_lane(hay, from, byte);
        from += 16;
    }
    while from < hay.len() {
        if hay[from] == byte {
            count += 1;
        }
        from += 1;
    }
    count
}

// How many of 16 bytes are `byte`.
#[inline(always)]
fn count_lane(hay: &[u8], from: usize, byte: u8) -> usize
    requires { from + 16 ≤ length hay.now }
    ensures { result ≡ count_by (λ other. other == byte) (take 16 (drop from hay.now)) }
{
    let hits = Just(byte).lanes(u8x16::from_slice(&hay[from..]));
    hits.simd_ge(u8x16::splat(128)).to_bitmask().count_ones() as usize
}
