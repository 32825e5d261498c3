//! Sets of any number of bytes, as a bit for each byte.

ghost use Rattle.std.specs.Prelude.{◌≡◌, ◌||◌, ◌==◌, ◌/◌, ◌%◌, ◌^◌, ℕ, ◌<◌, map, slice_index};
ghost use Rattle.std.specs.Simd.Lanes.{Each1};
ghost use Rattle.byte_kernels.specs.ByteSet.{has, row_of};

use crate::byte_test::ByteTest;
use std::simd::prelude::*;

// The bits of a row, twice.
const COLUMNS: [u8; 16] = [1, 2, 4, 8, 16, 32, 64, 128, 1, 2, 4, 8, 16, 32, 64, 128];

/// A bit for each byte that there is, in rows of 8 bytes that have their low half and their highest bit alike.
#[derive(Clone, Copy, Debug, PartialEq, Eq)]
pub(crate) struct Table {
    rows: [u8; 32],
}

impl Table {
    /// The set that has no byte.
    pub(crate) const EMPTY: Table = Table { rows: [0; 32] };

    /// The set with one more byte.
    pub(crate) fn with(self, byte: u8) -> Table
        ensures { (other : ℕ) → has result other ≡ (has self other || other == byte) }
    {
        let mut rows = self.rows;
        rows[row(byte)] |= 1 << (byte / 16 % 8);
        Table { rows }
    }
}

// The index of the row that has a byte's bit.
#[inline(always)]
fn row(byte: u8) -> usize
    ensures row { result ≡ row_of byte }
    ensures within { result < 32 }
{
    let byte = usize::from(byte);
    byte % 16 + 16 * (byte / 128)
}

impl ByteTest for Table {
    ghost meets = { has };

    #[inline(always)]
    fn byte(&self, byte: u8) -> bool {
        (self.rows[row(byte)] >> (byte / 16 % 8)) & 1 == 1
    }

    #[inline(always)]
    fn lanes(&self, bytes: u8x16) -> u8x16 {
        let columns = columns_of(bytes);
        (self.rows_of(bytes) & columns)
            .simd_eq(columns)
            .select(u8x16::splat(255), u8x16::splat(0))
    }
}

impl Table {
    // The row of each byte.
    #[inline(always)]
    fn rows_of(&self, bytes: u8x16) -> u8x16
        ensures { result ≡ map (λ byte. slice_index self.now.rows (row_of byte)) bytes }
    {
        let at = low_halves(bytes);
        let front = looked_up(u8x16::from_slice(&self.rows[..16]), at);
        let back = looked_up(u8x16::from_slice(&self.rows[16..]), at);
        bytes.simd_lt(u8x16::splat(128)).select(front, back)
    }
}

// The bit of each byte in its row, alone.
#[inline(always)]
fn columns_of(bytes: u8x16) -> u8x16
    ensures { result ≡ map (λ byte. 2 ^ (byte / 16 % 8)) bytes }
{
    looked_up(u8x16::from_array(COLUMNS), high_halves(bytes))
}

#[inline(always)]
fn low_halves(bytes: u8x16) -> u8x16
    ensures value { result ≡ map (λ byte. byte % 16) bytes }
    ensures small { Each1 (λ half. half < 16) result }
{
    bytes & u8x16::splat(15)
}

#[inline(always)]
fn high_halves(bytes: u8x16) -> u8x16
    ensures value { result ≡ map (λ byte. byte / 16) bytes }
    ensures small { Each1 (λ half. half < 16) result }
{
    bytes >> u8x16::splat(4)
}

// What stands in a table of 16 at each index.
#[inline(always)]
fn looked_up(table: u8x16, at: u8x16) -> u8x16
    requires { Each1 (λ index. index < 16) at }
    ensures { result ≡ map (λ index. slice_index table index) at }
{
    table.swizzle_dyn(at)
}
