//! The first byte of a slice that lies in a range, or that doesn't.

ghost use Rattle.std.specs.Prelude.{◌≡◌, ◌&&◌, not, nat_le, position};

use crate::byte_test::Within;
use crate::search::{first_with, first_without};

/// The index of the first byte of `hay` from `low` up to `high`, both included, as `IndexOfAnyInRange` of .NET's spans.
///
/// There is none where `low` is above `high`.
pub fn index_in_range(hay: &[u8], low: u8, high: u8) -> Option<usize>
    ensures { result ≡ position (λ byte. nat_le low byte && nat_le byte high) hay.now }
{
    first_with(hay, &Within { low, high })
}

/// The index of the first byte of `hay` below `low` or above `high`, as `IndexOfAnyExceptInRange` of .NET's spans.
pub fn index_not_in_range(hay: &[u8], low: u8, high: u8) -> Option<usize>
    ensures { result ≡ position (λ byte. not (nat_le low byte && nat_le byte high)) hay.now }
{
    first_without(hay, &Within { low, high })
}
