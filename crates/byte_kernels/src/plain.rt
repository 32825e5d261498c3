//! The searches as plain loops, byte by byte: what their definitions say, and what the lanes are measured against.

ghost use Rattle.std.specs.Prelude.{◌≡◌, ◌==◌, ◌&&◌, not, nat_le, position};
ghost use Rattle.std.specs.List.{common_prefix_len};
ghost use Rattle.byte_kernels.specs.ByteSet.{contains};
ghost use Rattle.byte_kernels.specs.Scan.{last_position};

use crate::byte_set::ByteSet;

/// As the call of the same name at the root.
pub fn index_of_any(hay: &[u8], set: &ByteSet) -> Option<usize>
    ensures { result ≡ position (contains set.now) hay.now }
{
    hay.iter().position(|byte| set.contains(*byte))
}

/// As the call of the same name at the root.
pub fn index_of_any_except(hay: &[u8], set: &ByteSet) -> Option<usize>
    ensures { result ≡ position (λ byte. not (contains set.now byte)) hay.now }
{
    hay.iter().position(|byte| !set.contains(*byte))
}

/// As the call of the same name at the root.
pub fn index_in_range(hay: &[u8], low: u8, high: u8) -> Option<usize>
    ensures { result ≡ position (λ byte. nat_le low byte && nat_le byte high) hay.now }
{
    hay.iter().position(|byte| low <= *byte && *byte <= high)
}

/// As the call of the same name at the root.
pub fn index_not_in_range(hay: &[u8], low: u8, high: u8) -> Option<usize>
    ensures { result ≡ position (λ byte. not (nat_le low byte && nat_le byte high)) hay.now }
{
    hay.iter().position(|byte| !(low <= *byte && *byte <= high))
}

/// As the call of the same name at the root.
pub fn last_index_of_any(hay: &[u8], set: &ByteSet) -> Option<usize>
    ensures { result ≡ last_position (contains set.now) hay.now }
{
    let mut index = hay.len();
    while index > 0 {
        index -= 1;
        if set.contains(hay[index]) {
            return Some(index);
        }
    }
    None
}

/// As the call of the same name at the root.
pub fn common_front(a: &[u8], b: &[u8]) -> usize
    ensures { result ≡ common_prefix_len ◌==◌ a.now b.now }
{
    let count = a.len().min(b.len());
    for index in 0..count {
        if a[index] != b[index] {
            return index;
        }
    }
    count
}
