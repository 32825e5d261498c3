//! How far two slices begin alike.

ghost use Rattle.std.specs.Prelude.{◌≡◌, ◌==◌, not, length, min, slice_index};
ghost use Rattle.std.specs.List.{common_prefix_len};

use crate::scan::{Places, first};
use std::simd::prelude::*;

// Places at which two slices differ.
#[derive(Clone, Copy, Debug)]
struct Differ<'a> {
    a: &'a [u8],
    b: &'a [u8],
}

impl Places for Differ<'_> {
    ghost count = { λ pair. min (length pair.a.now) (length pair.b.now) };

    ghost meets = { λ pair place. not (slice_index pair.a.now place == slice_index pair.b.now place) };

    #[inline(always)]
    fn at(&self, place: usize) -> bool {
        self.a[place] != self.b[place]
    }

    #[inline(always)]
    fn group(&self, from: usize) -> u64 {
        let a = u8x16::from_slice(&self.a[from..]);
        let b = u8x16::from_slice(&self.b[from..]);
        a.simd_ne(b).to_bitmask()
    }
}

/// How many bytes `a` and `b` begin with alike, as `CommonPrefixLength` of .NET's spans.
pub fn common_front(a: &[u8], b: &[u8]) -> usize
    ensures { result ≡ common_prefix_len ◌==◌ a.now b.now }
{
    let count = a.len().min(b.len());
    match first(&Differ { a, b }, count) {
        Some(place) => place,
        None => count,
    }
}
