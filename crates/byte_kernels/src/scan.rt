//! The loops that all searches share: the first and the last place that meets a test.

ghost use Rattle.std.specs.Prelude.{◌≡◌, ◌≢◌, ℕ, ◌+◌, ◌<◌, ◌≤◌, Bool, IsTrue};
ghost use Rattle.memchr.specs.Find.{IsFirst, IsLast};
ghost use Rattle.byte_kernels.specs.Marks.{Marks};

use crate::marks::{highest, lowest};

/// A test of all places below some number.
pub(crate) trait Places {
    /// The number.
    ghost count: { Self → ℕ };

    /// The test.
    ghost meets: { Self → ℕ → Bool };

    /// Whether a place meets the test.
    fn at(&self, place: usize) -> bool
        requires { place < count self.now }
        ensures { result ≡ meets self.now place };

    /// Which of 16 places meet the test, a bit for each, and the lowest bit for the first.
    fn group(&self, from: usize) -> u64
        requires { from + 16 ≤ count self.now }
        ensures { Marks (meets self.now) from 16 result };
}

/// The first place that meets the test.
#[inline(always)]
pub(crate) fn first<P: Places>(places: &P, count: usize) -> Option<usize>
    requires { count ≡ P.count places.now }
    ensures { IsFirst (λ place. IsTrue (P.meets places.now place)) 0 count result }
{
    if count < 16 {
        return first_by_1(places, 0, count);
    }
    let mut from = 0;
    while count - from >= 64 {
        let marks = group_of_64(places, from);
        if marks != 0 {
            return Some(from + lowest(marks));
        }
        from += 64;
    }
    first_by_16(places, from, count)
}

#[inline(always)]
fn first_by_16<P: Places>(places: &P, start: usize, count: usize) -> Option<usize>
    requires count { count ≡ P.count places.now }
    requires ordered { start ≤ count }
    ensures { IsFirst (λ place. IsTrue (P.meets places.now place)) start count result }
{
    let mut from = start;
    while count - from >= 16 {
        let marks = places.group(from);
        if marks != 0 {
            return Some(from + lowest(marks));
        }
        from += 16;
    }
    first_by_1(places, from, count)
}

#[inline(always)]
fn first_by_1<P: Places>(places: &P, start: usize, count: usize) -> Option<usize>
    requires count { count ≡ P.count places.now }
    requires ordered { start ≤ count }
    ensures { IsFirst (λ place. IsTrue (P.meets places.now place)) start count result }
{
    for place in start..count {
        if places.at(place) {
            return Some(place);
        }
    }
    None
}

/// The last place that meets the test.
#[inline(always)]
pub(crate) fn last<P: Places>(places: &P, count: usize) -> Option<usize>
    requires { count ≡ P.count places.now }
    ensures { IsLast (λ place. IsTrue (P.meets places.now place)) 0 count result }
{
    if count < 16 {
        return last_by_1(places, count);
    }
    let mut to = count;
    while to >= 64 {
        let marks = group_of_64(places, to - 64);
        if marks != 0 {
            return Some(to - 64 + highest(marks));
        }
        to -= 64;
    }
    last_by_16(places, to)
}

#[inline(always)]
fn last_by_16<P: Places>(places: &P, end: usize) -> Option<usize>
    requires { end ≤ P.count places.now }
    ensures { IsLast (λ place. IsTrue (P.meets places.now place)) 0 end result }
{
    let mut to = end;
    while to >= 16 {
        let marks = places.group(to - 16);
        if marks != 0 {
            return Some(to - 16 + highest(marks));
        }
        to -= 16;
    }
    last_by_1(places, to)
}

#[inline(always)]
fn last_by_1<P: Places>(places: &P, end: usize) -> Option<usize>
    requires { end ≤ P.count places.now }
    ensures { IsLast (λ place. IsTrue (P.meets places.now place)) 0 end result }
{
    let mut to = end;
    while to > 0 {
        to -= 1;
        if places.at(to) {
            return Some(to);
        }
    }
    None
}

/// Which of 64 places meet the test.
#[inline(always)]
pub(crate) fn group_of_64<P: Places>(places: &P, from: usize) -> u64
    requires within { from + 64 ≤ P.count places.now }
    requires fits { from + 64 < 18446744073709551616 }
    ensures { Marks (P.meets places.now) from 64 result }
{
    let front = group_of_32(places, from);
    front | group_of_32(places, from + 32) << 32
}

#[inline(always)]
fn group_of_32<P: Places>(places: &P, from: usize) -> u64
    requires within { from + 32 ≤ P.count places.now }
    requires fits { from + 32 < 18446744073709551616 }
    ensures { Marks (P.meets places.now) from 32 result }
{
    let front = places.group(from);
    front | places.group(from + 16) << 16
}
