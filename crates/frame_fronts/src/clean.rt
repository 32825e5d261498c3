//! Whether a payload has a line feed, by lanes that may go past its end.

ghost use Rattle.std.specs.Prelude.{◌≡◌, ◌↔◌, ◌≤◌, ◌+◌, min, length, position, take, drop, true, false, IsNone, IfSome, IfNone};
ghost use Rattle.frame_model.specs.Spelling.{is_line_feed};
ghost use Rattle.frame_fronts.specs.Fronts.{HasFeed, IsClear};

use byte_kernels::{lowest, marks_near, marks_near_64};

/// Whether none of the `len` bytes behind the first `from` is a line feed.
#[inline(always)]
pub(crate) fn is_clean(bytes: &[u8], from: usize, len: usize) -> bool
    requires { from + len + 16 ≤ length bytes.now }
    ensures { result ≡ true ↔ IsNone (position is_line_feed (take len (drop from bytes.now))) }
{
    let done = clear_groups(bytes, from, len);
    clear_lanes(bytes, from + done, len - done)
}

/// How many bytes at the front are known to have no line feed by a look at 64 at once.
#[inline(always)]
fn clear_groups(bytes: &[u8], from: usize, len: usize) -> usize
    requires { from + len ≤ length bytes.now }
    ensures within { result ≤ len }
    ensures clear { IsClear bytes.now from (from + result) }
{
    let mut done = 0;
    while len - done >= 64 {
        if marks_near_64(bytes, from + done, 10) != 0 {
            return done;
        }
        done += 64;
    }
    done
}

/// Whether there is no line feed, lane by lane.
#[inline(always)]
fn clear_lanes(bytes: &[u8], from: usize, len: usize) -> bool
    requires { from + len + 16 ≤ length bytes.now }
    ensures clear { result ≡ true → IsClear bytes.now from (from + len) }
    ensures feed { result ≡ false → HasFeed bytes.now from (from + len) }
{
    let mut done = 0;
    while done < len {
        if !is_clear_lane(bytes, from + done, len - done) {
            return false;
        }
        done += 16;
    }
    true
}

/// Whether none of 16 bytes, as far as they are among the first `len`, is a line feed.
#[inline(always)]
fn is_clear_lane(bytes: &[u8], from: usize, len: usize) -> bool
    requires { from + 16 ≤ length bytes.now }
    ensures clear { result ≡ true → IsClear bytes.now from (from + min 16 len) }
    ensures feed { result ≡ false → HasFeed bytes.now from (from + len) }
{
    let marks = marks_near(bytes, from, 10);
    if marks == 0 {
        return true;
    }
    lowest(marks) >= len
}
