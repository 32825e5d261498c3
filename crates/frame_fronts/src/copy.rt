//! Copies of a payload, by lanes that may go past its end.

ghost use Rattle.std.specs.Prelude.{◌≡◌, ◌≤◌, ◌+◌, ◌++◌, length, take, drop};

use std::simd::prelude::*;

/// How many bytes one lane has.
const LANE: usize = 16;

/// From how many bytes on a payload is copied by a call.
const LONG: usize = 128;

/// Copies the `len` bytes behind the first `from` bytes of a slice into a room behind its first `at` bytes, and up to 16 more.
#[inline(always)]
pub(crate) fn copy_payload(room: &mut [u8], at: usize, bytes: &[u8], from: usize, len: usize)
    requires room { at + len + 16 ≤ length room.old }
    requires bytes { from + len + 16 ≤ length bytes.now }
    ensures copied { take (at + len) room.new ≡ take at room.old ++ take len (drop from bytes.now) }
    ensures kept { length room.new ≡ length room.old }
{
    if len <= LANE {
        copy_lane(room, at, bytes, from);
    } else if len > LONG {
        copy_call(room, at, bytes, from, len);
    } else {
        copy_lanes(room, at, bytes, from, len);
    }
}

#[inline(never)]
fn copy_call(room: &mut [u8], at: usize, bytes: &[u8], from: usize, len: usize)
    requires room { at + len ≤ length room.old }
    requires bytes { from + len ≤ length bytes.now }
    ensures copied { take (at + len) room.new ≡ take at room.old ++ take len (drop from bytes.now) }
    ensures kept { length room.new ≡ length room.old }
{
    copy_at(room, at, &bytes[from..from + len]);
}

#[inline(always)]
fn copy_lanes(room: &mut [u8], at: usize, bytes: &[u8], from: usize, len: usize)
    requires room { at + len + 16 ≤ length room.old }
    requires bytes { from + len + 16 ≤ length bytes.now }
    ensures copied { take (at + len) room.new ≡ take at room.old ++ take len (drop from bytes.now) }
    ensures kept { length room.new ≡ length room.old }
{
    let mut done = 0;
    while done < len {
        copy_lane(room, at + done, bytes, from + done);
        done += 16;
    }
}

#[inline(always)]
fn copy_lane(room: &mut [u8], at: usize, bytes: &[u8], from: usize)
    requires room { at + 16 ≤ length room.old }
    requires bytes { from + 16 ≤ length bytes.now }
    ensures { room.new ≡ take at room.old ++ (take 16 (drop from bytes.now) ++ drop (at + 16) room.old) }
{
    u8x16::from_slice(&bytes[from..]).copy_to_slice(&mut room[at..]);
}

/// Copies a whole slice into a room behind its first `at` bytes.
#[inline(always)]
pub(crate) fn copy_at(room: &mut [u8], at: usize, piece: &[u8])
    requires { at + length piece.now ≤ length room.old }
    ensures { room.new ≡ take at room.old ++ (piece.now ++ drop (at + length piece.now) room.old) }
{
    room[at..at + piece.len()].copy_from_slice(piece);
}
