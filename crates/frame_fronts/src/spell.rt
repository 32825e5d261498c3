//! The whole frames at the front of a slice, spelt anew.

ghost use Rattle.std.specs.Prelude.{◌≡◌, ◌↔◌, ◌≤◌, ◌<◌, ◌+◌, ◌-◌, ◌^◌, ◌++◌, ℕ, List, length, take, drop, IsNone, IfSome, IfNone, true};
ghost use Rattle.frame_model.specs.Cut.{Whole, front};
ghost use Rattle.frame_model.specs.Heads.{groups};
ghost use Rattle.frame_model.specs.Spelling.{obstacle, spelling};
ghost use Rattle.frame_fronts.specs.Fronts.{IsLeft, IsNext, IsSpelt, IsWhole};

use crate::clean::is_clean;
use crate::copy::{copy_at, copy_payload};
use crate::place::{Place, behind, whole_frame};
use frame_model::{Framing, groups_of};

/// How many bytes at the front were spelt anew, in how many frames, and where their text ends in the room.
#[derive(Clone, Copy, Debug)]
pub struct Spelt {
    pub len: usize,
    pub frames: u64,
    pub end: usize,
}

/// Puts the frames at the front, spelt anew, into a room behind its first `at` bytes, as far as there is room.
#[inline(never)]
pub fn spell_front(
    input: Framing,
    output: Framing,
    max: u64,
    bytes: &[u8],
    room: &mut [u8],
    at: usize,
) -> Spelt
    requires { at ≤ length room.old }
    ensures spelt { IsSpelt input output max bytes.now result.len result.frames room.old at room.new result.end }
    ensures left { IsLeft input output max (drop result.len bytes.now) (length room.old - result.end) }
    ensures within { result.end ≤ length room.old }
    ensures kept { length room.new ≡ length room.old }
{
    match (input, output) {
        (Framing::Len4, Framing::Len2) => spell(Framing::Len4, Framing::Len2, max, bytes, room, at),
        (Framing::Len4, Framing::Line) => spell(Framing::Len4, Framing::Line, max, bytes, room, at),
        (Framing::Len2, Framing::Len4) => spell(Framing::Len2, Framing::Len4, max, bytes, room, at),
        (Framing::Len2, Framing::Line) => spell(Framing::Len2, Framing::Line, max, bytes, room, at),
        (Framing::Line, Framing::Len4) => spell(Framing::Line, Framing::Len4, max, bytes, room, at),
        (Framing::Line, Framing::Len2) => spell(Framing::Line, Framing::Len2, max, bytes, room, at),
        (Framing::VLen, Framing::Len4) => spell(Framing::VLen, Framing::Len4, max, bytes, room, at),
        (Framing::VLen, Framing::Len2) => spell(Framing::VLen, Framing::Len2, max, bytes, room, at),
        (Framing::VLen, Framing::Line) => spell(Framing::VLen, Framing::Line, max, bytes, room, at),
        (Framing::Len4, Framing::VLen) => spell(Framing::Len4, Framing::VLen, max, bytes, room, at),
        (Framing::Len2, Framing::VLen) => spell(Framing::Len2, Framing::VLen, max, bytes, room, at),
        (Framing::Line, Framing::VLen) => spell(Framing::Line, Framing::VLen, max, bytes, room, at),
        _ => spell(input, output, max, bytes, room, at),
    }
}

#[inline(always)]
fn spell(
    input: Framing,
    output: Framing,
    max: u64,
    bytes: &[u8],
    room: &mut [u8],
    at: usize,
) -> Spelt
    requires { at ≤ length room.old }
    ensures spelt { IsSpelt input output max bytes.now result.len result.frames room.old at room.new result.end }
    ensures left { IsLeft input output max (drop result.len bytes.now) (length room.old - result.end) }
    ensures within { result.end ≤ length room.old }
    ensures kept { length room.new ≡ length room.old }
{
    let most = room.len();
    let mut rest = bytes;
    let mut len = 0;
    let mut end = at;
    let mut frames = 0;
    while let Some(place) = next_place(input, output, max, rest, most - end) {
        end = put(output, room, end, rest, place.from, place.len);
        rest = behind(rest, place.end);
        len += place.end;
        frames += 1;
    }
    Spelt { len, frames, end }
}

/// The frame at the front, where it can be spelt anew and there is room for it.
#[inline(always)]
fn next_place(input: Framing, output: Framing, max: u64, bytes: &[u8], room: usize) -> Option<Place>
    ensures next { IfSome result (λ place. IsNext input output max bytes.now room place.from place.len place.end) }
    ensures left { IfNone result (IsLeft input output max bytes.now room) }
{
    let Some(place) = frame_before_lane(input, max, bytes) else {
        return None;
    };
    if room < place.len + 21 {
        return None;
    }
    if !has_frame(output, bytes, place.from, place.len) {
        return None;
    }
    Some(place)
}

/// The frame that stands whole at the front, where a lane stands behind it.
#[inline(always)]
fn frame_before_lane(input: Framing, max: u64, bytes: &[u8]) -> Option<Place>
    ensures whole { IfSome result (λ place. IsWhole input max bytes.now place.from place.len place.end) }
    ensures lane { IfSome result (λ place. place.end + 16 ≤ length bytes.now) }
    ensures none { IfNone result ((p more : List ℕ) → front input max bytes.now ≡ Whole p more → length more < 16) }
{
    if bytes.len() < 16 {
        return None;
    }
    whole_frame(input, max, before_last_lane(bytes))
}

/// All bytes but the last lane.
#[inline(always)]
fn before_last_lane(bytes: &[u8]) -> &[u8]
    requires { 16 ≤ length bytes.now }
    ensures { result.now ≡ take (length bytes.now - 16) bytes.now }
{
    &bytes[..bytes.len() - 16]
}

/// Whether a payload has a frame.
#[inline(always)]
fn has_frame(output: Framing, bytes: &[u8], from: usize, len: usize) -> bool
    requires { from + len + 16 ≤ length bytes.now }
    ensures { result ≡ true ↔ IsNone (obstacle output (take len (drop from bytes.now))) }
{
    match output {
        Framing::Len4 => len <= 0xffff_ffff,
        Framing::Len2 => len <= 0xffff,
        Framing::VLen => len <= 0xfff_ffff,
        Framing::Line => is_clean(bytes, from, len),
    }
}

/// Puts the frame of a payload into a room behind its first `at` bytes, and answers where it ends.
#[inline(always)]
fn put(output: Framing, room: &mut [u8], at: usize, bytes: &[u8], from: usize, len: usize) -> usize
    requires room { at + len + 21 ≤ length room.old }
    requires bytes { from + len + 16 ≤ length bytes.now }
    requires spelt { IsNone (obstacle output (take len (drop from bytes.now))) }
    ensures end { result ≡ at + length (spelling output (take len (drop from bytes.now))) }
    ensures put { take result room.new ≡ take at room.old ++ spelling output (take len (drop from bytes.now)) }
    ensures kept { length room.new ≡ length room.old }
    ensures within { result ≤ length room.old }
{
    match output {
        Framing::Len4 => {
            copy_at(room, at, &(len as u32).to_be_bytes());
            copy_payload(room, at + 4, bytes, from, len);
            at + 4 + len
        }
        Framing::Len2 => {
            copy_at(room, at, &(len as u16).to_be_bytes());
            copy_payload(room, at + 2, bytes, from, len);
            at + 2 + len
        }
        Framing::VLen => {
            let head = put_groups(room, at, len as u32);
            copy_payload(room, at + head, bytes, from, len);
            at + head + len
        }
        Framing::Line => {
            copy_payload(room, at, bytes, from, len);
            copy_at(room, at + len, &[10]);
            at + len + 1
        }
    }
}

/// Puts a length in groups of 7 bits into a room behind its first `at` bytes, and answers how many bytes they are. Up to 3
/// more are written: four at once take less time than as many as there are.
#[inline(always)]
fn put_groups(room: &mut [u8], at: usize, len: u32) -> usize
    requires room { at + 4 ≤ length room.old }
    requires few { len < 2 ^ 28 }
    ensures size { result ≡ length (groups 4 len) }
    ensures few { result ≤ 4 }
    ensures put { take (at + result) room.new ≡ take at room.old ++ groups 4 len }
    ensures kept { length room.new ≡ length room.old }
{
    if len < 128 {
        room[at] = len as u8;
        return 1;
    }
    let head = groups_of(len);
    copy_at(room, at, &head.bytes);
    head.count
}
