//! The frame at the front of a slice.

ghost use Rattle.std.specs.Prelude.{◌≡◌, ◌==◌, ◌≤◌, ◌<◌, ◌⊎◌, ◌+◌, length, min, drop, position, IfNone, IfSome, Some};
ghost use Rattle.frame_model.specs.Heads.{told_by};
ghost use Rattle.frame_model.specs.Spelling.{is_line_feed};
ghost use Rattle.frame_fronts.specs.Fronts.{HasNoFrame, IsWhole};

use byte_kernels::index_near;
use frame_model::{Framing, Head, head_at_front};

/// Where a frame's payload lies, and how many bytes the frame has.
#[derive(Clone, Copy, Debug)]
pub(crate) struct Place {
    pub(crate) from: usize,
    pub(crate) len: usize,
    pub(crate) end: usize,
}

/// The frame that stands whole at the front, and none where there isn't one.
#[inline(always)]
pub(crate) fn whole_frame(framing: Framing, max: u64, bytes: &[u8]) -> Option<Place>
    ensures whole { IfSome result (λ place. IsWhole framing max bytes.now place.from place.len place.end) }
    ensures none { IfNone result (HasNoFrame framing max bytes.now) }
{
    match head_at_front(framing, bytes) {
        Some(head) => behind_head(max, bytes, head),
        None => line(max, bytes),
    }
}

/// As many bytes as a head tells, where they are there.
#[inline(always)]
fn behind_head(max: u64, bytes: &[u8], head: Head) -> Option<Place>
    requires told { (f : Framing) × (told_by f bytes.now ≡ Some head) }
    ensures whole { (f : Framing) → told_by f bytes.now ≡ Some head → IfSome result (λ place. IsWhole f max bytes.now place.from place.len place.end) }
    ensures none { (f : Framing) → told_by f bytes.now ≡ Some head → IfNone result (HasNoFrame f max bytes.now) }
{
    match head {
        Head::Told { bytes: from, len } => payload_behind(max, bytes, from as usize, len),
        Head::Short => None,
        Head::Broken { .. } => None,
    }
}

/// A payload of `len` bytes behind the first `from`, where it has at most `max` and they are there.
#[inline(always)]
fn payload_behind(max: u64, bytes: &[u8], from: usize, len: u64) -> Option<Place>
    requires { from ≤ length bytes.now }
    ensures whole { IfSome result (λ place. (place ≡ record { from = from; len = len; end = from + len }) × (len ≤ max) × (from + len ≤ length bytes.now)) }
    ensures none { IfNone result ((max < len) ⊎ (length bytes.now < from + len)) }
{
    if len > max {
        return None;
    }
    if ((bytes.len() - from) as u64) < len {
        return None;
    }
    let len = len as usize;
    Some(Place {
        from,
        len,
        end: from + len,
    })
}

#[inline(always)]
fn line(max: u64, bytes: &[u8]) -> Option<Place>
    ensures whole { IfSome result (λ place. IsWhole Framing.Line max bytes.now place.from place.len place.end) }
    ensures none { IfNone result (HasNoFrame Framing.Line max bytes.now) }
{
    let most = longest(max, bytes.len());
    match index_near(&bytes[..most], 10) {
        None => None,
        Some(len) => Some(Place {
            from: 0,
            len,
            end: len + 1,
        }),
    }
}

/// How many of so many bytes the longest line may have, with its line feed.
#[inline(always)]
pub(crate) fn longest(max: u64, len: usize) -> usize
    ensures { result ≡ min len (max + 1) }
{
    if len as u64 > max {
        return max as usize + 1;
    }
    len
}

/// What stands behind the first `count` bytes.
#[inline(always)]
pub(crate) fn behind(bytes: &[u8], count: usize) -> &[u8]
    requires { count ≤ length bytes.now }
    ensures { result.now ≡ drop count bytes.now }
{
    &bytes[count..]
}
