//! The whole lines at the front of a slice, counted.

ghost use Rattle.std.specs.Prelude.{◌≡◌, ◌<◌, ◌+◌, ℕ, List, length, drop, IfSome, IfNone};
ghost use Rattle.frame_fronts.specs.Fronts.{HasNoFrame, IsFront};

use crate::front::Front;
use crate::place::{behind, longest};
use byte_kernels::count_of;
use frame_model::Framing;
use memchr::memrchr;

/// Counts the whole lines at the front. No one of those that end within a line's greatest length is looked at by itself.
#[inline(always)]
pub(crate) fn whole_lines(max: u64, bytes: &[u8]) -> Front
    ensures counted { (payloads : List (List ℕ)) × IsFront Framing.Line Framing.Line max bytes.now result.len result.frames payloads }
    ensures all { HasNoFrame Framing.Line max (drop result.len bytes.now) }
{
    let mut len = 0;
    let mut frames = 0;
    while let Some(more) = lines_within(max, behind(bytes, len)) {
        len += more.len;
        frames += more.frames;
    }
    Front { len, frames }
}

/// The lines that end among as many bytes as the longest line has, where there is one.
#[inline(always)]
fn lines_within(max: u64, bytes: &[u8]) -> Option<Front>
    ensures some { IfSome result (λ front. 0 < front.len) }
    ensures counted { IfSome result (λ front. (payloads : List (List ℕ)) × IsFront Framing.Line Framing.Line max bytes.now front.len front.frames payloads) }
    ensures none { IfNone result (HasNoFrame Framing.Line max bytes.now) }
{
    let most = longest(max, bytes.len());
    let front = &bytes[..most];
    match memrchr(10, front) {
        None => None,
        Some(last) => Some(Front {
            len: last + 1,
            frames: count_of(front, 10) as u64,
        }),
    }
}
