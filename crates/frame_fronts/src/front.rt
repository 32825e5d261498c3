//! The whole frames at the front of a slice, counted.

ghost use Rattle.std.specs.Prelude.{ℕ, List, drop};
ghost use Rattle.frame_fronts.specs.Fronts.{HasNoFrame, IsFront};

use crate::lines::whole_lines;
use crate::place::{behind, whole_frame};
use frame_model::Framing;

/// How many bytes at the front are whole frames, and how many frames.
#[derive(Clone, Copy, Debug)]
pub struct Front {
    pub len: usize,
    pub frames: u64,
}

/// Counts the whole frames at the front, up to the first that isn't whole or whose payload has more than `max` bytes.
#[inline(never)]
pub fn whole_front(framing: Framing, max: u64, bytes: &[u8]) -> Front
    ensures counted { (payloads : List (List ℕ)) × IsFront framing framing max bytes.now result.len result.frames payloads }
    ensures all { HasNoFrame framing max (drop result.len bytes.now) }
{
    match framing {
        Framing::Len4 => count(Framing::Len4, max, bytes),
        Framing::Len2 => count(Framing::Len2, max, bytes),
        Framing::VLen => count(Framing::VLen, max, bytes),
        Framing::Line => whole_lines(max, bytes),
    }
}

#[inline(always)]
fn count(framing: Framing, max: u64, bytes: &[u8]) -> Front
    ensures counted { (payloads : List (List ℕ)) × IsFront framing framing max bytes.now result.len result.frames payloads }
    ensures all { HasNoFrame framing max (drop result.len bytes.now) }
{
    let mut len = 0;
    let mut frames = 0;
    while let Some(place) = whole_frame(framing, max, behind(bytes, len)) {
        len += place.end;
        frames += 1;
    }
    Front { len, frames }
}
