//! How payloads are spelt.

ghost use Rattle.std.specs.Prelude.{◌≡◌, ◌+◌, nat_lt, if◌then◌else◌, MatchOption, Ok, Err, None, Some};
ghost use Rattle.frame_model.specs.Spelling.{Fits, head_of, obstacle, tail_of};
ghost use Rattle.span_seq.specs.Sequence.{bytes};

use crate::affix::Affix;
use crate::line_feed::{LINE_FEED, first_line_feed};
use frame_model::{BadKind, Framing, groups_of};
use span_seq::{Sequence, Spans};

/// Whether a payload has a frame. The refusal is always `Unspellable`, at the index of the first byte for which it has none:
/// a line feed in a line, and the first byte that is one too many for the head of a counted frame.
#[inline(always)]
pub fn can_spell<C: Spans>(framing: Framing, payload: &Sequence<'_, C>) -> Result<(), BadKind>
    ensures { MatchOption (obstacle framing (bytes payload.now)) (result ≡ Ok tt) (λ at. result ≡ Err (BadKind.Unspellable at)) }
{
    let len = payload.len();
    let obstacle = match framing {
        Framing::Len4 => first_past(len, u64::from(u32::MAX)),
        Framing::Len2 => first_past(len, u64::from(u16::MAX)),
        Framing::VLen => first_past(len, 0xfff_ffff),
        Framing::Line => first_line_feed(payload, 0),
    };
    match obstacle {
        Some(at) => Err(BadKind::Unspellable { at }),
        None => Ok(()),
    }
}

/// The bytes before a payload of `len` bytes in its frame.
pub fn spell_head(framing: Framing, len: u64) -> Affix
    requires { Fits framing len }
    ensures { result ≡ head_of framing len }
{
    match framing {
        Framing::Len4 => Affix::of_four((len as u32).to_be_bytes()),
        Framing::Len2 => Affix::of_two((len as u16).to_be_bytes()),
        Framing::VLen => Affix::of_groups(groups_of(len as u32)),
        Framing::Line => Affix::empty(),
    }
}

/// The bytes behind a payload in its frame.
pub fn spell_tail(framing: Framing) -> Affix
    ensures { result ≡ tail_of framing }
{
    match framing {
        Framing::Len4 | Framing::Len2 | Framing::VLen => Affix::empty(),
        Framing::Line => Affix::of_one(LINE_FEED),
    }
}

/// The index of the first byte past the greatest length, where a payload is longer.
fn first_past(len: u64, greatest: u64) -> Option<u64>
    ensures { result ≡ (if nat_lt len (greatest + 1) then None else Some greatest) }
{
    if len <= greatest {
        None
    } else {
        Some(greatest)
    }
}
