//! What stands first in a stream of bytes.

ghost use Rattle.std.specs.Prelude.{◌≡◌, ◌<◌, ◌≤◌, ◌↔◌, length, position, take, IsNone, Some};
ghost use Rattle.frame_model.specs.Heads.{told_by};
ghost use Rattle.frame_model.specs.Spelling.{is_line_feed, longest_frame};
ghost use Rattle.frame_model.specs.Cut.{front, IsRefused, Partial};
ghost use Rattle.span_seq.specs.Sequence.{bytes};
ghost use Rattle.frame_grammar.specs.Answers.{answer_on, answer_within, first_in, HeadAnswers, Tells};

use crate::line_feed::line_len;
use frame_model::{BadKind, Framing, Head, LONGEST_HEAD, head_at_front, heads_are_short};
use seq_reader::SeqReader;
use span_seq::{Sequence, Spans};

/// What stands first in an input. Offsets count bytes from its start.
#[derive(Clone, Copy, Debug, PartialEq, Eq)]
pub enum Cut {
    /// A frame. Its payload lies from `from` up to `to`, and the next frame begins at `end`.
    Frame { from: u64, to: u64, end: u64 },
    /// Less than a frame, while more may come.
    More,
    /// No frame, however it goes on.
    Bad(BadKind),
    /// Less than a frame, and nothing more comes.
    Rest,
    /// Nothing, and nothing more comes.
    End,
}

/// Cuts the first frame off a sequence, whose payload may have at most `max` bytes. `at_end` says that nothing comes behind it.
/// `Bad` is never `Unspellable`. Where more is wanted, there is less than one longest frame.
///
/// Of lines, the first `known` bytes were searched before and have no line feed; they aren't searched again. Where more of a
/// line is wanted, none of its bytes is a line feed. Nothing else depends on `known`.
#[inline(always)]
pub fn next_frame<C: Spans>(
    framing: Framing,
    max: u64,
    seq: &Sequence<'_, C>,
    known: u64,
    at_end: bool,
) -> Cut
    requires within { known ≤ length (bytes seq.now) }
    requires searched { framing ≡ Framing.Line → IsNone (position is_line_feed (take known (bytes seq.now))) }
    ensures first { result ≡ first_in framing max (bytes seq.now) at_end }
    // The input is cut into this payload and what the rest is cut into, also with more behind it; or into no payload, and why.
    ensures told { Tells framing max (bytes seq.now) at_end result }
    ensures bad { (kind : BadKind) → (result ≡ Cut.Bad kind) ↔ IsRefused framing max (bytes seq.now) kind }
    ensures short { result ≡ Cut.More → length (bytes seq.now) < longest_frame framing max }
    ensures unended { result ≡ Cut.More → framing ≡ Framing.Line → IsNone (position is_line_feed (bytes seq.now)) }
{
    match front_head(framing, seq) {
        Some(head) => behind_head(max, seq, head, at_end),
        None => line(max, seq, known, at_end),
    }
}

/// What the front of a sequence tells, where the framing has heads.
#[inline(always)]
fn front_head<C: Spans>(framing: Framing, seq: &Sequence<'_, C>) -> Option<Head>
    ensures { result ≡ told_by framing (bytes seq.now) }
{
    let first = seq.first();
    if first.len() < LONGEST_HEAD {
        return gathered_head(framing, seq);
    }
    heads_are_short();
    head_at_front(framing, first)
}

/// The same where its bytes may lie in many spans.
fn gathered_head<C: Spans>(framing: Framing, seq: &Sequence<'_, C>) -> Option<Head>
    ensures { result ≡ told_by framing (bytes seq.now) }
{
    let mut front = [0; LONGEST_HEAD];
    heads_are_short();
    if SeqReader::new(*seq).copy_to(&mut front) {
        return head_at_front(framing, &front);
    }
    let count = seq.len() as usize;
    seq.copy_to(&mut front);
    head_at_front(framing, &front[..count])
}

/// As many bytes as a head tells.
#[inline(always)]
fn behind_head<C: Spans>(max: u64, seq: &Sequence<'_, C>, head: Head, at_end: bool) -> Cut
    requires told { (f : Framing) × (told_by f (bytes seq.now) ≡ Some head) }
    ensures { (f : Framing) → told_by f (bytes seq.now) ≡ Some head → result ≡ answer_on f (bytes seq.now) at_end (front f max (bytes seq.now)) }
{
    match head {
        Head::Short => incomplete(seq, at_end),
        Head::Broken { bytes } => Cut::Bad(BadKind::BadHead { bytes }),
        Head::Told { bytes, len } => payload_behind(max, seq, bytes, len, at_end),
    }
}

/// A payload of `len` bytes behind the first `from`.
#[inline(always)]
fn payload_behind<C: Spans>(
    max: u64,
    seq: &Sequence<'_, C>,
    from: u64,
    len: u64,
    at_end: bool,
) -> Cut
    requires { from ≤ length (bytes seq.now) }
    ensures { HeadAnswers max (bytes seq.now) at_end from len result }
{
    if len > max {
        return Cut::Bad(BadKind::TooBig { len });
    }
    if seq.len() - from < len {
        return incomplete(seq, at_end);
    }
    Cut::Frame {
        from,
        to: from + len,
        end: from + len,
    }
}

/// Less than a frame.
fn incomplete<C: Spans>(seq: &Sequence<'_, C>, at_end: bool) -> Cut
    ensures { result ≡ answer_within (bytes seq.now) at_end }
{
    if !at_end {
        Cut::More
    } else if seq.is_empty() {
        Cut::End
    } else {
        Cut::Rest
    }
}

#[inline(always)]
fn line<C: Spans>(max: u64, seq: &Sequence<'_, C>, known: u64, at_end: bool) -> Cut
    requires within { known ≤ length (bytes seq.now) }
    requires searched { IsNone (position is_line_feed (take known (bytes seq.now))) }
    ensures answer { result ≡ answer_on Framing.Line (bytes seq.now) at_end (front Framing.Line max (bytes seq.now)) }
    ensures unended { result ≡ Cut.More → IsNone (position is_line_feed (bytes seq.now)) }
{
    let len = seq.len();
    let at = line_len(seq, known);
    if at < len && at <= max {
        return Cut::Frame {
            from: 0,
            to: at,
            end: at + 1,
        };
    }
    if len > max {
        return Cut::Bad(BadKind::TooBig { len: max + 1 });
    }
    unended_line(seq, at_end)
}

fn unended_line<C: Spans>(seq: &Sequence<'_, C>, at_end: bool) -> Cut
    ensures { result ≡ answer_on Framing.Line (bytes seq.now) at_end Partial }
{
    if !at_end {
        Cut::More
    } else if seq.is_empty() {
        Cut::End
    } else {
        let len = seq.len();
        Cut::Frame {
            from: 0,
            to: len,
            end: len,
        }
    }
}
