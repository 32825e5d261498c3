//! The whole frames of some bytes, written as the output spells them.

ghost use Rattle.std.specs.Prelude.{◌≡◌, ◌+◌, ◌<◌, ◌≤◌, ◌^◌, [], true, length, max, position, slice_range, take, ◌-◌, IsNone, IfOk, IfErr, OnErr};
ghost use Rattle.frame_model.specs.Spelling.{is_line_feed, obstacle, spelling};
ghost use Rattle.frame_grammar.specs.Job.{translation};
ghost use Rattle.span_seq.specs.Sequence.{bytes};
ghost use Rattle.relay_engine.specs.Frames.{Breaks, CountsWhole, Drains, Interrupts, IsFirst, StopsAt};
ghost use Rattle.relay_engine.specs.Gathering.{Puts, PutsFront, begun};
ghost use Rattle.relay_engine.specs.Spelling.{BreaksFrames, PutsFrames};

use crate::gathering::{Gathering, Passed};
use edge_core::{Failed, Sink};
use frame_fronts::whole_front;
use frame_grammar::{BadKind, Cut, Framing, Job, can_spell, next_frame, spell_head, spell_tail};
use span_seq::{Sequence, Spans};

/// Why no further frame is passed on.
#[derive(Clone, Copy, Debug, PartialEq, Eq)]
pub enum Stop {
    /// More of the frame is wanted.
    More,
    /// The input is at its end.
    End,
    /// The input ends within the frame.
    Rest,
    /// The frame is bad.
    Bad(BadKind),
}

/// How many bytes were passed over, in how many frames, in how many bytes these were written, and why no more were.
#[derive(Clone, Copy)]
pub struct LendPassed {
    pub passed: u64,
    pub frames: u64,
    pub written: u64,
    pub stop: Stop,
}

/// How many frames were written whole, and how many bytes in all, before a call of the sink failed.
#[derive(Clone, Copy)]
pub struct Broken {
    pub frames: u64,
    pub written: u64,
}

/// Writes the frames of a lend, and counts them where a call of the sink failed.
pub fn write_lent<C: Spans, K: Sink>(
    job: &Job,
    lent: &Sequence<'_, C>,
    known: u64,
    at_end: bool,
    gathering: &mut Gathering,
    sink: &mut K,
) -> Result<LendPassed, Broken>
    requires small { length (bytes lent.now) ≤ 2 ^ 62 }
    requires within { known ≤ length (bytes lent.now) }
    requires searched { job.now.input ≡ Framing.Line → IsNone (position is_line_feed (take known (bytes lent.now))) }
    ensures drained { IfOk result (λ drained. Drains job.now (bytes lent.now) at_end (K.state sink.old) drained (K.state sink.new)) }
    ensures failed { IfErr result (λ broken. Breaks job.now (bytes lent.now) at_end (K.state sink.old) broken (K.state sink.new)) }
{
    gathering.begin();
    match write_frames(job, lent, known, at_end, gathering, sink) {
        Ok(drained) => Ok(drained),
        Err(Failed) => {
            let written = gathering.passed();
            Err(Broken {
                frames: whole_frames(job, lent, at_end, written),
                written: written.min(u128::from(u64::MAX)) as u64,
            })
        }
    }
}

/// Writes the frames of a lend to the sink, as the job's output spells them. `at_end` says that nothing comes behind it. Of
/// lines, the first `known` bytes were searched before and have no line feed.
#[inline(never)]
pub fn write_frames<C: Spans, K: Sink>(
    job: &Job,
    lent: &Sequence<'_, C>,
    known: u64,
    at_end: bool,
    gathering: &mut Gathering,
    sink: &mut K,
) -> Result<LendPassed, Failed>
    requires small { length (bytes lent.now) ≤ 2 ^ 62 }
    requires within { known ≤ length (bytes lent.now) }
    requires searched { job.now.input ≡ Framing.Line → IsNone (position is_line_feed (take known (bytes lent.now))) }
    requires begun { gathering.old ≡ begun }
    ensures drained { IfOk result (λ drained. Drains job.now (bytes lent.now) at_end (K.state sink.old) drained (K.state sink.new)) }
    ensures failed { OnErr result (Interrupts job.now (bytes lent.now) at_end (K.state sink.old) gathering.new.passed (K.state sink.new)) }
{
    let mut rest = *lent;
    let mut known = known;
    let mut passed = 0;
    let mut frames = 0;
    let mut written: u64 = 0;
    loop {
        let front = put_front(job, unsearched(&rest, known), gathering, sink)?;
        let rest_behind = rest.without_front(front.len as u64);
        let known_behind = known_behind(known, front);
        passed += front.len as u64;
        frames += front.frames;
        written = written.saturating_add(front.written as u64);
        match first_frame(job, &rest_behind, known_behind, at_end) {
            Ok((payload, len)) => {
                let more = put_frame(job.output, &payload, gathering, sink)?;
                rest = rest_behind.without_front(len);
                known = 0;
                passed += len;
                frames += 1;
                written = written.saturating_add(more);
            }
            Err(stop) => {
                gathering.write_out(sink)?;
                return Ok(LendPassed {
                    passed,
                    frames,
                    written,
                    stop,
                });
            }
        }
    }
}

/// The bytes in the first span, where none of them was searched before, and else none.
#[inline(always)]
fn unsearched<'a, C: Spans>(rest: &Sequence<'a, C>, known: u64) -> &'a [u8]
    ensures { take (length result.now) (bytes rest.now) ≡ result.now }
{
    if known == 0 { rest.first() } else { &[] }
}

/// How many bytes behind a front were searched, where the first `known` of its bytes and those behind it were before.
#[inline(always)]
fn known_behind(known: u64, front: Passed) -> u64
    ensures same { front.len ≡ 0 → result ≡ max known front.searched }
    ensures behind { 0 < front.len → result ≡ front.searched }
{
    if front.len > 0 {
        return front.searched as u64;
    }
    known.max(front.searched as u64)
}

/// Puts the whole frames at the front, as far as that needs no second look at them: those that stay as they are from where
/// they lie, and small ones spelt anew, while there is room.
#[inline(always)]
fn put_front<K: Sink>(
    job: &Job,
    bytes: &[u8],
    gathering: &mut Gathering,
    sink: &mut K,
) -> Result<Passed, Failed>
    ensures put { IfOk result (λ passed. PutsFrames job.now bytes.now gathering.old (K.state sink.old) passed gathering.new (K.state sink.new)) }
    ensures failed { OnErr result (BreaksFrames job.now bytes.now gathering.old (K.state sink.old) gathering.new (K.state sink.new)) }
{
    if frames_stay(job) {
        return pass_front(job, bytes, gathering, sink);
    }
    Ok(gathering.spell(job, bytes))
}

/// Puts the whole frames at the front as they are.
#[inline(always)]
fn pass_front<K: Sink>(
    job: &Job,
    bytes: &[u8],
    gathering: &mut Gathering,
    sink: &mut K,
) -> Result<Passed, Failed>
    requires { job.now.input ≡ job.now.output }
    ensures put { IfOk result (λ passed. PutsFrames job.now bytes.now gathering.old (K.state sink.old) passed gathering.new (K.state sink.new)) }
    ensures failed { OnErr result (BreaksFrames job.now bytes.now gathering.old (K.state sink.old) gathering.new (K.state sink.new)) }
{
    let front = whole_front(job.input, job.max, bytes);
    gathering.put(sink, &bytes[..front.len])?;
    Ok(Passed {
        len: front.len,
        frames: front.frames,
        written: front.len,
        searched: (bytes.len() - front.len).min(job.max as usize),
    })
}

/// Whether each frame is spelt as it was.
fn frames_stay(job: &Job) -> bool
    ensures { result ≡ true → job.now.input ≡ job.now.output }
{
    matches!(
        (job.input, job.output),
        (Framing::Len4, Framing::Len4)
            | (Framing::Len2, Framing::Len2)
            | (Framing::VLen, Framing::VLen)
            | (Framing::Line, Framing::Line)
    )
}

/// Whether lines come in and go out. A payload ends before the first line feed then, and needs no search of its own.
fn lines_stay_lines(job: &Job) -> bool
    ensures { result ≡ true → (job.now.input ≡ Framing.Line) × (job.now.output ≡ Framing.Line) }
{
    matches!((job.input, job.output), (Framing::Line, Framing::Line))
}

/// The payload of the first frame, where there is one that can be spelt, with the frame's length. Else why there is none.
#[inline(always)]
fn first_frame<'a, C: Spans>(
    job: &Job,
    rest: &Sequence<'a, C>,
    known: u64,
    at_end: bool,
) -> Result<(Sequence<'a, C>, u64), Stop>
    requires within { known ≤ length (bytes rest.now) }
    requires searched { job.now.input ≡ Framing.Line → IsNone (position is_line_feed (take known (bytes rest.now))) }
    ensures first { IfOk result (λ first. IsFirst job.now (bytes rest.now) at_end (bytes first.0) first.1) }
    ensures stopped { IfErr result (λ stop. StopsAt job.now (bytes rest.now) at_end stop) }
{
    match next_frame(job.input, job.max, rest, known, at_end) {
        Cut::Frame { from, to, end } => {
            let payload = part(rest, from, to);
            if lines_stay_lines(job) {
                return Ok((payload, end));
            }
            match can_spell(job.output, &payload) {
                Ok(()) => Ok((payload, end)),
                Err(kind) => Err(Stop::Bad(kind)),
            }
        }
        Cut::More => Err(Stop::More),
        Cut::End => Err(Stop::End),
        Cut::Rest => Err(Stop::Rest),
        Cut::Bad(kind) => Err(Stop::Bad(kind)),
    }
}

/// The bytes of a sequence from one offset up to another.
fn part<'a, C: Spans>(seq: &Sequence<'a, C>, from: u64, to: u64) -> Sequence<'a, C>
    requires ordered { from ≤ to }
    requires within { to ≤ length (bytes seq.now) }
    ensures { bytes result ≡ slice_range (bytes seq.now) from to }
{
    seq.slice(seq.position(from), seq.position(to))
}

/// Puts the frame of a payload that has one behind what is gathered, and answers how many bytes it has.
fn put_frame<C: Spans, K: Sink>(
    framing: Framing,
    payload: &Sequence<'_, C>,
    gathering: &mut Gathering,
    sink: &mut K,
) -> Result<u64, Failed>
    requires { IsNone (obstacle framing (bytes payload.now)) }
    ensures len { IfOk result (λ len. len ≡ length (spelling framing (bytes payload.now))) }
    ensures put { IfOk result (λ _. Puts gathering.old (K.state sink.old) (spelling framing (bytes payload.now)) gathering.new (K.state sink.new)) }
    ensures failed { OnErr result (PutsFront gathering.old (K.state sink.old) (spelling framing (bytes payload.now)) gathering.new (K.state sink.new)) }
{
    gathering.put(sink, spell_head(framing, payload.len()).bytes())?;
    gathering.put_spans(sink, payload)?;
    gathering.put(sink, spell_tail(framing).bytes())?;
    Ok(frame_len(framing, payload))
}

/// How many bytes the frame of a payload has.
fn frame_len<C: Spans>(framing: Framing, payload: &Sequence<'_, C>) -> u64
    requires { IsNone (obstacle framing (bytes payload.now)) }
    ensures { result ≡ length (spelling framing (bytes payload.now)) }
{
    let head = spell_head(framing, payload.len());
    let tail = spell_tail(framing);
    head.bytes().len() as u64 + payload.len() + tail.bytes().len() as u64
}

/// How many frames of a lend are whole in the first `written` bytes of what is to be written of it.
fn whole_frames<C: Spans>(job: &Job, lent: &Sequence<'_, C>, at_end: bool, written: u128) -> u64
    requires small { length (bytes lent.now) ≤ 2 ^ 62 }
    requires short { written < length (translation job.now (bytes lent.now) at_end).text }
    ensures { CountsWhole job.now (bytes lent.now) at_end written result }
{
    let mut rest = *lent;
    let mut left = written;
    let mut frames = 0;
    while let Ok((payload, len)) = first_frame(job, &rest, 0, at_end) {
        let more = u128::from(frame_len(job.output, &payload));
        if more > left {
            break;
        }
        left -= more;
        rest = rest.without_front(len);
        frames += 1;
    }
    frames
}
