//! A relay on one thread.

ghost use Rattle.std.specs.Prelude.{◌≡◌, ◌+◌, ◌*◌, ◌≤◌, ℕ, List, [], ◌∷◌, length, Some, None, IsSome, IsNone, IfOk, OnErr, option_map};
ghost use Rattle.frame_grammar.specs.Job.{IsInRange, segments};
ghost use Rattle.frame_model.specs.Spelling.{longest_frame};
ghost use Rattle.relay_model.specs.Run.{IsReported, StopsInTime};
ghost use Rattle.pipe_core.specs.History.{Call, EndWriter};
ghost use Rattle.pipe_core.specs.Answers.{Woke};
ghost use Rattle.pipe_core.specs.Standing.{AreThresholds};
ghost use Rattle.pipe_core.specs.declared.reply.Wake.{Wake};
ghost use Rattle.pipe_state.specs.Held.{AreAll};
ghost use Rattle.pipe_state.specs.Lying.{HaveOwnIds};
ghost use Rattle.pipe_state.specs.Options.{first_bad};
ghost use Rattle.pipe_state.specs.Released.{names_of};
ghost use Rattle.pipe_state.specs.Segments.{AreSized};
ghost use Rattle.pipe_shared.specs.Local.{LocalAnswers};
ghost use Rattle.relay_engine.specs.Filler.{fill_code};
ghost use Rattle.relay_engine.specs.Filling.{HasTaken};
ghost use Rattle.relay_engine.specs.WriterEnds.{local_drafting};
ghost use Rattle.relay_engine.specs.LocalEnds.{HoldsLocal, made_of};
ghost use Rattle.relay_engine.specs.Pump.{FillsLocal, options_for, sure_room_of};

use crate::draining::{Draining, Progress};
use crate::ending::outcome_of;
use crate::filling::{Filled, Filling};
use crate::pipe_filler::code_of;
use edge_core::{Sink, Source};
use frame_grammar::{Job, segments_of};
use pipe_core::never_both;
use pipe_shared::{LocalPipe, MakeError, MakeRefused, Options, local_pipe_has_a_history};
use pipe_state::numbered_blocks_fit;
use relay_model::{Answer, FillEnd, Report};
use seg_block::{Block, own_blocks};
use std::alloc::{AllocError, Global};

/// Relays a source to a sink, and reports how that ended. It takes its memory before the first read, and want of it is the
/// one refusal, by which nothing is read or written.
///
/// It takes less than a segment of the source behind the place where a bad frame is complete, and returns where all calls of the
/// source and the sink do.
pub fn pump_local<S: Source, K: Sink>(
    alloc: Global,
    source: &mut S,
    sink: &mut K,
    job: &Job,
) -> Result<Report, AllocError>
    requires { IsInRange job.now }
    ensures reported { IfOk result (λ report. IsReported job.now report (S.state source.old) (S.state source.new) (K.state sink.old) (K.state sink.new)) }
    ensures source_untouched { OnErr result (S.state source.new ≡ S.state source.old) }
    ensures sink_untouched { OnErr result (K.state sink.new ≡ K.state sink.old) }
    ensures in_time { StopsInTime job.now (S.state source.old) (S.state source.new) }
{
    let blocks = own_blocks(alloc, segments_of(job), job.seg)?;
    numbered_blocks_fit();
    let (answer, _) = pump_over(alloc, blocks, source, sink, job);
    answer
}

/// The same over blocks that are handed in, as many and as large as `options_of` says, and hands all of them back, in any order.
/// It takes all other memory before the first read.
pub fn pump_over<S: Source, K: Sink>(
    alloc: Global,
    blocks: Vec<Block>,
    source: &mut S,
    sink: &mut K,
    job: &Job,
) -> (Answer, Vec<Block>)
    requires range { IsInRange job.now }
    requires count { length blocks.items ≡ segments job.now }
    requires sized { AreSized job.now.seg (names_of blocks.items) }
    requires own { HaveOwnIds (names_of blocks.items) }
    ensures reported { IfOk result.0 (λ report. IsReported job.now report (S.state source.old) (S.state source.new) (K.state sink.old) (K.state sink.new)) }
    ensures source_untouched { OnErr result.0 (S.state source.new ≡ S.state source.old) }
    ensures sink_untouched { OnErr result.0 (K.state sink.new ≡ K.state sink.old) }
    ensures in_time { StopsInTime job.now (S.state source.old) (S.state source.new) }
    ensures blocks { AreAll (names_of result.1.items) (names_of blocks.items) }
{
    match LocalPipe::make(alloc, options_of(job), blocks) {
        Ok(pipe) => {
            let mut pipe = pipe;
            let report = pump(job, &mut pipe, source, sink);
            (Ok(report), pipe.close().blocks)
        }
        Err(MakeRefused { error, blocks }) => match error {
            MakeError::OutOfMemory => (Err(AllocError), blocks),
            MakeError::BadOptions { .. } => unreachable!(),
        },
    }
}

/// How the pipe of a relay is made: its segments are as large as the job asks, and there are enough for a greatest frame and
/// for a pause.
pub fn options_of(job: &Job) -> Options
    requires { IsInRange job.now }
    ensures options { result ≡ options_for job.now }
    ensures good { first_bad result ≡ None }
    ensures room { longest_frame job.now.input job.now.max ≤ sure_room_of result }
{
    Options {
        segment: job.seg,
        segments: segments_of(job),
        pause: job.pause,
        resume: job.resume,
    }
}

/// Relays a source to a sink through a pipe that is new, and completes both its ends.
fn pump<S: Source, K: Sink>(job: &Job, pipe: &mut LocalPipe, source: &mut S, sink: &mut K) -> Report
    requires range { IsInRange job.now }
    requires stands { HoldsLocal pipe.old [] }
    requires draft { pipe.old.draft ≡ [] }
    requires room { longest_frame job.now.input job.now.max ≤ sure_room_of pipe.old.options }
    requires thresholds { AreThresholds pipe.old.options.pause pipe.old.options.resume }
    requires segment { pipe.old.options.segment ≡ job.now.seg }
    ensures reported { IsReported job.now result (S.state source.old) (S.state source.new) (K.state sink.old) (K.state sink.new) }
    ensures in_time { StopsInTime job.now (S.state source.old) (S.state source.new) }
    ensures writer { IsSome pipe.new.pipe.control.ended }
    ensures reader { IsSome pipe.new.pipe.control.gone }
    ensures made { made_of pipe.new ≡ made_of pipe.old }
{
    never_both();
    let mut filling = Filling::new(job.limit);
    let mut draining = Draining::new(job);
    let mut ending = None;
    loop {
        match draining.step(&(), pipe, sink) {
            Ok(Progress::Moved { .. }) => {}
            Ok(Progress::Idle { .. }) => ending = fill_once(&mut filling, pipe, source),
            Ok(Progress::Ended(end)) => {
                // Where the reader is gone before the input's end, no flush need tell the filler so: no more is read.
                let taking = ending.unwrap_or(FillEnd::Gone { code: end.code() });
                end_both(pipe, ending, end.code());
                return Report {
                    outcome: outcome_of(taking, end),
                    frames: draining.frames(),
                    taken: filling.taken(),
                    written: draining.written(),
                };
            }
            Err(_) => unreachable!(),
        }
    }
}

/// Takes more, once. Where the taking has ended the writer has completed.
fn fill_once<S: Source>(
    filling: &mut Filling,
    pipe: &mut LocalPipe,
    source: &mut S,
) -> Option<FillEnd>
    requires open { IsNone pipe.old.pipe.control.ended }
    requires holds { (h : List Call) × (bytes : List ℕ) × HasTaken HoldsLocal local_drafting filling.old pipe.old h bytes }
    ensures fills { (h : List Call) (bytes : List ℕ) → HasTaken HoldsLocal local_drafting filling.old pipe.old h bytes →
        FillsLocal filling.old pipe.old (S.state source.old) result filling.new pipe.new (S.state source.new) h bytes }
    ensures made { made_of pipe.new ≡ made_of pipe.old }
    ensures draft { pipe.new.draft ≡ [] }
    ensures limit { filling.new.limit ≡ filling.old.limit }
    ensures within { filling.new.taken ≤ filling.new.limit }
    ensures one_read { filling.new.taken ≤ filling.old.taken + pipe.old.options.segment }
    ensures gone { pipe.new.pipe.control.gone ≡ pipe.old.pipe.control.gone }
    ensures lent { pipe.new.pipe.control.lent ≡ pipe.old.pipe.control.lent }
{
    match filling.step(&(), pipe, source) {
        Ok(Filled::Ended(end)) => {
            complete(pipe, code_of(end));
            Some(end)
        }
        Ok(Filled::Moved { .. }) => None,
        Ok(Filled::Paused { .. }) => None,
        Ok(Filled::Full(_)) => None,
        Err(_) => unreachable!(),
    }
}

/// Completes the writer, which has drafted nothing.
fn complete(pipe: &mut LocalPipe, code: u32)
    requires open { IsNone pipe.old.pipe.control.ended }
    requires settled { pipe.old.draft ≡ [] }
    ensures completes { (wake : Wake) × LocalAnswers pipe.old (EndWriter code ∷ []) (Woke wake) pipe.new }
    ensures hint { pipe.new.hint ≡ 0 }
    ensures made { made_of pipe.new ≡ made_of pipe.old }
    ensures draft { pipe.new.draft ≡ [] }
    ensures gone { pipe.new.pipe.control.gone ≡ pipe.old.pipe.control.gone }
    ensures lent { pipe.new.pipe.control.lent ≡ pipe.old.pipe.control.lent }
{
    local_pipe_has_a_history(pipe);
    let Ok(_) = pipe.end_writer(code) else {
        unreachable!()
    };
}

/// Completes the reader, and the writer where its taking hasn't ended.
fn end_both(pipe: &mut LocalPipe, ending: Option<FillEnd>, code: u32)
    requires attended { IsNone pipe.old.pipe.control.gone }
    requires settled { pipe.old.draft ≡ [] }
    requires ended { pipe.old.pipe.control.ended ≡ option_map fill_code ending }
    ensures writer { IsSome pipe.new.pipe.control.ended }
    ensures reader { IsSome pipe.new.pipe.control.gone }
    ensures made { made_of pipe.new ≡ made_of pipe.old }
{
    let _ = pipe.end_reader(code);
    if ending.is_none() {
        complete(pipe, code);
    }
}
