//! The commands on one thread, which wait for nobody.

ghost use Rattle.std.specs.Prelude.{◌≡◌, ℕ, List, true};
ghost use Rattle.edge_core.specs.Doors.{DoorsState};
ghost use Rattle.frame_grammar.specs.Job.{IsInRange};
ghost use Rattle.relay_model.specs.World.{world};
ghost use Rattle.relay_words.specs.Words.{is_local as is_local_of, job_of, texts};
ghost use Rattle.relay_words.specs.declared.command.Command.TheVariants.{Local};
ghost use Rattle.relay_top.specs.Commands.{Copies, Does, IsCaused, IsWhole, Runs, Translates};

use crate::laws::what_runs_come_to;
use crate::telling::tell_usage;
use edge_core::{Sink, Source};
use frame_grammar::Job;
use relay_engine::pump_local;
use relay_model::Status;
use relay_threads::tell_answer;
use relay_words::{LocalCommand, read_local};
use std::alloc::Global;

/// Runs the command that the words ask for, which relays `source` to `sink`, and answers its status.
/// Where that isn't `Clean`, a line on `faults` says why; a failure of `faults` changes nothing.
///
/// | Status | Meaning |
/// |---|---|
/// | `Clean` | The source was read to its end, and all of it was relayed. |
/// | `Usage` | The words are no command. Nothing is read or written. |
/// | `BadFrame` | A frame is bad. What came before it is written, and nothing after it. Less than a segment is taken behind it. |
/// | `Truncated` | The source ends within a frame. What came before that is written. |
/// | `ReadFault` | A read failed. The whole frames that were taken are written. |
/// | `WriteFault` | A write or a flush failed. |
/// | `OutOfMemory` | There is no memory. Nothing is read or written. |
/// | `TooLong` | The source has more than 2^40 bytes. The whole frames of the first 2^40 are written. |
///
/// It opens nothing: its clauses hold whatever the doors are, which stay as they are.
pub fn relay_local<S: Source, K: Sink, E: Sink>(
    alloc: Global,
    words: &[String],
    source: &mut S,
    sink: &mut K,
    faults: &mut E,
) -> Status
    requires { is_local_of (texts words.now) ≡ true }
    // All that the call does, by what the words ask for.
    ensures runs { (doors : DoorsState) → Runs (texts words.now) result
        (world (S.state source.old) doors (K.state sink.old) (E.state faults.old))
        (world (S.state source.new) doors (K.state sink.new) (E.state faults.new)) }
    // So, where no device failed, the sink gained the translation of all that the source held;
    ensures translated { (doors : DoorsState) → Translates (texts words.now) result
        (world (S.state source.old) doors (K.state sink.old) (E.state faults.old))
        (world (S.state source.new) doors (K.state sink.new) (E.state faults.new)) }
    // where the status is clean, all of that was lawful and was relayed;
    ensures whole { (doors : DoorsState) → result ≡ Status.Clean → IsWhole (texts words.now)
        (world (S.state source.old) doors (K.state sink.old) (E.state faults.old))
        (world (S.state source.new) doors (K.state sink.new) (E.state faults.new)) }
    // and each status has its cause.
    ensures caused { (doors : DoorsState) → IsCaused (texts words.now) result
        (world (S.state source.old) doors (K.state sink.old) (E.state faults.old))
        (world (S.state source.new) doors (K.state sink.new) (E.state faults.new)) }
{
    what_runs_come_to();
    run_words(alloc, words, source, sink, faults)
}

/// Runs what the words ask for, or tells the one that can't be read.
fn run_words<S: Source, K: Sink, E: Sink>(
    alloc: Global,
    words: &[String],
    source: &mut S,
    sink: &mut K,
    faults: &mut E,
) -> Status
    requires { is_local_of (texts words.now) ≡ true }
    ensures { (doors : DoorsState) → Runs (texts words.now) result
        (world (S.state source.old) doors (K.state sink.old) (E.state faults.old))
        (world (S.state source.new) doors (K.state sink.new) (E.state faults.new)) }
{
    match read_local(words) {
        Ok(command) => run_local(alloc, command, source, sink, faults),
        Err(usage) => tell_usage(faults, usage),
    }
}

/// Runs a command that words ask for.
pub(crate) fn run_local<S: Source, K: Sink, E: Sink>(
    alloc: Global,
    command: LocalCommand,
    source: &mut S,
    sink: &mut K,
    faults: &mut E,
) -> Status
    requires { IsInRange (job_of (Local command)) }
    ensures { (words : List (List ℕ)) (doors : DoorsState) → Does words (Local command) result
        (world (S.state source.old) doors (K.state sink.old) (E.state faults.old))
        (world (S.state source.new) doors (K.state sink.new) (E.state faults.new)) }
{
    match command {
        LocalCommand::Copy { job } => copy(alloc, &job, source, sink, faults),
    }
}

/// Relays as the job says, and tells of it.
fn copy<S: Source, K: Sink, E: Sink>(
    alloc: Global,
    job: &Job,
    source: &mut S,
    sink: &mut K,
    faults: &mut E,
) -> Status
    requires { IsInRange job.now }
    ensures { (doors : DoorsState) → Copies job.now result
        (world (S.state source.old) doors (K.state sink.old) (E.state faults.old))
        (world (S.state source.new) doors (K.state sink.new) (E.state faults.new)) }
{
    let answer = pump_local(alloc, source, sink, job);
    tell_answer(faults, &answer)
}
