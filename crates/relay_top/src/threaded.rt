//! All commands, with those on more than one thread.

ghost use Rattle.std.specs.Prelude.{drop, ◌≡◌, ◌<◌, ◌≤◌, ◌^◌, length};
ghost use Rattle.edge_core.specs.Doors.{DoorsState};
ghost use Rattle.frame_grammar.specs.Job.{IsInRange};
ghost use Rattle.relay_model.specs.Answers.{Relays};
ghost use Rattle.relay_model.specs.World.{world};
ghost use Rattle.relay_words.specs.Names.{AreNames};
ghost use Rattle.relay_words.specs.Words.{IfBatch, IfServe, frames_made, job_of, texts};
ghost use Rattle.relay_words.specs.declared.command.Command.TheVariants.{Threaded};
ghost use Rattle.relay_top.specs.Commands.{Does, IsCaused, IsWhole, Runs, Translates};

use crate::batching::batch;
use crate::drill::drill;
use crate::laws::what_runs_come_to;
use crate::local::run_local;
use crate::pumping::pump_and_settle;
use crate::serving::serve;
use crate::telling::tell_usage;
use edge_core::{Doors, Sink, Source};
use frame_grammar::Job;
use relay_model::Status;
use relay_threads::tell_answer;
use relay_words::{Command, ThreadedCommand, read_words};
use std::alloc::Global;
use std::sync::Wait;
use std::thread::Threads;

/// Runs the command that the words ask for, which relays `source` to `sink`, and answers its status. Where `is_local` is true
/// of the words, it does what `relay_local` does; else it may wait. `drill` leaves `source` as it is: it relays an input that it
/// makes into memory, for which it takes 100 bytes a frame before, and writes how much that was to `sink` as one line.
/// Where the status isn't `Clean`, a line on `faults` says why; a failure of `faults` changes nothing.
///
/// | Status | Meaning |
/// |---|---|
/// | `Clean` | The source was read to its end, and all of it was relayed. |
/// | `Usage` | The words are no command. Nothing is read or written. |
/// | `BadFrame` | A frame is bad. What came before it is written, and nothing after it. |
/// | `Truncated` | The source ends within a frame. What came before that is written. |
/// | `ReadFault` | A read failed. The whole frames that were taken are written. |
/// | `WriteFault` | A write or a flush failed. |
/// | `OutOfMemory` | There is no memory. Nothing is read or written. |
/// | `TooLong` | The source has more than 2^40 bytes. The whole frames of the first 2^40 are written. |
///
/// Of `drill`, `Clean` is that its line is written, `BadFrame` that a payload is longer than the job takes, with nothing
/// written, `WriteFault` that a write or the flush of its line failed, and `Usage` is as here. `OutOfMemory` comes with nothing
/// of `source` read and nothing written to `sink`. It answers no other.
///
/// `batch` reads nothing of `source` either. It opens the source and the sink of each name by `doors` before it reads anything,
/// relays them by at most as many threads as it has workers, gives all devices back, and then writes a line for each name to
/// `sink`: the name, the number of its status by the table, and how many of its frames were written whole. The command's status
/// is `WriteFault` where a write or the flush of these lines failed, and else that of the first name whose status isn't `Clean`,
/// with whose name the line on `faults` begins. `DoorFault` is that an opening was refused: what was open is given back, and
/// nothing is read or written. With `OutOfMemory` there was no memory for one name, which ends no other, or for the command:
/// then nothing is read or written, and where all was open already the devices are dropped and not given back.
///
/// `serve` reads nothing of `source`. It listens by `doors` and relays so many connections, one after the other, each to a new one
/// to its target, on two threads; once both devices of one were given back its line comes to `sink`: its number from 1, the number of
/// its status, and how many of its frames were written whole. The status of one ends no other, and neither does want of memory for its
/// relay. The command's status is `WriteFault` where a write or the flush of these lines failed, which ends it, and else that of the
/// first connection whose status isn't `Clean`, with whose number the line on `faults` begins. `DoorFault` is that listening,
/// accepting or connecting was refused, and `OutOfMemory` of the whole command that there was no memory for that: the connections
/// before were relayed and have their lines, and of one that has no target nothing was read.
pub fn relay_main<R: Wait + Threads + Sync, S: Source + Send, K: Sink + Send, E: Sink, D: Doors>(
    rt: &R,
    alloc: Global,
    words: &[String],
    source: &mut S,
    sink: &mut K,
    faults: &mut E,
    doors: &mut D,
) -> Status
    requires { length words.now < 2 ^ 32 }
    // All that the call does, by what the words ask for.
    ensures runs { Runs (texts words.now) result
        (world (S.state source.old) (D.state doors.old) (K.state sink.old) (E.state faults.old))
        (world (S.state source.new) (D.state doors.new) (K.state sink.new) (E.state faults.new)) }
    // So, where no device failed and there was memory, the sink of each relay gained the translation of all that its source held;
    ensures translated { Translates (texts words.now) result
        (world (S.state source.old) (D.state doors.old) (K.state sink.old) (E.state faults.old))
        (world (S.state source.new) (D.state doors.new) (K.state sink.new) (E.state faults.new)) }
    // where the status is clean, all of that was lawful and was relayed, or the summary of a drill says so of what it made;
    ensures whole { result ≡ Status.Clean → IsWhole (texts words.now)
        (world (S.state source.old) (D.state doors.old) (K.state sink.old) (E.state faults.old))
        (world (S.state source.new) (D.state doors.new) (K.state sink.new) (E.state faults.new)) }
    // and each status has its cause.
    ensures caused { IsCaused (texts words.now) result
        (world (S.state source.old) (D.state doors.old) (K.state sink.old) (E.state faults.old))
        (world (S.state source.new) (D.state doors.new) (K.state sink.new) (E.state faults.new)) }
{
    what_runs_come_to();
    run_words(rt, alloc, words, source, sink, faults, doors)
}

/// Runs what the words ask for, or tells the one that can't be read.
fn run_words<R: Wait + Threads + Sync, S: Source + Send, K: Sink + Send, E: Sink, D: Doors>(
    rt: &R,
    alloc: Global,
    words: &[String],
    source: &mut S,
    sink: &mut K,
    faults: &mut E,
    doors: &mut D,
) -> Status
    requires { length words.now < 2 ^ 32 }
    ensures { Runs (texts words.now) result
        (world (S.state source.old) (D.state doors.old) (K.state sink.old) (E.state faults.old))
        (world (S.state source.new) (D.state doors.new) (K.state sink.new) (E.state faults.new)) }
{
    match read_words(words) {
        Ok(Command::Local(command)) => run_local(alloc, command, source, sink, faults),
        Ok(Command::Threaded(command)) => {
            run_threaded(rt, alloc, words, command, source, sink, faults, doors)
        }
        Err(usage) => tell_usage(faults, usage),
    }
}

/// Runs a command that these words ask for.
fn run_threaded<R: Wait + Threads + Sync, S: Source + Send, K: Sink + Send, E: Sink, D: Doors>(
    rt: &R,
    alloc: Global,
    words: &[String],
    command: ThreadedCommand,
    source: &mut S,
    sink: &mut K,
    faults: &mut E,
    doors: &mut D,
) -> Status
    requires range { IsInRange (job_of (Threaded command)) }
    requires limit { (job_of (Threaded command)).limit ≡ 2 ^ 40 }
    requires few { frames_made (Threaded command) ≤ 1000000 }
    requires words { length words.now < 2 ^ 32 }
    requires workers { IfBatch (Threaded command) (λ workers job names_from. (1 ≤ workers) × (workers ≤ 16)) }
    requires names_from { IfBatch (Threaded command) (λ workers job names_from. names_from < length words.now) }
    requires names { IfBatch (Threaded command) (λ workers job names_from. AreNames (drop names_from (texts words.now))) }
    requires addresses { IfServe (Threaded command) (λ listen target count job. (listen ≡ 1) × (target ≡ 2) × (2 < length words.now)) }
    ensures { Does (texts words.now) (Threaded command) result
        (world (S.state source.old) (D.state doors.old) (K.state sink.old) (E.state faults.old))
        (world (S.state source.new) (D.state doors.new) (K.state sink.new) (E.state faults.new)) }
{
    match command {
        ThreadedCommand::Pump { job } => pump(rt, alloc, &job, source, sink, faults),
        ThreadedCommand::Drill { seed, count, job } => {
            drill(rt, alloc, seed, count, &job, sink, faults)
        }
        ThreadedCommand::Batch {
            workers,
            job,
            names_from,
        } => {
            let names = &words[names_from..];
            batch(
                rt, alloc, workers, &job, names_from, names, sink, faults, doors,
            )
        }
        ThreadedCommand::Serve {
            listen,
            target,
            count,
            job,
        } => {
            let (listen, target) = (words[listen].as_str(), words[target].as_str());
            serve(rt, alloc, listen, target, count, &job, sink, faults, doors)
        }
    }
}

/// Relays as the job says, on two threads, and tells of it.
fn pump<R: Wait + Threads + Sync, S: Source + Send, K: Sink + Send, E: Sink>(
    rt: &R,
    alloc: Global,
    job: &Job,
    source: &mut S,
    sink: &mut K,
    faults: &mut E,
) -> Status
    requires { IsInRange job.now }
    ensures { (doors : DoorsState) → Relays job.now result
        (world (S.state source.old) doors (K.state sink.old) (E.state faults.old))
        (world (S.state source.new) doors (K.state sink.new) (E.state faults.new)) }
{
    let answer = pump_and_settle(rt, alloc, source, sink, job);
    tell_answer(faults, &answer)
}
