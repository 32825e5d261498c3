//! Connections that are relayed one after the other, each to a new one.

ghost use Rattle.std.specs.Prelude.{◌≡◌, ◌≤◌, ◌∷◌, [], decimal, length, vec_capacity, IfErr, IfOk, IsTrue};
ghost use Rattle.edge_core.specs.Device.{Takes, TakesFront};
ghost use Rattle.edge_core.specs.Doors.{DoorsState, Listens};
ghost use Rattle.frame_grammar.specs.Job.{IsInRange};
ghost use Rattle.relay_model.specs.Answers.{Finishes, answer_line};
ghost use Rattle.seg_pool.specs.Words.{Adds, IsOf as IsPassOf};
ghost use Rattle.relay_threads.specs.Serve.{FailsToServe, IsTold, Serves, ServesOne};
ghost use Rattle.relay_threads.specs.declared.serve_end.Ending.{Ending as EndingState};

use crate::answer_lines::{LINE, add_line};
use crate::batching::Task;
use crate::pumping::{pump, settle};
use crate::returning::give_back;
use crate::serve_end::{Ending, Numbered, ServeEnd, first_of, tell_ending};
use edge_core::{BrokenOff, DoorError, Doors, Sink, Source, write_all};
use frame_grammar::Job;
use itoa::Buffer;
use relay_engine::settled_pump_is_reported;
use relay_model::Answer;
use seg_pool::{Pool, PoolPass, nothing_is_out};
use std::alloc::Global;
use std::sync::Wait;
use std::thread::Threads;

/// Why a connection wasn't served: how an opening ended, and the index of the word that names what was to be opened.
#[derive(Clone, Copy)]
struct Refusal {
    error: DoorError,
    word: usize,
}

/// Listens at `listen`, and relays `count` connections, one after the other, each to a new one to `target`, on two threads.
///
/// Once a connection has ended its segments are given back, then its two devices, and then its line is written to `sink`: its
/// number from 1, the number of its status, and how many of its frames were written whole. The status of one connection ends no
/// other, and neither does want of memory for its relay. Once all were served the sink is flushed.
///
/// An opening that is refused, want of memory for one, and a failed write or flush of `sink` end it. Where the target can't be
/// reached, the source of that connection is given back, nothing of it was read, and it has no line. What isn't `Served` with
/// a clean status is told by one line on `faults`, whose failure changes nothing; that of a connection begins with its number.
///
/// It waits for connections, for its devices and as `pump` does. What is out with the pass is what was out before, whatever it
/// answers.
pub fn serve<R: Wait + Threads + Sync, D: Doors, K: Sink, E: Sink>(
    rt: &R,
    alloc: Global,
    doors: &mut D,
    sink: &mut K,
    faults: &mut E,
    listen: &str,
    target: &str,
    count: u32,
    job: &Job,
    pool: &Pool,
    pass: &mut PoolPass,
) -> ServeEnd
    requires range { IsInRange job.now }
    requires pool { IsPassOf pool.now pass.old }
    requires segment { pool.now.segment ≡ job.now.seg }
    ensures served { (ending : EndingState)
        × Serves job.now target.now count ending (D.state doors.old) (D.state doors.new) (K.state sink.old) (K.state sink.new)
        × IsTold ending result (E.state faults.old) (E.state faults.new) }
    ensures pool { IsPassOf pool.now pass.new }
    ensures books { Adds pass.old.books [] pass.new.books }
{
    let ending = listen_and_serve(
        rt, alloc, doors, sink, listen, target, count, job, pool, pass,
    );
    tell_ending(faults, ending)
}

/// Listens, and serves so many connections.
fn listen_and_serve<R: Wait + Threads + Sync, D: Doors, K: Sink>(
    rt: &R,
    alloc: Global,
    doors: &mut D,
    sink: &mut K,
    listen: &str,
    target: &str,
    count: u32,
    job: &Job,
    pool: &Pool,
    pass: &mut PoolPass,
) -> Ending
    requires range { IsInRange job.now }
    requires pool { IsPassOf pool.now pass.old }
    requires segment { pool.now.segment ≡ job.now.seg }
    ensures served { Serves job.now target.now count result (D.state doors.old) (D.state doors.new) (K.state sink.old) (K.state sink.new) }
    ensures pool { IsPassOf pool.now pass.new }
    ensures books { Adds pass.old.books [] pass.new.books }
{
    let line = match Vec::with_capacity(alloc, LINE) {
        Ok(line) => line,
        Err(_) => {
            return Ending::Refused {
                error: DoorError::OutOfMemory,
                word: 1,
            };
        }
    };
    match doors.listen(alloc, listen) {
        Ok(()) => serve_all(rt, alloc, doors, sink, line, target, count, job, pool, pass),
        Err(error) => Ending::Refused { error, word: 1 },
    }
}

/// Serves so many connections, and flushes the sink. `line` has room for the line of one.
fn serve_all<R: Wait + Threads + Sync, D: Doors, K: Sink>(
    rt: &R,
    alloc: Global,
    doors: &mut D,
    sink: &mut K,
    line: Vec<u8>,
    target: &str,
    count: u32,
    job: &Job,
    pool: &Pool,
    pass: &mut PoolPass,
) -> Ending
    requires listening { (first : DoorsState) × Listens first (D.state doors.old) }
    requires room { 281 ≤ vec_capacity line }
    requires range { IsInRange job.now }
    requires pool { IsPassOf pool.now pass.old }
    requires segment { pool.now.segment ≡ job.now.seg }
    ensures served { (first : DoorsState) → Listens first (D.state doors.old) →
        Serves job.now target.now count result first (D.state doors.new) (K.state sink.old) (K.state sink.new) }
    ensures pool { IsPassOf pool.now pass.new }
    ensures books { Adds pass.old.books [] pass.new.books }
{
    let mut line = line;
    let mut failed = None;
    let mut written = 0;
    for index in 0..count {
        match serve_one(rt, alloc, doors, target, job, pool, pass) {
            Err(refusal) => {
                return Ending::Refused {
                    error: refusal.error,
                    word: refusal.word,
                };
            }
            Ok(answer) => {
                let served = Numbered {
                    number: index + 1,
                    answer,
                };
                match write_line(sink, &mut line, &served) {
                    Err(broken) => {
                        return Ending::BrokenOff {
                            written: written + broken.written,
                        };
                    }
                    Ok(len) => written += len,
                }
                failed = first_of(failed, served);
            }
        }
    }
    match sink.flush() {
        Ok(()) => Ending::AllServed { failed },
        Err(_) => Ending::BrokenOff { written },
    }
}

/// Accepts a connection, relays it to a new one, and gives both back.
fn serve_one<R: Wait + Threads + Sync, D: Doors>(
    rt: &R,
    alloc: Global,
    doors: &mut D,
    target: &str,
    job: &Job,
    pool: &Pool,
    pass: &mut PoolPass,
) -> Result<Answer, Refusal>
    requires listening { IsTrue (D.state doors.old).is_listening }
    requires range { IsInRange job.now }
    requires pool { IsPassOf pool.now pass.old }
    requires segment { pool.now.segment ≡ job.now.seg }
    ensures served { IfOk result (λ answer. ServesOne job.now target.now answer (D.state doors.old) (D.state doors.new)) }
    ensures refused { IfErr result (λ refusal. FailsToServe refusal.error refusal.word (D.state doors.old) (D.state doors.new)) }
    ensures pool { IsPassOf pool.now pass.new }
    ensures books { Adds pass.old.books [] pass.new.books }
{
    let mut inlet = match doors.accept(alloc) {
        Ok(inlet) => inlet,
        Err(error) => return Err(Refusal { error, word: 1 }),
    };
    let mut outlet = match doors.connect(alloc, target) {
        Ok(outlet) => outlet,
        Err(error) => {
            doors.give_inlet(inlet);
            return Err(Refusal { error, word: 2 });
        }
    };
    let answer = relay(rt, alloc, &mut inlet, &mut outlet, job, pool, pass);
    give_back(Task { inlet, outlet }, doors);
    Ok(answer)
}

/// Relays a source to a sink on two threads, and gives its segments back.
fn relay<R: Wait + Threads + Sync, S: Source + Send, K: Sink + Send>(
    rt: &R,
    alloc: Global,
    source: &mut S,
    sink: &mut K,
    job: &Job,
    pool: &Pool,
    pass: &mut PoolPass,
) -> Answer
    requires range { IsInRange job.now }
    requires pool { IsPassOf pool.now pass.old }
    requires segment { pool.now.segment ≡ job.now.seg }
    ensures finishes { Finishes job.now result (S.state source.old) (S.state source.new) (K.state sink.old) (K.state sink.new) }
    ensures pool { IsPassOf pool.now pass.new }
    ensures books { Adds pass.old.books [] pass.new.books }
{
    settled_pump_is_reported();
    nothing_is_out();
    let done = pump(rt, alloc, source, sink, job, pool, pass)?;
    Ok(settle(rt, done, pool, pass))
}

/// Writes the line of a connection, which `line` has room for, and answers how many bytes that are.
fn write_line<K: Sink>(
    sink: &mut K,
    line: &mut Vec<u8>,
    served: &Numbered,
) -> Result<u64, BrokenOff>
    requires room { 281 ≤ vec_capacity line.old }
    ensures room { 281 ≤ vec_capacity line.new }
    ensures whole { IfOk result (λ len. Takes (K.state sink.old) (answer_line (decimal served.now.number) served.now.answer) (K.state sink.new)) }
    ensures len { IfOk result (λ len. len ≡ length (answer_line (decimal served.now.number) served.now.answer)) }
    ensures front { IfErr result (λ broken.
        TakesFront (K.state sink.old) (answer_line (decimal served.now.number) served.now.answer) broken.written (K.state sink.new)) }
    ensures short { IfErr result (λ broken. broken.written ≤ 281) }
    ensures few { IfOk result (λ len. len ≤ 281) }
{
    let mut digits = Buffer::new();
    line.clear();
    add_line(line, digits.format(served.number), &served.answer);
    write_all(sink, line.as_slice())?;
    Ok(line.len() as u64)
}
