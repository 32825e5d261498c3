//! The turns of a pipe's seats. A step is one exchange at most, by which it takes the turn or is refused as Busy; it doesn't wait.

ghost use Rattle.std.specs.Prelude.{◌≡◌, ◌+◌, ◌^◌, ◌≤◌, ◌<◌, [], ◌∷◌, length, reverse, None, IsSomeAnd, IfErr, IfOk};
ghost use Rattle.turn_cell.specs.Seat.{IsOf, IsIdle};
ghost use Rattle.pipe_core.specs.History.{Commit, Read, Advance, EndReader, CancelRead, CancelFlush, bytes_of, closing};
ghost use Rattle.pipe_core.specs.Lends.{lend};
ghost use Rattle.pipe_core.specs.Answers.{Flushed, Gave, Woke};
ghost use Rattle.pipe_state.specs.Sides.{reader_has};
ghost use Rattle.pipe_turns.specs.Log.{calls_of};
ghost use Rattle.pipe_turns.specs.Lends.{is_lending, lend_runs, runs_in};
ghost use Rattle.pipe_turns.specs.Turns.{FindsHeld, Refuses, RefusesFlush, Makes};
ghost use Rattle.pipe_turns.specs.Ends.{IsEnd, ReadsFor, WritesFor};
ghost use Rattle.pipe_turns.specs.Holding.{HasTurn, GoesOn, Attends};
ghost use Rattle.pipe_turns.specs.Room.{FindsRoom};

use crate::entry::Entry;
use crate::faults::{FlushFault, TryFault};
use crate::state::SharedPipe;
use pipe_core::{FlushReply, ReadReply, TooMuch, Wake};
use pipe_state::{Full, Reading, Writing};
use std::marker::Brand;
use turn_cell::{Adds, Busy, Held, TurnCell, TurnSeat};

/// From so many entries on a history takes no more: a call may make two, and it may have 2^62 at most.
const WORN_AT: u64 = (1 << 62) - 2;

// Takes the turn, for a call that makes entries.
fn take(
    cell: &TurnCell<SharedPipe>,
    seat: &mut TurnSeat<SharedPipe>,
) -> Result<Held<SharedPipe>, TryFault>
    requires { IsIdle cell.now seat.old }
    ensures seat { IsOf cell.now seat.new }
    ensures taken { IfOk result (λ held. HasTurn cell.now seat.old held seat.new) }
    ensures refused { IfErr result (λ fault. Refuses fault seat.old seat.new) }
{
    let held = match cell.try_take(seat) {
        Ok(held) => held,
        Err(Busy { word }) => return Err(TryFault::Busy { word }),
    };
    let entries = held.entries();
    if entries >= WORN_AT {
        cell.put::<Brand>(seat, held, 0);
        return Err(TryFault::Worn { entries });
    }
    Ok(held)
}

/// Commits the draft. Where that is refused the writer's part stays as it was.
pub fn commit<A: Adds<Entry>>(
    cell: &TurnCell<SharedPipe>,
    seat: &mut TurnSeat<SharedPipe>,
    part: &mut Writing,
) -> Result<(FlushReply, Wake), FlushFault>
    requires seat { IsOf cell.now seat.old }
    requires goes { GoesOn seat.old }
    requires part { WritesFor cell.now.name part.old }
    requires entry { A.entries ≡ Commit part.old.draft ∷ [] }
    ensures seat { IsOf cell.now seat.new }
    ensures made { IfOk result (λ answer.
        Makes cell.now.name.options seat.old (Commit part.old.draft ∷ []) (Flushed answer.0 answer.1) seat.new) }
    ensures part { IfOk result (λ _. part.new ≡ record part.old { draft = []; has = part.new.has }) }
    ensures hint { part.new.has.hint ≡ part.old.has.hint }
    ensures refused { IfErr result (λ fault. RefusesFlush (length (bytes_of part.old.draft)) fault seat.old seat.new) }
    ensures unchanged { IfErr result (λ _. part.new ≡ part.old) }
{
    let mut held = take(cell, seat)?;
    match held.state_mut().pipe.commit(part) {
        Ok(answer) => {
            cell.put::<A>(seat, held, 1);
            Ok(answer)
        }
        Err(TooMuch { total }) => {
            cell.put::<Brand>(seat, held, 0);
            Err(FlushFault::TooMuch { total })
        }
    }
}

/// Commits the draft, if there is one, and completes the writer with a code. Where that is refused the writer's part comes back.
pub fn complete<A: Adds<Entry>>(
    cell: &TurnCell<SharedPipe>,
    seat: &mut TurnSeat<SharedPipe>,
    part: Writing,
    code: u32,
) -> Result<Wake, (Writing, FlushFault)>
    requires seat { IsOf cell.now seat.old }
    requires goes { GoesOn seat.old }
    requires part { WritesFor cell.now.name part }
    requires entries { A.entries ≡ reverse (closing part.draft code) }
    ensures seat { IsOf cell.now seat.new }
    ensures made { IfOk result (λ wake. Makes cell.now.name.options seat.old (closing part.draft code) (Woke wake) seat.new) }
    ensures refused { IfErr result (λ back. RefusesFlush (length (bytes_of part.draft)) back.1 seat.old seat.new) }
    ensures back { IfErr result (λ back. back.0 ≡ part) }
{
    let mut held = match take(cell, seat) {
        Ok(held) => held,
        Err(fault) => return Err((part, FlushFault::from(fault))),
    };
    part.is_full();
    let added = if part.draft_len() == 0 { 1 } else { 2 };
    match held.state_mut().pipe.complete(part, code) {
        Ok(wake) => {
            cell.put::<A>(seat, held, added);
            Ok(wake)
        }
        Err((part, TooMuch { total })) => {
            cell.put::<Brand>(seat, held, 0);
            Err((part, FlushFault::TooMuch { total }))
        }
    }
}

/// Another segment for the writer, for want of room for `hint` bytes in the one that it fills: how many bytes are free then, which are
/// all that it has, or what fills the pipe, where no segment is at home. It makes no entry.
pub fn room(
    cell: &TurnCell<SharedPipe>,
    seat: &mut TurnSeat<SharedPipe>,
    hint: usize,
    part: &mut Writing,
) -> Result<Result<usize, Full>, Busy>
    requires seat { IsOf cell.now seat.old }
    requires goes { GoesOn seat.old }
    requires part { WritesFor cell.now.name part.old }
    requires short { length part.old.free < hint }
    requires fits { hint ≤ cell.now.name.options.segment }
    ensures seat { IsOf cell.now seat.new }
    ensures found { IfOk result (λ answer. FindsRoom cell.now.name.options hint answer seat.old part.old seat.new part.new) }
    ensures busy { IfErr result (λ busy. FindsHeld busy.word seat.old seat.new × (part.new ≡ part.old)) }
{
    let mut held = cell.try_take(seat)?;
    let answer = held.state_mut().pipe.room(hint, part);
    cell.put::<Brand>(seat, held, 0);
    Ok(answer)
}

/// Reads for at least `n` bytes, and gets the reader all that was committed. No byte moves. Where that is refused the reader's part
/// stays as it was.
pub fn read<A: Adds<Entry>>(
    cell: &TurnCell<SharedPipe>,
    seat: &mut TurnSeat<SharedPipe>,
    n: u64,
    part: &mut Reading,
) -> Result<(ReadReply, Wake), TryFault>
    requires bound { n ≤ 2 ^ 62 }
    requires seat { IsOf cell.now seat.old }
    requires attends { Attends seat.old }
    requires no_lend { lend (calls_of seat.old.seen) ≡ None }
    requires part { ReadsFor cell.now.name part.old }
    requires entry { A.entries ≡ Read n ∷ [] }
    ensures seat { IsOf cell.now seat.new }
    ensures made { IfOk result (λ answer. Makes cell.now.name.options seat.old (Read n ∷ []) (Gave answer.0 answer.1) seat.new) }
    ensures lent { IfOk result (λ answer. lend_runs (calls_of seat.new.seen) ≡ runs_in (is_lending answer.0) (reader_has part.new.chain)) }
    ensures refused { IfErr result (λ fault. Refuses fault seat.old seat.new) }
    ensures unchanged { IfErr result (λ _. part.new ≡ part.old) }
    ensures part { ReadsFor cell.now.name part.new }
{
    let mut held = take(cell, seat)?;
    let answer = held.state_mut().pipe.read_at_least(n, part);
    cell.put::<A>(seat, held, 1);
    Ok(answer)
}

/// Gives up the first `c` of the lent bytes, tells that the first `e` of them were examined, and ends the lend. Where that is refused
/// the reader's part stays as it was.
pub fn advance<A: Adds<Entry>>(
    cell: &TurnCell<SharedPipe>,
    seat: &mut TurnSeat<SharedPipe>,
    c: u64,
    e: u64,
    part: &mut Reading,
) -> Result<Wake, TryFault>
    requires seat { IsOf cell.now seat.old }
    requires attends { Attends seat.old }
    requires lent { IsSomeAnd (lend (calls_of seat.old.seen)) (λ bytes. (c ≤ e) × (e ≤ length bytes)) }
    requires part { ReadsFor cell.now.name part.old }
    requires entry { A.entries ≡ Advance c e ∷ [] }
    ensures seat { IsOf cell.now seat.new }
    ensures made { IfOk result (λ wake. Makes cell.now.name.options seat.old (Advance c e ∷ []) (Woke wake) seat.new) }
    ensures refused { IfErr result (λ fault. Refuses fault seat.old seat.new) }
    ensures unchanged { IfErr result (λ _. part.new ≡ part.old) }
    ensures part { ReadsFor cell.now.name part.new }
{
    let mut held = take(cell, seat)?;
    let wake = held.state_mut().pipe.advance(c, e, part);
    cell.put::<A>(seat, held, 1);
    Ok(wake)
}

/// Completes the reader with a code. Its part stays with the pipe; where that is refused it comes back.
pub fn end_reader<A: Adds<Entry>>(
    cell: &TurnCell<SharedPipe>,
    seat: &mut TurnSeat<SharedPipe>,
    part: Reading,
    code: u32,
) -> Result<Wake, (Reading, TryFault)>
    requires seat { IsOf cell.now seat.old }
    requires attends { Attends seat.old }
    requires part { ReadsFor cell.now.name part }
    requires entry { A.entries ≡ EndReader code ∷ [] }
    ensures seat { IsOf cell.now seat.new }
    ensures made { IfOk result (λ wake. Makes cell.now.name.options seat.old (EndReader code ∷ []) (Woke wake) seat.new) }
    ensures refused { IfErr result (λ back. Refuses back.1 seat.old seat.new) }
    ensures back { IfErr result (λ back. back.0 ≡ part) }
{
    let mut held = match take(cell, seat) {
        Ok(held) => held,
        Err(fault) => return Err((part, fault)),
    };
    let wake = held.state_mut().pipe.end_reader(part, code);
    cell.put::<A>(seat, held, 1);
    Ok(wake)
}

/// Cancels the pending read, or the next one.
pub fn cancel_read(
    cell: &TurnCell<SharedPipe>,
    seat: &mut TurnSeat<SharedPipe>,
) -> Result<Wake, TryFault>
    requires seat { IsOf cell.now seat.old }
    requires end { IsEnd 2 seat.old }
    ensures seat { IsOf cell.now seat.new }
    ensures made { IfOk result (λ wake. Makes cell.now.name.options seat.old (CancelRead ∷ []) (Woke wake) seat.new) }
    ensures refused { IfErr result (λ fault. Refuses fault seat.old seat.new) }
{
    let mut held = take(cell, seat)?;
    let wake = held.state_mut().pipe.cancel_read();
    cell.put::<Brand>(seat, held, 1);
    Ok(wake)
}

/// Cancels the pending flush, or the next one.
pub fn cancel_flush(
    cell: &TurnCell<SharedPipe>,
    seat: &mut TurnSeat<SharedPipe>,
) -> Result<Wake, TryFault>
    requires seat { IsOf cell.now seat.old }
    requires end { IsEnd 2 seat.old }
    ensures seat { IsOf cell.now seat.new }
    ensures made { IfOk result (λ wake. Makes cell.now.name.options seat.old (CancelFlush ∷ []) (Woke wake) seat.new) }
    ensures refused { IfErr result (λ fault. Refuses fault seat.old seat.new) }
{
    let mut held = take(cell, seat)?;
    let wake = held.state_mut().pipe.cancel_flush();
    cell.put::<Brand>(seat, held, 1);
    Ok(wake)
}
