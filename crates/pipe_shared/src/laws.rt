//! What the calls of an end say of the histories that it has seen. These functions do nothing: what they ensure is the law.

ghost use Rattle.std.specs.Prelude.{ℕ, ◌≡◌, ◌≤◌, [], ◌++◌, List, reverse, None};
ghost use Rattle.std.specs.List.{AllByRecursion};
ghost use Rattle.turn_cell.specs.History.{made_by};
ghost use Rattle.pipe_core.specs.History.{Call, seat_of};
ghost use Rattle.pipe_core.specs.Answers.{Answer};
ghost use Rattle.pipe_core.specs.Lends.{lend};
ghost use Rattle.pipe_state.specs.Held.{HoldsRuns};
ghost use Rattle.pipe_turns.specs.declared.faults.TryFault.{TryFault};
ghost use Rattle.pipe_state.specs.declared.options.Options.{Options};
ghost use Rattle.pipe_turns.specs.Log.{calls_of};
ghost use Rattle.pipe_turns.specs.Turns.{Makes, Refuses, Seat, Wins};
ghost use Rattle.pipe_turns.specs.Ends.{IsEnd};
ghost use Rattle.pipe_turns.specs.Heard.{CallsBehind, Hears};
ghost use Rattle.pipe_shared.specs.Local.{Local, LocalAnswers, LocalKeeps};

use crate::ends::{Canceller, ReaderDone, ReaderEnd, WriterDone, WriterEnd};
use crate::local::LocalPipe;
use crate::pipe::Pipe;

/// A segment has at least one byte, so no room for one byte is TooLarge.
pub fn segments_have_a_byte(pipe: &Pipe)
    ensures { 1 ≤ pipe.now.name.options.segment }
{
    let _ = &pipe.options;
}

/// The same of a pipe for one thread.
pub fn local_segments_have_a_byte(pipe: &LocalPipe)
    ensures { 1 ≤ pipe.now.options.segment }
{
    let _ = &pipe.options;
}

/// A writer has the seat 0, and what it has made stands in what it has seen, which is lawful.
pub fn writer_has_its_seat(writer: &WriterEnd)
    ensures { IsEnd 0 writer.now.seat }
{
    let _ = &writer.seat;
}

/// A reader has the seat 1, and what it has made stands in what it has seen, which is lawful.
pub fn reader_has_its_seat(reader: &ReaderEnd)
    ensures { IsEnd 1 reader.now.seat }
{
    let _ = &reader.seat;
}

/// What a reader is lent is what its last read lends, behind all that it has seen. So one that has made no call is lent nothing.
pub fn reader_is_lent_what_it_has_seen(reader: &ReaderEnd)
    ensures lent { reader.now.lent ≡ lend (calls_of reader.now.seat.seen) }
    ensures none { reader.now.seat.own ≡ [] → reader.now.lent ≡ None }
{
    let _ = &reader.seat;
}

/// A writer that has completed has the seat 0 too.
pub fn done_writer_has_its_seat(writer: &WriterDone)
    ensures { IsEnd 0 writer.now }
{
    let _ = &writer.seat;
}

/// A reader that has completed has the seat 1 too.
pub fn done_reader_has_its_seat(reader: &ReaderDone)
    ensures { IsEnd 1 reader.now }
{
    let _ = &reader.seat;
}

/// A canceller has the seat 2, in the same way.
pub fn canceller_has_its_seat(canceller: &Canceller)
    ensures { IsEnd 2 canceller.now }
{
    let _ = &canceller.seat;
}

/// A pipe for one thread stands for some history, so what is said of it "for every history" is never empty.
pub fn local_pipe_has_a_history(pipe: &LocalPipe)
    ensures { (h : List Call) × HoldsRuns pipe.now.pipe h }
{
    let _ = &pipe.options;
}

/// Calls of a pipe for one thread stand in its history with the number of the seat that made them.
pub fn local_history_grows()
    ensures { (seat : ℕ) (before after : Local) (calls : List Call) (answer : Answer) (history : List (ℕ × Call)) → AllByRecursion (λ call. seat_of call ≡ seat) calls →
        LocalAnswers before calls answer after → LocalKeeps before history → LocalKeeps after (history ++ made_by seat (reverse calls)) }
{}

/// What an end had seen stays. Behind it stand calls that others made since, and behind these its own, if it made any.
pub fn others_are_heard_first()
    ensures made { (number : ℕ) (options : Options) (calls : List Call) (answer : Answer) (old new : Seat) → IsEnd number old → Makes options old calls answer new →
        CallsBehind options number (calls_of old.seen) calls answer (calls_of new.seen) }
    ensures won { (number : ℕ) (old new : Seat) → IsEnd number old → Wins old new → Hears number (calls_of old.seen) (calls_of new.seen) }
    ensures refused { (number : ℕ) (fault : TryFault) (old new : Seat) → IsEnd number old → Refuses fault old new → Hears number (calls_of old.seen) (calls_of new.seen) }
{}
