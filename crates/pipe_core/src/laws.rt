//! Laws of the definitions. These functions do nothing: what they ensure is the law.

ghost use Rattle.std.specs.Prelude.{◌≡◌, ◌<◌, ◌≤◌, ◌⊎◌, ℕ, List, [], ◌∷◌, ◌++◌, reverse, map, length, Some, false, IsTrue, IsSome};
ghost use Rattle.pipe_core.specs.History.{Run, Call, bytes_of, run_in, AreRunsOf};
ghost use Rattle.pipe_core.specs.Progress.{held, total};
ghost use Rattle.pipe_core.specs.Lends.{lent_runs};
ghost use Rattle.pipe_core.specs.Progress.{examined, unexamined};
ghost use Rattle.pipe_core.specs.Examined.{IsFarthest};
ghost use Rattle.pipe_core.specs.Pauses.{IsPaused, is_paused};
ghost use Rattle.pipe_core.specs.PlainPauses.{IsPlain};
ghost use Rattle.pipe_core.specs.PlainPauses as plain;
ghost use Rattle.pipe_core.specs.Reads.{reply_to_read, awaited};
ghost use Rattle.pipe_core.specs.Flushes.{reply_to_commit};
ghost use Rattle.pipe_core.specs.Legal.{IsLegal};
ghost use Rattle.pipe_core.specs.History.{Commit, EndWriter, Read, Advance, EndReader, CancelRead, CancelFlush, reader_end, writer_end};
ghost use Rattle.pipe_core.specs.Wakes.{wakes_reader, wakes_writer};
ghost use Rattle.pipe_core.specs.Answers.{Answer, answers};
ghost use Rattle.pipe_core.specs.declared.marks.Marks.{Marks};
ghost use Rattle.pipe_core.specs.Standing.{StandsFor, AnswersAll};
ghost use Rattle.pipe_core.specs.Bytes.{overwritten};
ghost use Rattle.pipe_core.specs.Pipe.{HoldsFor};

use crate::control::Control;
use crate::plain_pipe::PlainPipe;
use crate::reply::{FlushReply, ReadReply};

/// A read and a flush never wait at once: no read for any number of bytes does so, and none that waits already.
pub fn never_both()
    ensures any { (pause resume : ℕ) (h : List Call) (examined held unexamined : ℕ) → (pause ≡ 0) ⊎ (1 ≤ resume) × (resume ≤ pause) → IsLegal h →
        reply_to_read 0 h ≡ ReadReply.Pending examined held → reply_to_commit pause resume h [] ≡ FlushReply.Pending unexamined → ⊥ }
    ensures waiting { (pause resume : ℕ) (h : List Call) (n examined held unexamined : ℕ) → (pause ≡ 0) ⊎ (1 ≤ resume) × (resume ≤ pause) → IsLegal h →
        awaited h ≡ Some n → reply_to_read n h ≡ ReadReply.Pending examined held → reply_to_commit pause resume h [] ≡ FlushReply.Pending unexamined → ⊥ }
{}

/// A flush that waits tells how many bytes nobody has examined, and there are at least as many as end the wait.
pub fn pending_flush_is_due()
    ensures { (pause resume : ℕ) (h : List Call) (runs : List Run) (held : ℕ) → reply_to_commit pause resume h runs ≡ FlushReply.Pending held →
        (held ≡ unexamined (Commit runs ∷ h)) × (resume ≤ held) }
{}

/// The test of a pause says what a pause is.
pub fn pauses_in_words()
    ensures test { (pause resume : ℕ) (h : List Call) → IsTrue (is_paused pause resume h) → IsPaused pause resume h }
    ensures fact { (pause resume : ℕ) (h : List Call) → IsPaused pause resume h → IsTrue (is_paused pause resume h) }
{}

/// Where each read is for any number of bytes, only a commit from below the threshold begins a pause, and no read ends one.
pub fn plain_pauses()
    ensures { (pause resume : ℕ) (h : List Call) → resume ≤ pause → IsPlain h → is_paused pause resume h ≡ plain.is_paused pause resume h }
{}

/// How far the reader has examined is how far its farthest advance has looked, and nothing else is.
pub fn examined_in_words()
    ensures is_farthest { (h : List Call) → IsFarthest h (examined h) }
    ensures only { (h : List Call) (place : ℕ) → IsFarthest h place → place ≡ examined h }
{}

/// The runs of a lend are its bytes, in order.
pub fn runs_are_the_lend()
    ensures { (h : List Call) → bytes_of (lent_runs h) ≡ held h }
{}

/// Adding a call to a history that is told in its order puts it in front of what stood before.
pub fn latest_first()
    ensures { (calls : List Call) (call : Call) → reverse (calls ++ call ∷ []) ≡ call ∷ reverse calls }
{}

/// A read that waits has examined all that is committed, or fewer bytes are held than it asks for.
pub fn waiting_read_has_seen_all()
    ensures seen { (h : List Call) (n examined count : ℕ) → IsLegal h → reply_to_read n h ≡ ReadReply.Pending examined count →
        (examined ≡ length (total h)) ⊎ (count < n) }
    ensures held { (h : List Call) (n examined count : ℕ) → reply_to_read n h ≡ ReadReply.Pending examined count → count ≡ length (held h) }
{}

/// Whatever calls are made of a new control, in whatever order: each is answered as it is on the history so far, and the
/// control then stands for the history of all of them.
pub fn answers_to_all_calls()
    ensures answers { (before after : Marks) (steps : List (Call × Answer)) → StandsFor before [] → AnswersAll before steps after →
        map (λ step. step.1) steps ≡ answers before.pause before.resume (map (λ step. step.0) steps) }
    ensures stands { (before after : Marks) (steps : List (Call × Answer)) → StandsFor before [] → AnswersAll before steps after →
        StandsFor after (reverse (map (λ step. step.0) steps)) }
{}

/// An end that has completed, also by the very call, is never woken.
pub fn completed_end_is_never_woken()
    ensures reader { (call : Call) (h : List Call) → IsLegal (call ∷ h) → IsSome (reader_end (call ∷ h)) → wakes_reader call h ≡ false }
    ensures writer { (pause resume : ℕ) (call : Call) (h : List Call) → IsLegal (call ∷ h) → IsSome (writer_end (call ∷ h)) →
        wakes_writer pause resume call h ≡ false }
{}

/// No end is woken by a call of its own.
pub fn no_end_wakes_itself()
    ensures commit { (pause resume : ℕ) (runs : List Run) (h : List Call) → wakes_writer pause resume (Commit runs) h ≡ false }
    ensures end_writer { (pause resume code : ℕ) (h : List Call) → wakes_writer pause resume (EndWriter code) h ≡ false }
    ensures read { (n : ℕ) (h : List Call) → wakes_reader (Read n) h ≡ false }
    ensures advance { (c e : ℕ) (h : List Call) → wakes_reader (Advance c e) h ≡ false }
    ensures end_reader { (code : ℕ) (h : List Call) → wakes_reader (EndReader code) h ≡ false }
{}

/// A cancellation of one end never reaches the other.
pub fn cancellation_wakes_its_own_end()
    ensures cancel_read { (pause resume : ℕ) (h : List Call) → wakes_writer pause resume CancelRead h ≡ false }
    ensures cancel_flush { (h : List Call) → wakes_reader CancelFlush h ≡ false }
{}

/// Who wrote all of a loan has written all of what was lent.
pub fn whole_loan_is_written()
    ensures { (bytes written : List ℕ) → length written ≡ length bytes → overwritten bytes written ≡ written }
{}

/// A control stands for some history, so what is said of it "for every history" is never empty.
pub fn control_has_a_history(control: &Control)
    ensures { (h : List Call) × StandsFor control.now h }
{
    let _ = &control.marks;
}

/// The same of a pipe over one buffer.
pub fn plain_pipe_has_a_history(pipe: &PlainPipe)
    ensures { (h : List Call) × HoldsFor pipe.now h }
{
    let _ = &pipe.buffer;
}

/// Bytes of one segment are runs of them.
pub fn bytes_of_one_segment()
    ensures { (segment : ℕ) (bytes : List ℕ) → AreRunsOf (run_in segment bytes) bytes }
{}
