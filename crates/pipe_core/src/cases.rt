//! Worked runs, computed from the definitions.

ghost use Rattle.std.specs.Prelude.{◌≡◌, ◌+◌, ◌^◌, ℕ, List, [], ◌∷◌, length, reverse, Option, Some, None, true, false};
ghost use Rattle.pipe_core.specs.History.{Call, Run, Commit, EndWriter, Read, Advance, EndReader, CancelRead, CancelFlush};
ghost use Rattle.pipe_core.specs.Progress.{examined, total};
ghost use Rattle.pipe_core.specs.Flushes.{reply_to_commit};
ghost use Rattle.pipe_core.specs.Lends.{lend, lent_runs};
ghost use Rattle.pipe_core.specs.Legal.{IsLegal};
ghost use Rattle.pipe_core.specs.Answers.{answers, Flushed, Gave, Woke};
ghost use Rattle.pipe_core.specs.Cases.{commit, flushed, nobody, the_reader, the_writer};
ghost use Rattle.pipe_core.specs.declared.reply.FlushReply.TheVariants as flush;
ghost use Rattle.pipe_core.specs.declared.reply.ReadReply.TheVariants as read;

/// A pause ends only below the lower threshold.
pub fn pause_ends_below_resume()
    ensures told { answers 8 4 (commit 7 ∷ commit 1 ∷ Read 0 ∷ Advance 0 4 ∷ commit 0 ∷ Read 0 ∷ Advance 0 5 ∷ commit 0 ∷ [])
        ≡ Flushed flushed nobody ∷ Flushed (flush.Pending 8) nobody
        ∷ Gave (read.Ready false None 8) nobody ∷ Woke nobody ∷ Flushed (flush.Pending 4) nobody
        ∷ Gave (read.Ready false None 8) nobody ∷ Woke the_writer ∷ Flushed flushed nobody ∷ [] }
    ensures legal { IsLegal (reverse (commit 7 ∷ commit 1 ∷ Read 0 ∷ Advance 0 4 ∷ commit 0 ∷ Read 0 ∷ Advance 0 5 ∷ commit 0 ∷ [])) }
{}

/// What is committed while bytes are lent is lent by the next read.
pub fn commit_during_a_lend()
    ensures { answers 0 1 (commit 3 ∷ Read 0 ∷ commit 2 ∷ Advance 0 3 ∷ Read 0 ∷ [])
        ≡ Flushed flushed nobody ∷ Gave (read.Ready false None 3) nobody
        ∷ Flushed flushed nobody ∷ Woke nobody ∷ Gave (read.Ready false None 5) nobody ∷ [] }
{}

/// A cancellation ends a waiting read and loses nothing.
pub fn canceled_read_keeps_bytes()
    ensures { answers 0 1 (commit 5 ∷ Read 0 ∷ Advance 0 5 ∷ Read 0 ∷ CancelRead ∷ Read 0 ∷ Advance 0 5 ∷ Read 0 ∷ [])
        ≡ Flushed flushed nobody ∷ Gave (read.Ready false None 5) nobody ∷ Woke nobody
        ∷ Gave (read.Pending 5 5) nobody ∷ Woke the_reader ∷ Gave (read.Ready true None 5) nobody
        ∷ Woke nobody ∷ Gave (read.Pending 5 5) nobody ∷ [] }
{}

/// A reader that is gone frees the writer.
pub fn reader_gone_ends_pause()
    ensures { answers 8 4 (commit 8 ∷ EndReader 9 ∷ commit 0 ∷ commit 5 ∷ [])
        ≡ Flushed (flush.Pending 8) nobody ∷ Woke the_writer
        ∷ Flushed (flush.Ready false (Some 9)) nobody ∷ Flushed (flush.Ready false (Some 9)) nobody ∷ [] }
{}

/// The examined mark never goes back.
pub fn examined_never_falls()
    ensures told { answers 0 1 (commit 10 ∷ Read 0 ∷ Advance 0 10 ∷ commit 1 ∷ Read 0 ∷ Advance 0 2 ∷ Read 0 ∷ [])
        ≡ Flushed flushed nobody ∷ Gave (read.Ready false None 10) nobody ∷ Woke nobody
        ∷ Flushed flushed nobody ∷ Gave (read.Ready false None 11) nobody ∷ Woke nobody
        ∷ Gave (read.Ready false None 11) nobody ∷ [] }
    ensures mark { examined (reverse (commit 10 ∷ Read 0 ∷ Advance 0 10 ∷ commit 1 ∷ Read 0 ∷ Advance 0 2 ∷ [])) ≡ 10 }
{}

/// A cancellation ends a waiting flush and not the pause.
pub fn canceled_flush_leaves_pause()
    ensures { answers 8 4 (commit 8 ∷ CancelFlush ∷ commit 0 ∷ commit 0 ∷ [])
        ≡ Flushed (flush.Pending 8) nobody ∷ Woke the_writer
        ∷ Flushed (flush.Ready true None) nobody ∷ Flushed (flush.Pending 8) nobody ∷ [] }
{}

/// A pipe takes 2^62 bytes and no more.
pub fn most_bytes()
    ensures ready { (bytes : List ℕ) → reply_to_commit 0 1 [] (record { segment = 0; bytes = bytes } ∷ []) ≡ flushed }
    ensures ready_again { (bytes : List ℕ) → reply_to_commit 0 1 (Commit (record { segment = 0; bytes = bytes } ∷ []) ∷ []) [] ≡ flushed }
    ensures most { (bytes : List ℕ) → length bytes ≡ 2 ^ 62 → IsLegal (Commit (record { segment = 0; bytes = bytes } ∷ []) ∷ []) }
    ensures more { (bytes : List ℕ) (b : ℕ) → length bytes ≡ 2 ^ 62 →
        IsLegal (Commit (record { segment = 0; bytes = b ∷ [] } ∷ []) ∷ Commit (record { segment = 0; bytes = bytes } ∷ []) ∷ []) → ⊥ }
    ensures none { (bytes : List ℕ) → length bytes ≡ 2 ^ 62 →
        IsLegal (Commit [] ∷ Commit (record { segment = 0; bytes = bytes } ∷ []) ∷ []) }
{}

/// A whole run: who waits, who is woken, and what each reply tells.
pub fn whole_run()
    ensures told { answers 8 4 (Read 0 ∷ commit 3 ∷ Read 0 ∷ commit 2 ∷ Advance 1 3 ∷ Read 0 ∷ Advance 4 4 ∷ Read 0 ∷ commit 8 ∷ EndWriter 0
        ∷ Read 0 ∷ Advance 8 8 ∷ Read 0 ∷ EndReader 0 ∷ [])
        ≡ Gave (read.Pending 0 0) nobody ∷ Flushed flushed the_reader
        ∷ Gave (read.Ready false None 3) nobody ∷ Flushed flushed nobody ∷ Woke nobody
        ∷ Gave (read.Ready false None 4) nobody ∷ Woke nobody ∷ Gave (read.Pending 5 0) nobody
        ∷ Flushed (flush.Pending 8) the_reader ∷ Woke nobody
        ∷ Gave (read.Ready false (Some 0) 8) nobody ∷ Woke nobody ∷ Gave (read.Ready false (Some 0) 0) nobody ∷ Woke nobody ∷ [] }
    ensures legal { IsLegal (reverse (Read 0 ∷ commit 3 ∷ Read 0 ∷ commit 2 ∷ Advance 1 3 ∷ Read 0 ∷ Advance 4 4 ∷ Read 0 ∷ commit 8 ∷ EndWriter 0
        ∷ Read 0 ∷ Advance 8 8 ∷ Read 0 ∷ EndReader 0 ∷ [])) }
{}

/// A lend shows what was committed when it was lent, in order, the bytes of one segment joined.
pub fn lend_cases()
    ensures lent { lend (Commit (record { segment = 0; bytes = 99 ∷ [] } ∷ []) ∷ Read 0 ∷ Commit (record { segment = 0; bytes = 97 ∷ 98 ∷ [] } ∷ []) ∷ [])
        ≡ Some (97 ∷ 98 ∷ []) }
    ensures ended { lend (Advance 1 2 ∷ Read 0 ∷ commit 2 ∷ []) ≡ None }
    ensures runs { lent_runs (Advance 1 1 ∷ Read 0 ∷ Commit (record { segment = 7; bytes = 99 ∷ [] } ∷ record { segment = 4; bytes = 100 ∷ [] } ∷ [])
        ∷ Commit (record { segment = 7; bytes = 97 ∷ 98 ∷ [] } ∷ []) ∷ [])
        ≡ record { segment = 7; bytes = 98 ∷ 99 ∷ [] } ∷ record { segment = 4; bytes = 100 ∷ [] } ∷ [] }
    ensures dropped { total (Commit (record { segment = 0; bytes = 99 ∷ [] } ∷ []) ∷ EndReader 0 ∷ commit 2 ∷ []) ≡ 97 ∷ 97 ∷ [] }
{}

/// A read for more bytes than there are ends a pause, and none begins while it waits.
pub fn read_at_least_ends_pause()
    ensures told { answers 8 4 (commit 8 ∷ Read 20 ∷ commit 0 ∷ commit 6 ∷ commit 6 ∷ Read 20 ∷ Advance 20 20 ∷ commit 0 ∷ [])
        ≡ Flushed (flush.Pending 8) nobody ∷ Gave (read.Pending 0 8) the_writer
        ∷ Flushed flushed nobody ∷ Flushed flushed nobody ∷ Flushed (flush.Pending 20) the_reader
        ∷ Gave (read.Ready false None 20) nobody ∷ Woke the_writer ∷ Flushed flushed nobody ∷ [] }
    ensures legal { IsLegal (reverse (commit 8 ∷ Read 20 ∷ commit 0 ∷ commit 6 ∷ commit 6 ∷ Read 20 ∷ Advance 20 20 ∷ commit 0 ∷ [])) }
{}

/// Fewer bytes than a read asked for wake nobody; a cancellation and the writer's completion end its wait.
pub fn read_at_least_waits()
    ensures told { answers 8 4 (Read 3 ∷ commit 2 ∷ CancelRead ∷ Read 3 ∷ Advance 0 2 ∷ Read 3 ∷ EndWriter 0 ∷ Read 3 ∷ [])
        ≡ Gave (read.Pending 0 0) nobody ∷ Flushed flushed nobody
        ∷ Woke the_reader ∷ Gave (read.Ready true None 2) nobody ∷ Woke nobody
        ∷ Gave (read.Pending 2 2) nobody ∷ Woke the_reader ∷ Gave (read.Ready false (Some 0) 2) nobody ∷ [] }
    ensures legal { IsLegal (reverse (Read 3 ∷ commit 2 ∷ CancelRead ∷ Read 3 ∷ Advance 0 2 ∷ Read 3 ∷ EndWriter 0 ∷ Read 3 ∷ [])) }
{}

/// A cancellation ends the wait of a read, and then a commit of nothing begins a pause again.
pub fn canceled_read_at_least_lets_pause()
    ensures told { answers 8 4 (commit 9 ∷ Read 20 ∷ commit 0 ∷ CancelRead ∷ commit 0 ∷ [])
        ≡ Flushed (flush.Pending 9) nobody ∷ Gave (read.Pending 0 9) the_writer
        ∷ Flushed flushed nobody ∷ Woke the_reader ∷ Flushed (flush.Pending 9) nobody ∷ [] }
    ensures legal { IsLegal (reverse (commit 9 ∷ Read 20 ∷ commit 0 ∷ CancelRead ∷ commit 0 ∷ [])) }
{}
