//! What follows from what a command does. These functions do nothing: what they ensure is the law.

ghost use Rattle.std.specs.Prelude.{drop, ◌≡◌, ◌≢◌, ◌↔◌, ◌⊎◌, ℕ, List, IsErr, IfErr, IfOk};
ghost use Rattle.relay_model.specs.Answers.{IsRelayed};
ghost use Rattle.relay_model.specs.Lines.{IsWritten, memory_line, usage_line};
ghost use Rattle.relay_model.specs.Run.{IsComplete, StopsInTime};
ghost use Rattle.relay_model.specs.World.{World};
ghost use Rattle.relay_words.specs.Words.{IfBatch, IfServe, command_of};
ghost use Rattle.relay_top.specs.Batch.{Batches, CompletesBatch};
ghost use Rattle.relay_top.specs.Commands.{IfCopy, IfDrill, IfRelay, IsCaused, IsWhole, Runs, Translates, UnlessOpens};
ghost use Rattle.relay_top.specs.Drill.{Drills, HasGained, SumsUp};
ghost use Rattle.relay_top.specs.Serving.{CompletesServing, ServesAt, word_at};

use relay_model::{
    Status, causes_of_statuses, complete_where_lawful, translates_all, whole_on_status_0,
};

/// What words come to is the translation of what was read, all of it where the status is clean, and each status has its cause.
pub fn what_runs_come_to()
    ensures translated { (words : List (List ℕ)) (status : Status) (was is : World) → Runs words status was is → Translates words status was is }
    ensures whole { (words : List (List ℕ)) (status : Status) (was is : World) → Runs words status was is → status ≡ Status.Clean → IsWhole words was is }
    ensures caused { (words : List (List ℕ)) (status : Status) (was is : World) → Runs words status was is → IsCaused words status was is }
{
    causes_of_statuses();
    translates_all();
    whole_on_status_0();
}

/// The status of words that are no command comes for these alone, and the word is told that can't be read. Without a command, and
/// without memory, nothing is read or written. A batch may have no memory for one of its names, and a server for one of its connections. All but a batch and a server leave
/// the doors as they are.
pub fn what_is_untouched()
    ensures usage { (words : List (List ℕ)) (status : Status) (was is : World) → Runs words status was is → (status ≡ Status.Usage) ↔ IsErr (command_of words) }
    ensures usage_told { (words : List (List ℕ)) (status : Status) (was is : World) → Runs words status was is → IfErr (command_of words) (λ word. IsWritten (usage_line word) was.faults is.faults) }
    ensures source_untouched { (words : List (List ℕ)) (status : Status) (was is : World) → Runs words status was is →
        (status ≡ Status.Usage) ⊎ (status ≡ Status.OutOfMemory) → is.source ≡ was.source }
    ensures sink_untouched { (words : List (List ℕ)) (status : Status) (was is : World) → Runs words status was is → status ≡ Status.Usage → is.sink ≡ was.sink }
    ensures sink_without_memory { (words : List (List ℕ)) (status : Status) (was is : World) → Runs words status was is → status ≡ Status.OutOfMemory →
        IfOk (command_of words) (λ command. UnlessOpens command (is.sink ≡ was.sink)) }
    ensures memory_told { (words : List (List ℕ)) (status : Status) (was is : World) → Runs words status was is → status ≡ Status.OutOfMemory →
        IfOk (command_of words) (λ command. UnlessOpens command (IsWritten memory_line was.faults is.faults)) }
    ensures no_doors { (words : List (List ℕ)) (status : Status) (was is : World) → Runs words status was is → status ≡ Status.Usage → is.doors ≡ was.doors }
    ensures doors_untouched { (words : List (List ℕ)) (status : Status) (was is : World) → Runs words status was is →
        IfOk (command_of words) (λ command. UnlessOpens command (is.doors ≡ was.doors)) }
{
    causes_of_statuses();
}

/// But for want of memory, `copy` and `pump` made a run, which took what the source lost, wrote its translation to the sink, and
/// the status and the line say how it ended. Where no device failed and all that the source held is lawful, the status is clean.
/// `copy` takes less than a segment behind a bad frame.
pub fn what_relays_do()
    ensures relayed { (words : List (List ℕ)) (status : Status) (was is : World) → Runs words status was is → status ≢ Status.OutOfMemory →
        IfOk (command_of words) (λ command. IfRelay command (λ job. IsRelayed job status was is)) }
    ensures complete { (words : List (List ℕ)) (status : Status) (was is : World) → Runs words status was is → status ≢ Status.OutOfMemory →
        IfOk (command_of words) (λ command. IfRelay command (λ job. IsComplete job status was.source is.source was.sink is.sink)) }
    ensures in_time { (words : List (List ℕ)) (status : Status) (was is : World) → Runs words status was is →
        IfOk (command_of words) (λ command. IfCopy command (λ job. StopsInTime job was.source is.source)) }
{
    complete_where_lawful();
}

/// A drill leaves the source as it is. Its sink gains the summary where its status is clean, a front of it where a write failed,
/// and else nothing; and where the sink doesn't fail and the generated input is lawful the summary is written, or there is no
/// memory.
pub fn what_drills_do()
    ensures drill_reads_nothing { (words : List (List ℕ)) (status : Status) (was is : World) → Runs words status was is →
        IfOk (command_of words) (λ command. IfDrill command (λ seed count job. is.source ≡ was.source)) }
    ensures drilled { (words : List (List ℕ)) (status : Status) (was is : World) → Runs words status was is →
        IfOk (command_of words) (λ command. IfDrill command (λ seed count job. Drills seed count job status was is)) }
    ensures drill_gained { (words : List (List ℕ)) (status : Status) (was is : World) → Runs words status was is →
        IfOk (command_of words) (λ command. IfDrill command (λ seed count job. HasGained seed count job status was.sink is.sink)) }
    ensures drill_complete { (words : List (List ℕ)) (status : Status) (was is : World) → Runs words status was is →
        IfOk (command_of words) (λ command. IfDrill command (λ seed count job. SumsUp seed count job status was.sink is.sink)) }
{}

/// A batch leaves the source as it is. It opens the devices of its names, relays each as on one thread alone, and gives them
/// back. Where nothing is refused, no device fails and all that its names have is lawful, all of it is relayed, or there is no
/// memory.
pub fn what_batches_do()
    ensures batch_reads_nothing { (words : List (List ℕ)) (status : Status) (was is : World) → Runs words status was is →
        IfOk (command_of words) (λ command. IfBatch command (λ workers job names_from. is.source ≡ was.source)) }
    ensures batched { (words : List (List ℕ)) (status : Status) (was is : World) → Runs words status was is →
        IfOk (command_of words) (λ command. IfBatch command (λ workers job names_from. Batches (drop names_from words) names_from job status was is)) }
    ensures batch_complete { (words : List (List ℕ)) (status : Status) (was is : World) → Runs words status was is →
        IfOk (command_of words) (λ command. IfBatch command (λ workers job names_from.
        CompletesBatch (drop names_from words) job status was.doors is.doors was.sink is.sink)) }
{
    complete_where_lawful();
}

/// A server leaves the source as it is. It accepts connections, relays each to a new one and gives both back. Where nothing is
/// refused, no device fails and all that its connections hold is lawful, all of it is relayed, or there is no memory.
pub fn what_servers_do()
    ensures serve_reads_nothing { (words : List (List ℕ)) (status : Status) (was is : World) → Runs words status was is →
        IfOk (command_of words) (λ command. IfServe command (λ listen target count job. is.source ≡ was.source)) }
    ensures served { (words : List (List ℕ)) (status : Status) (was is : World) → Runs words status was is →
        IfOk (command_of words) (λ command. IfServe command (λ listen target count job. ServesAt (word_at target words) count job status was is)) }
    ensures serve_complete { (words : List (List ℕ)) (status : Status) (was is : World) → Runs words status was is →
        IfOk (command_of words) (λ command. IfServe command (λ listen target count job.
        CompletesServing (word_at target words) count job status was.doors is.doors was.sink is.sink)) }
{
    complete_where_lawful();
}
