//! What follows from the steps of the sides. These functions do nothing: what they ensure is the law.

ghost use Rattle.std.specs.Prelude.{◌≡◌, ◌≢◌, ◌≤◌, ◌^◌, false, ℕ, List, [], ◌++◌, length, Some, None};
ghost use Rattle.std.specs.List.{AllByRecursion};
ghost use mathlib.Core.List.{IsPrefix};
ghost use Rattle.edge_core.specs.Device.{SinkState, SourceState};
ghost use Rattle.relay_model.specs.declared.ending.FillEnd.{FillEnd};
ghost use Rattle.relay_model.specs.declared.ending.Report.{Report};
ghost use Rattle.relay_model.specs.Run.{IsReported};
ghost use Rattle.turn_cell.specs.Seat.{CellState, IsIdle};
ghost use Rattle.pipe_core.specs.History.{Call, seat_of};
ghost use Rattle.pipe_core.specs.Legal.{IsLegal};
ghost use Rattle.pipe_shared.specs.declared.pipe.Closed.{Closed};
ghost use Rattle.pipe_shared.specs.Made.{ClosesPipe};
ghost use Rattle.pipe_state.specs.Released.{BlockName};
ghost use Rattle.pipe_turns.specs.Name.{Name};
ghost use Rattle.pipe_turns.specs.Turns.{Seat};
ghost use Rattle.relay_engine.specs.Drainer.{DrainState, IsDrained, translated};
ghost use Rattle.relay_engine.specs.PipeDrainer.{DrainerState, IsDraining, IsUnwritten, StepsDrainer, end_by};
ghost use Rattle.relay_engine.specs.PipeFiller.{FillerState, IsUnused, StepsOn, all_of};
ghost use Rattle.relay_engine.specs.Pumped.{HasPumped};
ghost use Rattle.relay_engine.specs.Sides.{HasDrained, HasFilled};
ghost use Rattle.relay_engine.specs.SoFar.{IsFilling, WroteSoFar};
ghost use Rattle.relay_engine.specs.declared.drain_end.DrainEnd.{DrainEnd};
ghost use Rattle.relay_engine.specs.declared.pipe_drainer.DrainStep.{DrainStep};
ghost use Rattle.relay_engine.specs.declared.pipe_filler.FillStep.{FillStep};
ghost use Rattle.relay_engine.specs.declared.pipe_filler.FillStep.TheVariants.{Done};

use frame_grammar::Job;

/// A new drainer has written nothing, on a pipe that is new.
pub fn drained_at_first()
    ensures { (job : Job) → IsDrained (record { job = job; place = 0; frames = 0; written = 0; known = 0 }) [] [] }
{}

/// What a drainer has written stays what it is to have written, whatever others do: these calls, the latest first.
pub fn drained_behind_others()
    ensures { (d : DrainState) (h : List Call) (text : List ℕ) (calls : List Call) →
        AllByRecursion (λ call. seat_of call ≢ 1) calls → IsLegal (calls ++ h) → IsDrained d h text → IsDrained d (calls ++ h) text }
{}

/// What a drainer has written is at any time a front of the translation of all that is committed.
pub fn drained_is_a_front()
    ensures { (d : DrainState) (h : List Call) (text : List ℕ) → IsDrained d h text → IsPrefix text (translated d.job h).text }
{}

/// The steps of a filler add up: what was taken by all of them is what its source has lost since the first one. Who makes them
/// in a loop keeps that, and has it of the last one as `fill` has.
pub fn steps_fill()
    ensures first { (pipe : CellState Name) (f : FillerState) (source : SourceState) → IsUnused f → IsIdle pipe f.end.seat → IsFilling pipe f.limit source f source }
    ensures next { (pipe : CellState Name) (limit : ℕ) (start : SourceState) (old new : FillerState) (step : FillStep) (before after : SourceState) →
        IsFilling pipe limit start old before → IsIdle pipe new.end.seat → new.done ≡ false → new.limit ≡ old.limit → new.taken ≡ length (all_of new.end) → new.taken ≤ new.limit →
        StepsOn pipe old before step new after → IsFilling pipe limit start new after }
    ensures last { (pipe : CellState Name) (limit : ℕ) (start : SourceState) (old new : FillerState) (end : FillEnd) (seat : Seat) (told : ℕ) (before after : SourceState) →
        IsFilling pipe limit start old before → seat ≡ new.end.seat → told ≡ length (all_of new.end) → told ≤ new.limit → new.limit ≡ old.limit → new.taken ≡ length (all_of new.end) → new.taken ≤ new.limit →
        StepsOn pipe old before (Done end) new after → HasFilled limit end seat told start after }
{}

/// The steps of a drainer add up: the text of all of them is what its sink has gained since the first one.
pub fn steps_drain()
    ensures first { (d : DrainerState) (text : List ℕ) (sink : SinkState) → IsUnwritten d → IsDraining d text → WroteSoFar d.draining.drained.job sink d sink }
    ensures next { (job : Job) (start : SinkState) (old new : DrainerState) (before after : SinkState) (step : DrainStep) →
        WroteSoFar job start old before → StepsDrainer old before step new after → end_by step ≡ None → WroteSoFar job start new after }
    ensures last { (job : Job) (start : SinkState) (old new : DrainerState) (before after : SinkState) (step : DrainStep) (end : DrainEnd) (seat : Seat) (frames written : ℕ) →
        end_by step ≡ Some end → new.done ≡ Some seat → frames ≡ new.draining.drained.frames → written ≡ new.draining.drained.written →
        WroteSoFar job start old before → StepsDrainer old before step new after → HasDrained job end seat frames written start after }
{}

/// Once the pipe of both sides is closed, what they have seen of it is one history, and the report is that of a run: what a
/// relay on one thread may answer, whichever threads made the steps.
pub fn settled_pump_is_reported()
    ensures { (job : Job) (report : Report) (writer reader canceller : Seat) (blocks : List BlockName) (closed : Closed) (source_before source_after : SourceState) (sink_before sink_after : SinkState) →
        job.limit ≤ 2 ^ 40 → HasPumped job report writer reader source_before source_after sink_before sink_after → ClosesPipe blocks writer reader canceller closed →
        IsReported job report source_before source_after sink_before sink_after }
{}
