//! Laws of relays. These functions do nothing: what they ensure is the law.

ghost use Rattle.std.specs.Prelude.{◌≡◌};
ghost use Rattle.edge_core.specs.Device.{SourceState, SinkState};
ghost use Rattle.relay_model.specs.Ending.{status_of};
ghost use Rattle.relay_model.specs.Run.{IsComplete, IsRun, HasCause, outcome, RelaysAll, Run, TranslatesAll};

use crate::status::Status;
use frame_grammar::Job;
use frame_model::bad_stays_bad;

/// Where no device fails, the sink gains the translation of all that the source held, however the run ended.
pub fn translates_all()
    ensures { (job : Job) (run : Run) (source_before source_after : SourceState) (sink_before sink_after : SinkState) →
        IsRun job run source_before source_after sink_before sink_after →
        TranslatesAll job source_before source_after sink_before sink_after }
{
    bad_stays_bad();
}

/// With a clean status all of the input was lawful, and all of it was relayed.
pub fn whole_on_status_0()
    ensures { (job : Job) (run : Run) (source_before source_after : SourceState) (sink_before sink_after : SinkState) →
        IsRun job run source_before source_after sink_before sink_after → status_of (outcome job run) ≡ Status.Clean →
        RelaysAll job source_before source_after sink_before sink_after }
{}

/// Where no device fails and the input is lawful, the status is `Clean`.
pub fn complete_where_lawful()
    ensures { (job : Job) (run : Run) (source_before source_after : SourceState) (sink_before sink_after : SinkState) →
        IsRun job run source_before source_after sink_before sink_after →
        IsComplete job (status_of (outcome job run)) source_before source_after sink_before sink_after }
{
    bad_stays_bad();
}

/// Each status has its cause.
pub fn causes_of_statuses()
    ensures { (job : Job) (run : Run) (source_before source_after : SourceState) (sink_before sink_after : SinkState) →
        IsRun job run source_before source_after sink_before sink_after →
        HasCause (status_of (outcome job run)) source_before source_after sink_before sink_after }
{}
