//! The line on words that are no command.

ghost use Rattle.edge_core.specs.Device.{SinkState, SourceState};
ghost use Rattle.edge_core.specs.Doors.{DoorsState};
ghost use Rattle.relay_model.specs.World.{world};
ghost use Rattle.relay_top.specs.Commands.{RefusesWord};

use edge_core::Sink;
use relay_engine::Told;
use relay_model::Status;
use relay_threads::report_on;
use relay_words::Usage;

/// Tells the word that can't be read, and gives the status of that.
pub(crate) fn tell_usage<E: Sink>(faults: &mut E, usage: Usage) -> Status
    ensures { (source : SourceState) (doors : DoorsState) (sink : SinkState) →
        RefusesWord usage.word result (world source doors sink (E.state faults.old)) (world source doors sink (E.state faults.new)) }
{
    report_on(faults, Told::Usage { word: usage.word });
    Status::Usage
}
