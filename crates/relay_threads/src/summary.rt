//! What is written to the sink once all is relayed.

ghost use Rattle.std.specs.Prelude.{◌≡◌, IfErr, OnOk};
ghost use Rattle.edge_core.specs.Device.{Takes, TakesFront};
ghost use Rattle.relay_model.specs.declared.ending.Outcome.TheVariants.{WriteFault};
ghost use Rattle.relay_model.specs.Lines.{IsWritten, line_of};
ghost use Rattle.relay_engine.specs.Tell.{told_line};

use crate::telling::report_on;
use edge_core::{BrokenOff, Sink, write_all};
use relay_engine::Told;
use relay_model::{Outcome, Report, Status};

/// Writes all of a text and flushes the sink, or tells how much of the text was written.
pub fn write_summary<K: Sink>(sink: &mut K, text: &[u8]) -> Result<(), BrokenOff>
    ensures whole { OnOk result (Takes (K.state sink.old) text.now (K.state sink.new)) }
    ensures front { IfErr result (λ broken. TakesFront (K.state sink.old) text.now broken.written (K.state sink.new)) }
{
    write_all(sink, text)?;
    let Ok(()) = sink.flush() else {
        return Err(BrokenOff {
            written: text.len() as u64,
        });
    };
    Ok(())
}

/// Tells of a summary that was broken off, and gives the status of that.
pub fn tell_broken_off<E: Sink>(faults: &mut E, broken: BrokenOff) -> Status
    ensures status { result ≡ Status.WriteFault }
    ensures told { IsWritten (line_of WriteFault 0 broken.written) (E.state faults.old) (E.state faults.new) }
{
    report_on(faults, told_of(broken));
    Status::WriteFault
}

fn told_of(broken: BrokenOff) -> Told
    ensures { told_line result ≡ line_of WriteFault 0 broken.written }
{
    Told::Relay {
        report: Report {
            outcome: Outcome::WriteFault,
            frames: 0,
            taken: 0,
            written: broken.written,
        },
    }
}
