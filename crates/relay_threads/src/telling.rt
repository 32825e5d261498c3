//! The line on faults, and the status that goes with it.

ghost use Rattle.std.specs.Prelude.{◌≡◌};
ghost use Rattle.relay_model.specs.Answers.{cause_of_answer, status_of_answer as status_in};
ghost use Rattle.relay_model.specs.Lines.{IsWritten, memory_line};
ghost use Rattle.relay_engine.specs.Tell.{told_line};

use edge_core::Sink;
use relay_engine::{Told, tell};
use relay_model::{Answer, Status, status_of_answer};

/// Writes the line, as far as no write fails: a failure of `faults` changes nothing.
pub fn report_on<E: Sink>(faults: &mut E, told: Told)
    ensures { IsWritten (told_line told) (E.state faults.old) (E.state faults.new) }
{
    let Ok(()) = tell(faults, told) else {
        return;
    };
}

/// Tells how a relay was answered, and gives its status.
pub fn tell_answer<E: Sink>(faults: &mut E, answer: &Answer) -> Status
    ensures status { result ≡ status_in answer.now }
    ensures told { IsWritten (cause_of_answer answer.now) (E.state faults.old) (E.state faults.new) }
{
    report_on(faults, cause_of(answer));
    status_of_answer(answer)
}

/// What is told of how a relay was answered.
pub fn cause_of(answer: &Answer) -> Told
    ensures { told_line result ≡ cause_of_answer answer.now }
{
    match answer {
        Ok(report) => Told::Relay { report: *report },
        Err(_) => Told::Memory,
    }
}

/// Tells that there is no memory, and gives the status of that.
pub fn tell_no_memory<E: Sink>(faults: &mut E) -> Status
    ensures status { result ≡ Status.OutOfMemory }
    ensures told { IsWritten memory_line (E.state faults.old) (E.state faults.new) }
{
    report_on(faults, Told::Memory);
    Status::OutOfMemory
}
