//! How serving connections ends, and how that is told.

ghost use Rattle.std.specs.Prelude.{◌≡◌, option_map};
ghost use Rattle.relay_model.specs.Answers.{EndsLike};
ghost use Rattle.relay_threads.specs.Serve.{IsTold, first_of as first_in, labelled};

use crate::answer_lines::report_on_answer;
use crate::summary::tell_broken_off;
use crate::telling::{report_on, tell_no_memory};
use edge_core::{BrokenOff, DoorError, Sink};
use itoa::Buffer;
use relay_engine::Told;
use relay_model::{Answer, Status, status_of_answer};

/// How serving connections ended.
#[derive(Clone, Copy, Debug, PartialEq, Eq)]
pub enum ServeEnd {
    /// All were served. `status` is that of the first whose status isn't `Clean`, or else `Clean`.
    Served { status: Status },
    /// An opening was refused: listening or accepting where `word` is 1, connecting where it is 2.
    Door { word: usize },
    /// A write of a line, or the flush of the sink, failed.
    SinkFault,
    /// There was no memory for the lines or for an opening.
    OutOfMemory,
}

/// The number of a connection, counted from 1, and how its relay was answered.
#[derive(Clone, Copy)]
pub struct Numbered {
    pub number: u32,
    pub answer: Answer,
}

/// How serving connections ended, before that is told.
#[derive(Clone, Copy)]
pub enum Ending {
    /// All were served, and this is the first whose status isn't clean.
    AllServed { failed: Option<Numbered> },
    /// An opening didn't succeed, which the word of this index names.
    Refused { error: DoorError, word: usize },
    /// The sink failed behind so many bytes.
    BrokenOff { written: u64 },
}

/// Tells how it ended, in one line where it didn't end clean, as far as no write fails.
pub(crate) fn tell_ending<E: Sink>(faults: &mut E, ending: Ending) -> ServeEnd
    ensures { IsTold ending result (E.state faults.old) (E.state faults.new) }
{
    match ending {
        Ending::AllServed { failed } => ServeEnd::Served {
            status: tell_first(faults, failed),
        },
        Ending::Refused { error, word } => tell_refused(faults, error, word),
        Ending::BrokenOff { written } => {
            tell_broken_off(faults, BrokenOff { written });
            ServeEnd::SinkFault
        }
    }
}

/// Tells of an opening that didn't succeed, and answers so.
fn tell_refused<E: Sink>(faults: &mut E, error: DoorError, word: usize) -> ServeEnd
    ensures { IsTold (Ending.Refused error word) result (E.state faults.old) (E.state faults.new) }
{
    match error {
        DoorError::Failed => {
            report_on(faults, Told::Door { word });
            ServeEnd::Door { word }
        }
        DoorError::OutOfMemory => {
            tell_no_memory(faults);
            ServeEnd::OutOfMemory
        }
    }
}

/// Tells of the first connection whose status isn't clean, if there is one, and answers that status.
fn tell_first<E: Sink>(faults: &mut E, failed: Option<Numbered>) -> Status
    ensures { EndsLike (option_map labelled failed) result (E.state faults.old) (E.state faults.new) }
{
    match failed {
        None => Status::Clean,
        Some(first) => {
            let mut digits = Buffer::new();
            report_on_answer(faults, digits.format(first.number), &first.answer);
            status_of_answer(&first.answer)
        }
    }
}

/// The first connection whose status isn't clean, once the next one was served.
pub(crate) fn first_of(failed: Option<Numbered>, next: Numbered) -> Option<Numbered>
    ensures { result ≡ first_in failed next }
{
    match failed {
        Some(first) => Some(first),
        None => {
            if status_of_answer(&next.answer).is_clean() {
                None
            } else {
                Some(next)
            }
        }
    }
}
