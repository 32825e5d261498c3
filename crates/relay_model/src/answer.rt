//! What a relay is answered by.

ghost use Rattle.std.specs.Prelude.{◌≡◌};
ghost use Rattle.relay_model.specs.Answers.{frames_of_answer as frames_in, status_of_answer as status_in};

use crate::ending::Report;
use crate::status::{Status, status_of};
use std::alloc::AllocError;

/// The report of a relay, or that there was no memory for it.
pub type Answer = Result<Report, AllocError>;

/// The status of a relay.
pub fn status_of_answer(answer: &Answer) -> Status
    ensures { result ≡ status_in answer.now }
{
    match answer {
        Ok(report) => status_of(report.outcome),
        Err(_) => Status::OutOfMemory,
    }
}

/// How many frames of a relay were written whole.
pub fn frames_of_answer(answer: &Answer) -> u64
    ensures { result ≡ frames_in answer.now }
{
    match answer {
        Ok(report) => report.frames,
        Err(_) => 0,
    }
}
