//! How a caller waits between the attempts of a call that is tried again.

use crate::ends::{ReaderEnd, WriterEnd};
use crossbeam_utils::Backoff;
use crossbeam_utils::sync::Parker;
use std::sync::Wait;

/// How often a call whose answer is up to the other end is tried again before its thread sleeps. To sleep and be woken
/// takes microseconds, which is longer than the other end takes for a segment of some KiB.
const TRIES: u32 = 64;

/// The attempts of one call so far. Who makes a try call again waits in between: for a turn where it was Busy, and for the other
/// end where it was Pending or Full.
#[derive(Drop)]
pub struct Attempts {
    backoff: Backoff,
    waited: u32,
}

impl Attempts {
    /// No attempt yet.
    pub fn new() -> Attempts {
        Attempts {
            backoff: Backoff::new(),
            waited: 0,
        }
    }

    /// Waits for a turn, which is never held for long: its thread never sleeps for it.
    pub fn wait_for_turn(&self) {
        self.backoff.snooze();
    }

    /// Waits for the reader, behind a call of this writer that was answered Pending or Full: some turns of the processor at
    /// first, and then its thread sleeps until a call of the reader, or a cancellation, makes it ready. It may return without
    /// a cause.
    pub fn wait_for_reader<R: Wait>(&mut self, rt: &R, writer: &WriterEnd) {
        self.wait_for_other(rt, &writer.parker);
    }

    /// The same for a reader, behind a read that was answered Pending: for the writer.
    pub fn wait_for_writer<R: Wait>(&mut self, rt: &R, reader: &ReaderEnd) {
        self.wait_for_other(rt, &reader.parker);
    }

    // Waits for the other end.
    fn wait_for_other<R: Wait>(&mut self, rt: &R, parker: &Parker) {
        if self.waited < TRIES {
            self.waited += 1;
            self.backoff.snooze();
        } else {
            parker.park(rt);
        }
    }
}
