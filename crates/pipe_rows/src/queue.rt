//! A plain queue of bytes, which tells what a pipe of two ends answers that no threshold holds back.

use crate::replies::{FLUSHED, NOBODY, THE_READER, reply};
use pipe_core::{FlushReply, ReadReply, Wake};
use pipe_shared::{Full, RoomFault};
use std::alloc::{AllocError, Global};

/// How many bytes each segment has.
pub(crate) const SEGMENT: usize = 64;

/// How many bytes were written, committed, consumed and examined, and between which of them the segments lie.
#[derive(Drop)]
pub(crate) struct Queue {
    segments: usize,
    // Where the first segment begins that isn't at home.
    start: u64,
    // Where the segments end that the writer has left and that aren't at home, in order.
    ends: Vec<u64>,
    // Where the segment ends that the writer fills: 0 where it has none.
    granted: u64,
    written: u64,
    committed: u64,
    consumed: u64,
    examined: u64,
    // How many bytes were committed at the last read, and how many segments of `ends` were there.
    read: u64,
    left: usize,
    waits: bool,
}

impl Queue {
    pub(crate) fn new(alloc: Global, segments: usize) -> Queue {
        Queue {
            segments,
            start: 0,
            ends: Vec::new(alloc),
            granted: 0,
            written: 0,
            committed: 0,
            consumed: 0,
            examined: 0,
            read: 0,
            left: 0,
            waits: false,
        }
    }

    /// How many bytes were written, and how many consumed.
    pub(crate) fn carried(&self) -> (u64, u64) {
        (self.written, self.consumed)
    }

    /// The bytes that the last read lends, of which one was answered Ready and there was no advance since: how many went before, and
    /// how many they are.
    pub(crate) fn lent(&self) -> (u64, u64) {
        (self.consumed, self.read.saturating_sub(self.consumed))
    }

    /// How many bytes the writer may write.
    pub(crate) fn free(&self) -> usize {
        self.granted.saturating_sub(self.written) as usize
    }

    /// What a writer is told that asks for room.
    pub(crate) fn room(&mut self, hint: usize) -> Result<Result<usize, RoomFault>, AllocError> {
        let hint = hint.max(1);
        if hint > SEGMENT {
            return Ok(Err(RoomFault::TooLarge {
                hint,
                segment: SEGMENT,
            }));
        }
        if hint <= self.free() {
            return Ok(Ok(self.free()));
        }
        if self.used() >= self.segments {
            return Ok(Err(RoomFault::Full(self.full())));
        }
        if self.granted > 0 {
            self.ends.push(self.written)?;
        }
        self.granted = self.written.saturating_add(SEGMENT as u64);
        Ok(Ok(SEGMENT))
    }

    // How many segments aren't at home.
    fn used(&self) -> usize {
        self.ends.len().saturating_add((self.granted > 0) as usize)
    }

    // A segment is finished once the writer has left it and all its bytes are committed, and the reader has it once its first byte is
    // committed at a read.
    fn full(&self) -> Full {
        let mut finished: usize = 0;
        let mut reader: usize = 0;
        let mut start = self.start;
        for end in self.ends.iter().copied() {
            if end <= self.committed {
                finished = finished.saturating_add(1);
                reader = reader.saturating_add((start < self.read) as usize);
            }
            start = end;
        }
        Full {
            writer: self.used().saturating_sub(finished),
            waiting: finished.saturating_sub(reader),
            reader,
        }
    }

    /// So many bytes are written.
    pub(crate) fn write(&mut self, n: usize) {
        self.written = self.written.saturating_add(n as u64);
    }

    /// What a writer is told that commits all that is written.
    pub(crate) fn flush(&mut self) -> (FlushReply, Wake) {
        let slept = self.waits && self.committed <= self.examined;
        self.committed = self.written;
        if slept && self.committed > self.examined {
            (FLUSHED, THE_READER)
        } else {
            (FLUSHED, NOBODY)
        }
    }

    /// What a reader is told that reads.
    pub(crate) fn read(&mut self) -> (ReadReply, Wake) {
        self.read = self.committed;
        self.left = self.ends.len();
        self.waits = self.committed <= self.examined;
        let held = self.committed.saturating_sub(self.consumed);
        if self.waits {
            let examined = self.examined;
            (ReadReply::Pending { examined, held }, NOBODY)
        } else {
            (reply(None, held), NOBODY)
        }
    }

    /// The first `c` of the lent bytes are consumed, and the first `e` of them were examined. Of the segments that the writer had left
    /// at the last read, those go home that are consumed whole.
    pub(crate) fn advance(&mut self, c: u64, e: u64) {
        self.examined = self.examined.max(self.consumed.saturating_add(e));
        self.consumed = self.consumed.saturating_add(c);
        for _ in 0..self.left {
            match self.ends.first().copied() {
                Some(end) if end <= self.consumed => self.bring_home(end),
                _ => return,
            }
        }
    }

    // The first segment, which ends there, goes home.
    fn bring_home(&mut self, end: u64) {
        if self.ends.len() > 0 {
            self.ends.remove(0);
        }
        self.start = end;
        self.left = self.left.saturating_sub(1);
    }
}
