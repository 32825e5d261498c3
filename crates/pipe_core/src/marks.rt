//! Marks and flags of fixed width, and what is read off them.

ghost use Rattle.std.specs.Prelude.{◌≡◌, ◌≤◌, ◌^◌, ◌&&◌, Option, Some, None, if◌then◌else◌};
ghost use Rattle.pipe_core.specs.Control.{AreInOrder, reads_now, lacks_now, readies, lasts_now, pauses_now, flush_goes, flushes_now, woken, total_with};
ghost use Rattle.pipe_core.specs.declared.reply.FlushReply.TheVariants as flush;
ghost use Rattle.pipe_core.specs.declared.reply.ReadReply.TheVariants as read;

use crate::reply::{FlushReply, ReadReply, Wake};

/// The greatest total of a pipe, in bytes.
const MOST: u64 = 1 << 62;

/// How far a pipe has come, what stands, and who waits. A count is of bytes from the first one of the pipe.
#[derive(Clone, Copy, Debug)]
pub struct Marks {
    /// From how many unexamined bytes on a flush waits, or 0 for never.
    pub pause: u64,
    /// Below how many unexamined bytes the wait ends.
    pub resume: u64,
    /// The total: how many bytes were committed before the reader completed.
    pub committed: u64,
    /// How many bytes the reader has given up.
    pub consumed: u64,
    /// How far the reader has looked.
    pub examined: u64,
    /// The code with which the writer has completed.
    pub ended: Option<u32>,
    /// The code with which the reader has completed.
    pub gone: Option<u32>,
    /// A cancellation of reads stands.
    pub read_canceled: bool,
    /// A cancellation of flushes stands.
    pub flush_canceled: bool,
    /// Back-pressure holds the writer.
    pub paused: bool,
    /// How many bytes are lent, while a lend stands.
    pub lent: Option<u64>,
    /// For how many bytes the reader waits, where its last call is a read that was answered Pending.
    pub awaited: Option<u64>,
    /// The writer's last call is a commit that was answered Pending.
    pub writer_waits: bool,
}

impl Marks {
    // Whether a read for at least `n` bytes would be ready.
    pub fn reads_now(&self, n: u64) -> bool
        requires { AreInOrder self.now }
        ensures { result ≡ reads_now n self.now }
    {
        let enough = self.examined < self.committed && n <= self.committed - self.consumed;
        self.read_canceled || self.ended.is_some() || enough
    }

    // Whether the reader waits for at least one byte, or more, and would wait again.
    pub fn starves(&self) -> bool
        requires { AreInOrder self.now }
        ensures { result ≡ lacks_now self.now.awaited self.now }
    {
        match self.awaited {
            Some(n) => 0 < n && !self.reads_now(n),
            None => false,
        }
    }

    // Whether a pause that stood would go on.
    pub fn lasts_now(&self) -> bool
        requires { AreInOrder self.now }
        ensures { result ≡ lasts_now self.now }
    {
        self.resume <= self.committed - self.examined && !self.starves()
    }

    // Whether the pause that stands goes on.
    pub fn paused_still(&self) -> bool
        requires { AreInOrder self.now }
        ensures { result ≡ (self.now.paused && lasts_now self.now) }
    {
        self.paused && self.lasts_now()
    }

    // Whether a pause stands after a commit that leaves these marks.
    pub fn pauses_now(&self) -> bool
        requires { AreInOrder self.now }
        ensures { result ≡ pauses_now self.now }
    {
        let due = self.pause <= self.committed - self.examined || self.paused;
        0 < self.pause && self.gone.is_none() && (self.lasts_now() && due)
    }

    // Whether a flush of nothing would be ready.
    pub fn flushes_now(&self) -> bool
        requires { AreInOrder self.now }
        ensures { result ≡ flushes_now self.now }
    {
        flush_goes(self.flush_canceled, self.gone, self.pauses_now())
    }

    // Whether the read that waits by the marks before was not ready then, and is so now.
    pub fn readies_since(&self, before: &Marks) -> bool
        requires now { AreInOrder self.now }
        requires before { AreInOrder before.now }
        ensures { result ≡ readies before.now.awaited before.now self.now }
    {
        match before.awaited {
            Some(n) => !before.reads_now(n) && self.reads_now(n),
            None => false,
        }
    }

    // Which waiting end was not ready, and is so by these marks.
    pub fn woken_since(&self, before: &Marks) -> Wake
        requires now { AreInOrder self.now }
        requires before { AreInOrder before.now }
        ensures { result ≡ woken before.now self.now }
    {
        Wake {
            reader: self.readies_since(before),
            writer: before.writer_waits && !before.flushes_now() && self.flushes_now(),
        }
    }

    // The total after a commit of `n` bytes, if that isn't too much.
    pub fn total_with(&self, n: u64) -> Option<u64>
        requires { self.now.committed ≤ 2 ^ 62 }
        ensures { result ≡ total_with self.now n }
    {
        if self.gone.is_some() {
            Some(self.committed)
        } else if n > MOST - self.committed {
            None
        } else {
            Some(self.committed + n)
        }
    }
}

// Whether a flush is ready.
pub fn flush_goes(canceled: bool, gone: Option<u32>, paused: bool) -> bool
    ensures { result ≡ flush_goes canceled gone paused }
{
    canceled || gone.is_some() || !paused
}

// The reply to a commit.
pub fn flush_reply(ready: bool, canceled: bool, gone: Option<u32>, unexamined: u64) -> FlushReply
    ensures { result ≡ if ready then flush.Ready canceled gone else flush.Pending unexamined }
{
    if ready {
        FlushReply::Ready { canceled, gone }
    } else {
        FlushReply::Pending { unexamined }
    }
}

// The reply to a read.
pub fn read_reply(
    ready: bool,
    canceled: bool,
    ended: Option<u32>,
    held: u64,
    examined: u64,
) -> ReadReply
    ensures { result ≡ if ready then read.Ready canceled ended held else read.Pending examined held }
{
    if ready {
        ReadReply::Ready {
            canceled,
            ended,
            len: held,
        }
    } else {
        ReadReply::Pending { examined, held }
    }
}

// For how many bytes a read waits, where it is not ready.
pub fn awaited_where(ready: bool, n: u64) -> Option<u64>
    ensures { result ≡ if ready then None else Some n }
{
    if ready { None } else { Some(n) }
}

// The length of a lend, where a read is ready.
pub fn lent_where(ready: bool, len: u64) -> Option<u64>
    ensures { result ≡ if ready then Some len else None }
{
    if ready { Some(len) } else { None }
}
