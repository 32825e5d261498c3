//! The bytes of a pipe, in one run.

ghost use Rattle.std.specs.Prelude.{◌≡◌, ◌≤◌, [], ◌++◌, length, take, drop, replicate, IfOk};
ghost use Rattle.std.specs.Borrow.{sem};
ghost use Rattle.pipe_core.specs.Bytes.{capacity_of, with_draft, with_committed, settled};
ghost use Rattle.pipe_core.specs.Lending.{LendsFree};

use std::alloc::{AllocError, Global};
use std::marker::Model;

/// A run of bytes with its free part behind it, both in one window of the capacity.
///
/// The room is twice the capacity, so that the window can move on with what is given up. A run is moved to the front only
/// where it begins in the second half. It then lies in the first half, so no byte is ever moved twice.
#[derive(Debug, Drop)]
pub struct Buffer {
    room: Vec<u8>,
    capacity: usize,
    start: usize,
    committed: usize,
    end: usize,
}

impl Model for Buffer {
    ghost use Rattle.pipe_core.specs.Bytes.{Bytes, parts, IsLaidOut};

    ghost Value = { Bytes };

    ghost view = { λ b. parts b.room.items b.capacity b.start b.committed b.end };

    ghost invariant = { λ b. IsLaidOut b.room.items b.capacity b.start b.committed b.end };
}

impl Buffer {
    /// An empty buffer of that capacity.
    pub fn make(alloc: Global, capacity: usize) -> Result<Buffer, AllocError>
        ensures { IfOk result (λ b. b ≡ record { held = []; draft = []; free = replicate capacity 0 }) }
    {
        let Some(size) = capacity.checked_mul(2) else {
            return Err(AllocError);
        };
        Ok(Buffer {
            room: vec![in alloc; 0u8; size]?,
            capacity,
            start: 0,
            committed: 0,
            end: 0,
        })
    }

    /// How many bytes the three parts have in all.
    pub fn capacity(&self) -> usize
        ensures { result ≡ capacity_of self.now }
    {
        self.capacity
    }

    /// The free part.
    pub fn free_mut(&mut self) -> &mut [u8]
        ensures* lends { sem 𝓛 (LendsFree self.entry result) }
        ensures value { result.now ≡ self.old.free }
    {
        let from = self.end;
        let to = self.start + self.capacity;
        self.room.slice_mut(from..to)
    }

    /// The first bytes of the free part.
    pub fn free_front_mut(&mut self, n: usize) -> &mut [u8]
        requires { n ≤ length self.old.free }
        ensures* lends { sem 𝓛 (LendsFree self.entry result) }
        ensures value { result.now ≡ take n self.old.free }
    {
        let from = self.end;
        let to = self.end + n;
        self.room.slice_mut(from..to)
    }

    /// The length of the free part.
    pub fn free_len(&self) -> usize
        ensures { result ≡ length self.now.free }
    {
        self.start + self.capacity - self.end
    }

    /// The first bytes of the free part join the draft.
    pub fn extend_draft(&mut self, n: usize)
        requires { n ≤ length self.old.free }
        ensures { self.new ≡ with_draft self.old n }
    {
        self.end += n;
    }

    /// These bytes are copied behind what is held, or dropped.
    pub fn commit(&mut self, bytes: &[u8], dropped: bool)
        requires no_draft { self.old.draft ≡ [] }
        requires room { length bytes.now ≤ length self.old.free }
        ensures { self.new ≡ with_committed dropped bytes.now self.old }
    {
        if dropped {
            return;
        }
        copy_to_front(self.free_mut(), bytes);
        self.extend_draft(bytes.len());
        self.settle_draft(false);
    }

    /// The length of the draft.
    pub fn draft_len(&self) -> usize
        ensures { result ≡ length self.now.draft }
    {
        self.end - self.committed
    }

    /// The draft is committed, or dropped.
    pub fn settle_draft(&mut self, dropped: bool)
        ensures { self.new ≡ settled dropped self.old }
    {
        if dropped {
            self.end = self.committed;
        } else {
            self.committed = self.end;
        }
    }

    /// What is committed and not given up.
    pub fn held(&self) -> &[u8]
        ensures { result.now ≡ self.now.held }
    {
        &self.room[self.start..self.committed]
    }

    /// Gives up the first of the held bytes.
    pub fn release(&mut self, n: usize)
        requires { n ≤ length self.old.held }
        ensures held { self.new.held ≡ drop n self.old.held }
        ensures draft { self.new.draft ≡ self.old.draft }
        ensures capacity { capacity_of self.new ≡ capacity_of self.old }
    {
        let start = self.start + n;
        if start == self.end || start > self.capacity {
            self.room.copy_within(start..self.end, 0);
            self.committed -= start;
            self.end -= start;
            self.start = 0;
        } else {
            self.start = start;
        }
    }

    /// Gives up all of the held bytes.
    pub fn release_all(&mut self)
        ensures held { self.new.held ≡ [] }
        ensures draft { self.new.draft ≡ self.old.draft }
        ensures capacity { capacity_of self.new ≡ capacity_of self.old }
    {
        let held = self.committed - self.start;
        self.release(held);
    }
}

// Copies these bytes over the front of the room.
fn copy_to_front(room: &mut [u8], bytes: &[u8])
    requires { length bytes.now ≤ length room.old }
    ensures { room.new ≡ bytes.now ++ drop (length bytes.now) room.old }
{
    room[..bytes.len()].copy_from_slice(bytes);
}
