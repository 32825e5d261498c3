//! What is left of a frame.

ghost use Rattle.std.specs.Prelude.{◌≡◌, ◌+◌, ◌-◌, ◌<◌, ◌≤◌, [], ◌++◌, length, take, drop, min, IsTrue, ◌↔◌};
ghost use Rattle.frame_model.specs.Spelling.{head_of, spelling, tail_of};

use frame_grammar::{Framing, spell_head, spell_tail};
use std::marker::Model;

/// The greatest payload has 95 bytes, and a head 4.
const ROOM: usize = 100;

/// The bytes of a frame that weren't given yet.
#[derive(Drop)]
pub(crate) struct Frame {
    room: [u8; ROOM],
    from: usize,
    to: usize,
}

impl Model for Frame {
    ghost use Rattle.std.specs.Prelude.{ℕ, List, ◌≤◌, slice_range};

    ghost Value = { List ℕ };

    ghost view = { λ f. slice_range f.room f.from f.to };

    ghost invariant = { λ f. (f.from ≤ f.to) × (f.to ≤ 100) };
}

impl Frame {
    /// No byte.
    pub(crate) fn empty() -> Frame
        ensures { result ≡ [] }
    {
        Frame {
            room: [0; ROOM],
            from: 0,
            to: 0,
        }
    }

    /// How many bytes are left.
    pub(crate) fn len(&self) -> usize
        ensures { result ≡ length self.now }
    {
        self.to - self.from
    }

    /// The whole frame of a payload of at most 95 bytes.
    pub(crate) fn fill(&mut self, framing: Framing, payload: &[u8])
        requires { length payload.now ≤ 95 }
        ensures { self.new ≡ spelling framing payload.now }
    {
        self.from = 0;
        self.to = 0;
        self.append(spell_head(framing, payload.len() as u64).bytes());
        self.append(payload);
        self.append(spell_tail(framing).bytes());
    }

    // These bytes behind those that are left.
    fn append(&mut self, bytes: &[u8])
        requires { length self.old + length bytes.now ≤ 99 }
        ensures { self.new ≡ self.old ++ bytes.now }
    {
        let from = self.from;
        let to = self.to;
        let left = to - from;
        self.room.copy_within(from..to, 0);
        copy_at(&mut self.room, left, bytes);
        self.from = 0;
        self.to = left + bytes.len();
    }

    /// Gives bytes to the end of a buffer, behind its first `done`: all that are left, or as many as there is room for.
    pub(crate) fn give(&mut self, buf: &mut [u8], done: usize) -> usize
        requires { done ≤ length buf.old }
        ensures count { result ≡ min (length self.old) (length buf.old - done) }
        ensures left { self.new ≡ drop result self.old }
        ensures given { buf.new ≡ take done buf.old ++ (take result self.old ++ drop (done + result) buf.old) }
    {
        let count = self.len().min(buf.len() - done);
        let from = self.from;
        copy_at(buf, done, &self.room[from..from + count]);
        self.from = from + count;
        count
    }
}

// Copies bytes over those of a room from `at` on.
fn copy_at(room: &mut [u8], at: usize, bytes: &[u8])
    requires { at + length bytes.now ≤ length room.old }
    ensures { room.new ≡ take at room.old ++ (bytes.now ++ drop (at + length bytes.now) room.old) }
{
    room[at..at + bytes.len()].copy_from_slice(bytes);
}

/// How many bytes the frame of a payload of `len` bytes has, which are at most 95.
pub(crate) fn frame_len(framing: Framing, len: usize) -> u64
    requires { len ≤ 95 }
    ensures len { result ≡ length (head_of framing len) + len + length (tail_of framing) }
    ensures few { result ≤ 99 }
{
    let head = spell_head(framing, len as u64);
    let tail = spell_tail(framing);
    (head.bytes().len() + len + tail.bytes().len()) as u64
}
