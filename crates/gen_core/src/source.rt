//! The source of a generated input, and its length.

ghost use Rattle.std.specs.Prelude.{◌≡◌, ◌<◌, ◌≤◌, ◌+◌, length, take, drop, ◌++◌, ◌-◌, min, Ok, IfOk};
ghost use Rattle.std.specs.Io.KnownBytes.{IsAtEnd};
ghost use Rattle.edge_core.specs.Device.{Gives};
ghost use Rattle.edge_core.specs.WholeSource.{whole_source_state};
ghost use Rattle.frame_model.specs.Spelling.{text};
ghost use Rattle.gen_core.specs.Generator.{input, payloads};

use crate::frame::{Frame, frame_len};
use crate::payload::{len_of, payload_of};
use edge_core::{Failed, Source};
use frame_grammar::Framing;
use std::marker::Model;

/// A source of the input that is generated from a number. It never fails, and takes no memory.
#[derive(Drop)]
pub struct GenSource {
    seed: u32,
    framing: Framing,
    next: u32,
    count: u32,
    frame: Frame,
}

// Clauses see the bytes that are left.
impl Model for GenSource {
    ghost use Rattle.std.specs.Prelude.{ℕ, List, ◌++◌, ◌-◌, ◌≤◌};
    ghost use Rattle.frame_model.specs.Spelling.{text};
    ghost use Rattle.gen_core.specs.Generator.{payloads};

    ghost Value = { List ℕ };

    ghost view = { λ g. g.frame ++ text g.framing (payloads g.seed g.next (g.count - g.next)) };

    ghost invariant = { λ g. (g.next ≤ g.count) × (g.count ≤ 1000000) };
}

impl GenSource {
    /// The source of `count` frames in a framing, whose payloads are made from `seed`.
    pub fn new(seed: u32, count: u32, framing: Framing) -> GenSource
        requires { count ≤ 1000000 }
        ensures { result ≡ input seed count framing }
    {
        GenSource {
            seed,
            framing,
            next: 0,
            count,
            frame: Frame::empty(),
        }
    }

    // Gives bytes of one frame to a buffer, behind its first `done`, where there are some and there is room.
    fn give(&mut self, buf: &mut [u8], done: usize) -> usize
        requires { done ≤ length buf.old }
        ensures within { (result ≤ length self.old) × (done + result ≤ length buf.old) }
        ensures left { self.new ≡ drop result self.old }
        ensures given { buf.new ≡ take done buf.old ++ (take result self.old ++ drop (done + result) buf.old) }
        ensures some { done < length buf.old → 0 < length self.old → 0 < result }
    {
        self.next = refill(
            &mut self.frame,
            self.seed,
            self.framing,
            self.next,
            self.count,
        );
        self.frame.give(buf, done)
    }
}

impl Source for GenSource {
    ghost state = { whole_source_state };

    fn read(&mut self, buf: &mut [u8]) -> Result<usize, Failed>
        ensures amount { result ≡ Ok (min (length buf.old) (length self.old)) }
        ensures room { IfOk result (λ n. n ≤ length buf.old) }
        ensures given { IfOk result (λ n.
            Gives (whole_source_state self.old) (take n buf.new) (whole_source_state self.new)) }
        ensures end { IfOk result (λ n.
            n ≡ 0 → 0 < length buf.old → IsAtEnd (whole_source_state self.new).left) }
        ensures left { IfOk result (λ n. self.new ≡ drop n self.old) }
    {
        let mut done = 0;
        while done < buf.len() {
            let given = self.give(buf, done);
            if given == 0 {
                return Ok(done);
            }
            done += given;
        }
        Ok(done)
    }
}

// Makes the frame of the payload `next` of `count` where nothing is left of the one before, and answers which payload is the
// next one then.
fn refill(frame: &mut Frame, seed: u32, framing: Framing, next: u32, count: u32) -> u32
    requires { next ≤ count }
    ensures within { result ≤ count }
    ensures left { frame.new ++ text framing (payloads seed result (count - result)) ≡ frame.old ++ text framing (payloads seed next (count - next)) }
    ensures end { length frame.new ≡ 0 → result ≡ count }
{
    if frame.len() > 0 || next == count {
        return next;
    }
    frame.fill(framing, payload_of(seed, next));
    next + 1
}

/// How many bytes the generated input has. It is told without making it.
pub fn gen_len(seed: u32, count: u32, framing: Framing) -> u64
    requires { count ≤ 1000000 }
    ensures { result ≡ length (input seed count framing) }
{
    let mut total = 0;
    for number in 0..count {
        total += frame_len(framing, len_of(seed, number));
    }
    total
}
