//! The lines that tell of many relays, each of which begins with a label: a name, or the number of a connection.

ghost use Rattle.std.specs.Prelude.{◌≡◌, ◌≤◌, ◌+◌, ◌++◌, length, vec_capacity, vec_len};
ghost use Rattle.relay_model.specs.Answers.{answer_line, fault_line};
ghost use Rattle.relay_model.specs.Lines.{IsWritten};

use crate::telling::{cause_of, report_on};
use edge_core::{Sink, write_all};
use itoa::Buffer;
use relay_model::{Answer, frames_of_answer, status_of_answer};

/// How many bytes the line of a relay has at most: 255 of its label, 3 of its status, 20 of a number of frames, and 3 between
/// and behind them.
pub const LINE: usize = 281;

/// Adds the line of a relay, whose label has at most 255 bytes, behind lines that leave room for it. It takes no memory.
pub fn add_line(lines: &mut Vec<u8>, label: &str, answer: &Answer)
    requires short { length label.now ≤ 255 }
    requires room { vec_len lines.old + 281 ≤ vec_capacity lines.old }
    ensures added { lines.new.items ≡ lines.old.items ++ answer_line label.now answer.now }
    ensures capacity { vec_capacity lines.old ≤ vec_capacity lines.new }
    ensures len { vec_len lines.new ≤ vec_len lines.old + 281 }
{
    let (mut status_digits, mut frames_digits) = (Buffer::new(), Buffer::new());
    let status = status_digits.format(status_of_answer(answer).number());
    let frames = frames_digits.format(frames_of_answer(answer));
    add(lines, label.as_bytes());
    add(lines, b" ");
    add(lines, status.as_bytes());
    add(lines, b" ");
    add(lines, frames.as_bytes());
    add(lines, b"\n");
}

/// Adds a piece for which there is room.
fn add(lines: &mut Vec<u8>, piece: &[u8])
    requires { vec_len lines.old + length piece.now ≤ vec_capacity lines.old }
    ensures added { lines.new.items ≡ lines.old.items ++ piece.now }
    ensures len { vec_len lines.new ≡ vec_len lines.old + length piece.now }
    ensures capacity { vec_capacity lines.old ≤ vec_capacity lines.new }
{
    let Ok(()) = lines.extend_from_slice(piece) else {
        unreachable!()
    };
}

/// Tells why the status of a relay isn't clean, in a line that begins with its label, as far as no write fails: a failure of `faults`
/// changes nothing.
pub fn report_on_answer<E: Sink>(faults: &mut E, label: &str, answer: &Answer)
    ensures { IsWritten (fault_line label.now answer.now) (E.state faults.old) (E.state faults.new) }
{
    let Ok(()) = write_all(faults, label.as_bytes()) else {
        return;
    };
    let Ok(()) = write_all(faults, b": ") else {
        return;
    };
    report_on(faults, cause_of(answer));
}
