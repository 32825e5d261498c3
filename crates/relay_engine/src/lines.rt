//! The line that tells how a command ended.

ghost use Rattle.std.specs.Prelude.{◌++◌, ◌∷◌, [], codes, decimal};
ghost use Rattle.relay_model.specs.Lines.{kind_text, line_of};
ghost use Rattle.relay_engine.specs.Tell.{Writes, pieces_text, told_line};

use edge_core::{Failed, Sink, write_all};
use frame_grammar::BadKind;
use itoa::Buffer;
use relay_model::{Outcome, Report};

/// What is told.
#[derive(Clone, Copy, Debug)]
pub enum Told {
    /// The word of this index can't be read.
    Usage { word: usize },
    /// A relay ended so. A clean end has no line.
    Relay { report: Report },
    /// There is no memory.
    Memory,
    /// A device couldn't be opened, which the word of this index names.
    Door { word: usize },
}

/// Writes the line to `faults`, or a front of it where a write fails. It takes no memory, and doesn't flush.
pub fn tell<E: Sink>(faults: &mut E, told: Told) -> Result<(), Failed>
    ensures told { Writes (E.state faults.old) (told_line told) result (E.state faults.new) }
{
    match told {
        Told::Usage { word } => tell_number(faults, b"usage: word ", word as u64),
        Told::Relay { report } => tell_report(faults, &report),
        Told::Memory => write_pieces(faults, &[b"out of memory\n"]),
        Told::Door { word } => tell_number(faults, b"door fault at word ", word as u64),
    }
}

fn tell_report<E: Sink>(faults: &mut E, report: &Report) -> Result<(), Failed>
    ensures { Writes (E.state faults.old) (line_of report.now.outcome report.now.taken report.now.written) result (E.state faults.new) }
{
    match report.outcome {
        Outcome::Clean => Ok(()),
        Outcome::BadFrame { place, kind } => tell_bad_frame(faults, place, kind),
        Outcome::Truncated { place } => tell_number(faults, b"truncated at ", place),
        Outcome::ReadFault => tell_number(faults, b"read fault after ", report.taken),
        Outcome::WriteFault => tell_number(faults, b"write fault after ", report.written),
        Outcome::TooLong => write_pieces(faults, &[b"too long\n"]),
    }
}

fn tell_bad_frame<E: Sink>(faults: &mut E, place: u64, kind: BadKind) -> Result<(), Failed>
    ensures { Writes (E.state faults.old) (codes "bad frame at " ++ decimal place ++ kind_text kind) result (E.state faults.new) }
{
    let (mut place_digits, mut digits) = (Buffer::new(), Buffer::new());
    let place = place_digits.format(place).as_bytes();
    match kind {
        BadKind::TooBig { len } => {
            let len = digits.format(len).as_bytes();
            write_pieces(faults, &[b"bad frame at ", place, b": length ", len, b"\n"])
        }
        BadKind::Unspellable { at } => {
            let at = digits.format(at).as_bytes();
            write_pieces(faults, &[b"bad frame at ", place, b": byte ", at, b"\n"])
        }
        BadKind::BadHead { bytes } => {
            let bytes = digits.format(bytes).as_bytes();
            write_pieces(faults, &[b"bad frame at ", place, b": head ", bytes, b"\n"])
        }
    }
}

/// Writes a text and a number as a line.
fn tell_number<E: Sink>(faults: &mut E, text: &[u8], number: u64) -> Result<(), Failed>
    ensures { Writes (E.state faults.old) (text.now ++ decimal number ++ 10 ∷ []) result (E.state faults.new) }
{
    let mut digits = Buffer::new();
    write_pieces(faults, &[text, digits.format(number).as_bytes(), b"\n"])
}

/// Writes the pieces of a line, as far as no write fails.
fn write_pieces<E: Sink>(faults: &mut E, pieces: &[&[u8]]) -> Result<(), Failed>
    ensures { Writes (E.state faults.old) (pieces_text pieces.now) result (E.state faults.new) }
{
    for piece in pieces {
        let Ok(()) = write_all(faults, piece) else {
            return Err(Failed);
        };
    }
    Ok(())
}
