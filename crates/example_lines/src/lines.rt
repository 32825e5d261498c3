//! What is counted of lines.

ghost use Rattle.std.specs.Prelude.{◌≤◌, ◌^◌, length, IsNone, OnOk};
ghost use Rattle.stream_ends.specs.Reader.{lend_len};

use edge_core::Source;
use pipe_core::ReadReply;
use seq_reader::SeqReader;
use span_seq::{One, Sequence};
use stream_ends::{StreamFault, StreamReader};

/// How many lines there were, and how many bytes the longest had, its line feed not counted.
#[derive(Clone, Copy, Default)]
pub(crate) struct Lines {
    pub(crate) count: u64,
    pub(crate) longest: u64,
}

impl Lines {
    fn add(&mut self, len: u64) {
        self.count = self.count.saturating_add(1);
        self.longest = self.longest.max(len);
    }
}

/// Takes the whole lines of what a reader lends, and the rest too at the end of the input. Answers whether there may be
/// more.
pub(crate) fn take_lines<S: Source>(
    reader: &mut StreamReader<S>,
    lines: &mut Lines,
) -> Result<bool, StreamFault>
    requires { IsNone (lend_len reader.old) }
    ensures { OnOk result (IsNone (lend_len reader.new)) }
{
    let ReadReply::Ready { ended, len, .. } = reader.read()? else {
        unreachable!();
    };
    let consumed = whole_lines(reader.lent(), lines);
    if ended.is_some() && consumed < len {
        lines.add(len - consumed);
    }
    reader.advance(consumed, len);
    Ok(ended.is_none())
}

// Adds the lines that have come whole. Answers how many bytes they have with their line feeds.
fn whole_lines(bytes: &[u8], lines: &mut Lines) -> u64
    requires { length bytes.now ≤ 2 ^ 31 }
    ensures { result ≤ length bytes.now }
{
    let spans = One(bytes);
    let mut rest = SeqReader::new(Sequence::whole(&spans));
    while let Some(line) = rest.read_to(b'\n', true) {
        lines.add(line.len());
    }
    rest.consumed()
}
