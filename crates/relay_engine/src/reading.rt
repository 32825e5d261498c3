//! One read of a source into room that a pipe has lent.

ghost use Rattle.std.specs.Prelude.{◌<◌, length};
ghost use Rattle.relay_engine.specs.Ends.{ReadsWithin};

use edge_core::{Failed, Source};
use relay_model::FillEnd;

/// Reads once into the front of `room`, at most `left` bytes. Where none is left, one more is read, and dropped.
pub fn read_into<S: Source>(source: &mut S, room: &mut [u8], left: u64) -> Result<usize, FillEnd>
    requires { 0 < length room.old }
    ensures { ReadsWithin (length room.old) left (S.state source.old) room.new result (S.state source.new) }
{
    let most = room.len().min(left.max(1) as usize);
    match source.read(&mut room[..most]) {
        Err(Failed) => Err(FillEnd::Fault),
        Ok(0) => Err(FillEnd::End),
        Ok(_) if left == 0 => Err(FillEnd::Long),
        Ok(read) => Ok(read),
    }
}
