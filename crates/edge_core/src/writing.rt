//! Writing all of a piece.

ghost use Rattle.std.specs.Prelude.{◌≡◌, ◌<◌, [], length, IsOk, IfErr, OnOk};
ghost use Rattle.edge_core.specs.Device.{Takes, TakesFront};

use crate::device::{Failed, Sink};

/// Writing that a failed call of the sink broke off, behind the first `written` bytes.
#[derive(Clone, Copy, Debug, PartialEq, Eq)]
pub struct BrokenOff {
    pub written: u64,
}

/// Writes all of `piece`, or a front of it where a write failed. An empty piece makes no call.
pub fn write_all<K: Sink>(sink: &mut K, piece: &[u8]) -> Result<(), BrokenOff>
    ensures whole { OnOk result (Takes (K.state sink.old) piece.now (K.state sink.new)) }
    ensures empty { piece.now ≡ [] → IsOk result × (sink.new ≡ sink.old) }
    ensures front { IfErr result (λ broken. TakesFront (K.state sink.old) piece.now broken.written (K.state sink.new)) }
    ensures short { IfErr result (λ broken. broken.written < length piece.now) }
{
    let mut rest = piece;
    while !rest.is_empty() {
        match sink.write(rest) {
            Ok(taken) => rest = &rest[taken..],
            Err(Failed) => {
                return Err(BrokenOff {
                    written: (piece.len() - rest.len()) as u64,
                });
            }
        }
    }
    Ok(())
}
