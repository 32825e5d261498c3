//! What the relay asks of a device, and what it may rest on.

ghost use Rattle.std.specs.Prelude.{◌≡◌, ◌<◌, ◌≤◌, [], length, take, OnErr, OnOk, IfOk};
ghost use Rattle.std.specs.Io.KnownBytes.{IsAtEnd};
ghost use Rattle.edge_core.specs.Device.{SourceState, SinkState, Gives, Takes, Fails, SinkFails};

/// A read, a write or a flush that failed. Which call failed, and how often one did, is the device's count of faults.
#[derive(Clone, Copy, Debug, PartialEq, Eq)]
pub struct Failed;

/// Where bytes come from.
pub trait Source {
    /// The bytes that it will still give, where it tells them, and how many of its calls have failed.
    ghost state: { Self → SourceState };

    /// Reads into the front of `buf`, and answers how many bytes. With room in `buf`, 0 bytes are the end of the input.
    /// What `buf` holds behind the bytes that were read is left open.
    fn read(&mut self, buf: &mut [u8]) -> Result<usize, Failed>
        ensures room { IfOk result (λ n. n ≤ length buf.old) }
        ensures given { IfOk result (λ n. Gives (state self.old) (take n buf.new) (state self.new)) }
        ensures end { IfOk result (λ n. n ≡ 0 → 0 < length buf.old → IsAtEnd (state self.new).left) }
        ensures failed { OnErr result (Fails (state self.old) (state self.new)) };
}

/// Where bytes go.
pub trait Sink {
    /// The bytes that it was given, where it tells them, how many of its calls have failed, and by which name it was opened.
    ghost state: { Self → SinkState };

    /// Writes from the front of `piece`, and answers how many bytes, at least one where there is one.
    fn write(&mut self, piece: &[u8]) -> Result<usize, Failed>
        ensures some { IfOk result (λ n. n ≤ length piece.now) }
        ensures progress { IfOk result (λ n. 0 < length piece.now → 0 < n) }
        ensures taken { IfOk result (λ n. Takes (state self.old) (take n piece.now) (state self.new)) }
        ensures failed { OnErr result (SinkFails (state self.old) (state self.new)) };

    /// Passes on what it keeps back.
    fn flush(&mut self) -> Result<(), Failed>
        ensures taken { OnOk result (Takes (state self.old) [] (state self.new)) }
        ensures failed { OnErr result (SinkFails (state self.old) (state self.new)) };
}
