//! Laws of the definitions. These functions do nothing: what they ensure is the law.

ghost use Rattle.std.specs.Prelude.{◌≤◌, ◌<◌, ℕ, List, max, IsNone};
ghost use Rattle.edge_core.specs.Device.{SourceState};
ghost use Rattle.pipe_core.specs.History.{Call, reader_end};
ghost use Rattle.pipe_core.specs.Legal.{IsLegal};
ghost use Rattle.stream_ends.specs.Reads.{Fills, IsDue, reads_in};

/// A read for at least `n` bytes reads the source at most `n` times, and a plain one at most once: wherever one more is due,
/// there were fewer.
pub fn reads_are_few()
    ensures { (n most : ℕ) (h filled : List Call) (before after : SourceState) (fills : Fills n most h before filled after) →
        IsLegal filled → IsNone (reader_end filled) → IsDue n most filled → reads_in fills < max n 1 }
{}
