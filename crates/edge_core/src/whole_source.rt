//! A source in memory that never fails.

ghost use Rattle.std.specs.Prelude.{◌≡◌, ◌<◌, ◌≤◌, length, take, drop, min, Ok, IfOk};
ghost use Rattle.std.specs.Io.KnownBytes.{IsAtEnd};
ghost use Rattle.edge_core.specs.Device.{Gives};
ghost use Rattle.edge_core.specs.WholeSource.{whole_source_state};

use crate::device::{Failed, Source};
use std::marker::Model;

/// A source that gives its bytes in as few reads as the buffers allow, and never fails.
#[derive(Debug, Drop)]
pub struct WholeSource {
    content: Vec<u8>,
    given: usize,
}

// Clauses see the bytes that are left.
impl Model for WholeSource {
    ghost use Rattle.std.specs.Prelude.{ℕ, ◌≤◌, List, drop, vec_len};

    ghost Value = { List ℕ };

    ghost view = { λ source. drop source.given source.content.items };

    ghost invariant = { λ source. source.given ≤ vec_len source.content };
}

impl WholeSource {
    /// A source of the bytes of `content`.
    pub fn make(content: Vec<u8>) -> Self
        ensures { result ≡ content.items }
    {
        WholeSource { content, given: 0 }
    }
}

impl Source for WholeSource {
    ghost state = { whole_source_state };

    fn read(&mut self, buf: &mut [u8]) -> Result<usize, Failed>
        ensures amount { result ≡ Ok (min (length buf.old) (length self.old)) }
        ensures room { IfOk result (λ n. n ≤ length buf.old) }
        ensures given { IfOk result (λ n.
            Gives (whole_source_state self.old) (take n buf.new) (whole_source_state self.new)) }
        ensures end { IfOk result (λ n.
            n ≡ 0 → 0 < length buf.old → IsAtEnd (whole_source_state self.new).left) }
        ensures left { IfOk result (λ n. self.new ≡ drop n self.old) }
    {
        let count = buf.len().min(self.content.len() - self.given);
        let end = self.given + count;
        buf[..count].copy_from_slice(&self.content[self.given..end]);
        self.given = end;
        Ok(count)
    }
}
