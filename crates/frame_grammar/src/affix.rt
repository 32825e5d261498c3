//! What stands around a payload in its frame.

ghost use Rattle.std.specs.Prelude.{◌≡◌, ◌≤◌, ◌∷◌, [], length, take};

use frame_model::GroupedLength;
use std::marker::Model;

/// The bytes before a payload in its frame, or those behind it: at most 4.
#[derive(Debug, Drop)]
pub struct Affix {
    bytes: [u8; 4],
    len: usize,
}

impl Model for Affix {
    ghost use Rattle.std.specs.Prelude.{List, ℕ, ◌≤◌, take};

    ghost Value = { List ℕ };

    ghost view = { λ a. take a.len a.bytes };

    ghost invariant = { λ a. a.len ≤ 4 };
}

impl Affix {
    pub(crate) fn empty() -> Affix
        ensures { result ≡ [] }
    {
        Affix {
            bytes: [0; 4],
            len: 0,
        }
    }

    pub(crate) fn of_one(byte: u8) -> Affix
        ensures { result ≡ byte ∷ [] }
    {
        Affix {
            bytes: [byte, 0, 0, 0],
            len: 1,
        }
    }

    pub(crate) fn of_two(bytes: [u8; 2]) -> Affix
        ensures { result ≡ bytes }
    {
        let [first, second] = bytes;
        Affix {
            bytes: [first, second, 0, 0],
            len: 2,
        }
    }

    pub(crate) fn of_four(bytes: [u8; 4]) -> Affix
        ensures { result ≡ bytes }
    {
        Affix { bytes, len: 4 }
    }

    pub(crate) fn of_groups(groups: GroupedLength) -> Affix
        requires { groups.count ≤ 4 }
        ensures { result ≡ take groups.count groups.bytes }
    {
        let bytes = groups.bytes;
        Affix {
            bytes,
            len: groups.count,
        }
    }

    /// The bytes themselves.
    pub fn bytes(&self) -> &[u8]
        ensures bytes { result.now ≡ self.now }
        ensures few { length result.now ≤ 4 }
    {
        &self.bytes[..self.len]
    }
}
