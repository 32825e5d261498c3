//! What a state says of its history, and how a caller names entries that nothing stores.

ghost use Rattle.std.specs.Prelude.{ℕ, List};

use std::marker::Brand;

/// A state that stands for a history: a list of entries, each with the number of the seat that made it.
///
/// Entries and names are seen by contracts alone. No value of `Entry` or of `Name` is made or stored.
pub trait Stands {
    /// What one seat did to the state at once.
    type Entry;

    /// What stays the same of a state, whatever is done to it.
    type Name;

    /// The state is what this history comes to.
    ghost stands: { Self → List (ℕ × Self.Entry) → Type 0 };

    /// The name of the state.
    ghost name: { Self → Self.Name };
}

/// The entries that a `put` adds. Each call of `put` takes them from its type parameter.
///
/// A caller that passes `Brand` names them where its proofs pick the `ghosts-put`. One that picks
/// nothing adds none.
pub trait Adds<E> {
    /// The entries, the first one first.
    ghost entries: { List E };
}

impl<E> Adds<E> for Brand {
    ghost use Rattle.std.specs.Prelude.{[]};

    ghost entries = { [] };
}
