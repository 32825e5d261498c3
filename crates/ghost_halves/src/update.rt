//! What two halves say at first, and what they are made to say.

use std::marker::Brand;

/// A value that two halves may say. No value of the type is made.
pub trait Initial {
    /// What they say at first.
    ghost initial: { Self };
}

/// What two halves are made to say, from what they said. A caller that passes `Brand` picks it where its proofs pick the
/// `ghosts-update_halves`; one that picks nothing changes nothing.
pub trait Update<T> {
    /// What they say afterwards.
    ghost to: { T → T };
}

impl<T> Update<T> for Brand {
    ghost to = { λ value. value };
}
