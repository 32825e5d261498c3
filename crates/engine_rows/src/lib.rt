//! What the engine of a relay does with known inputs: in steps on a pipe of two threads, and as a whole on one thread.
#![tactic(auto)]

#[cfg(test)]
mod draining;
#[cfg(test)]
mod filling;
#[cfg(test)]
mod relays;
