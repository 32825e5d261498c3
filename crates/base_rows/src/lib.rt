//! What the crates below the pipes answer on known inputs: devices, doors, searches, spans, readers, fronts, frames, generated
//! inputs and words.
#![tactic(auto)]

#[cfg(test)]
mod devices;
#[cfg(test)]
mod doors;
#[cfg(test)]
mod frames;
#[cfg(test)]
mod fronts;
#[cfg(test)]
mod generated;
#[cfg(test)]
mod readers;
#[cfg(test)]
mod searches;
#[cfg(test)]
mod sockets;
#[cfg(test)]
mod spans;
#[cfg(test)]
mod words;
