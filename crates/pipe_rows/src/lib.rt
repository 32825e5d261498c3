//! What the pipes and what they stand on answer on known runs: turns, a control and the pipe over one buffer, the pipe of two
//! threads, and that of one.
#![tactic(auto)]

#[cfg(test)]
mod at_least;
#[cfg(test)]
mod dice;
#[cfg(test)]
mod histories;
#[cfg(test)]
mod local;
#[cfg(test)]
mod plain;
#[cfg(test)]
mod player;
#[cfg(test)]
mod queue;
#[cfg(test)]
mod replies;
#[cfg(test)]
mod rooms;
#[cfg(test)]
mod scripts;
#[cfg(test)]
mod shared;
#[cfg(test)]
mod steps;
#[cfg(test)]
mod turns;
