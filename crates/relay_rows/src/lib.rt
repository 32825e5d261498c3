//! Tables of cases of the relay's commands: what goes in, and what is to come out.
#![tactic(auto)]

#[cfg(test)]
mod batches;
#[cfg(test)]
mod case;
#[cfg(test)]
mod connections;
#[cfg(test)]
mod drills;
#[cfg(test)]
mod held;
#[cfg(test)]
mod real_doors;
#[cfg(test)]
mod relays;
#[cfg(test)]
mod threads;
