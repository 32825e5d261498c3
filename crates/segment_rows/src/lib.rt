//! What segments and what stands on them answer on known runs: their two ends, chains of them, those of a pipe, and a pool.
#![tactic(auto)]

#[cfg(test)]
mod append;
#[cfg(test)]
mod chains;
#[cfg(test)]
mod full_pipes;
#[cfg(test)]
mod pools;
#[cfg(test)]
mod segments;
#[cfg(test)]
mod shared_segments;
