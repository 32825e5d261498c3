//! Files and TCP streams as devices, and doors that open them.
#![tactic(auto)]

mod doors;
mod endpoint;

pub use doors::RealDoors;
pub use endpoint::Endpoint;
