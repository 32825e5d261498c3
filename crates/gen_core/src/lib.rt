//! A large valid input that is made from a number.
#![tactic(auto)]

mod cases;
mod frame;
mod laws;
mod payload;
mod source;

pub use cases::generator_cases;
pub use laws::{generated_has_no_rest, generated_is_small, generated_is_spellable};
pub use source::{GenSource, gen_len};
