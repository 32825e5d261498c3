//! Blocks of one size, which many pipes rent and give back.
#![tactic(auto)]

mod books;
mod laws;
mod pool;
mod rule;

pub use books::{Books, PassBooks};
pub use laws::{
    all_is_known, each_id_is_in_one_place, nothing_is_out, rented_is_not_out, split_and_merged,
};
pub use pool::{Pool, PoolPass};
