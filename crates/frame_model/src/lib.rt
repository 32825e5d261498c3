//! What frames are: how payloads are spelt, how an input is cut, and what it is translated to. The definitions stand in
//! `specs/`. `head_at_front` reads the heads of all framings that have some; the other functions are laws of the definitions
//! and their worked cases, and do nothing.
#![tactic(auto)]

mod cases;
mod framing;
mod head;
mod laws;

pub use cases::{
    cut_cases, greatest_payload_cases, group_cases, spelling_cases, translation_cases,
};
pub use framing::{BadKind, Framing};
pub use head::{GroupedLength, Head, LONGEST_HEAD, groups_of, head_at_front, heads_are_short};
pub use laws::{
    bad_stays_bad, cut_is_longest, group_heads_in_words, number_heads_in_words, open_until_the_end,
    refused_in_words, spelling_in_words, text_only_grows,
};
