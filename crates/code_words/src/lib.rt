//! The code words of a PowerPC program.
#![tactic(auto)]

mod code;

pub use code::{code_words, entry_place, first};
