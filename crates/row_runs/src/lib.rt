//! Windows of guest rows and bodies of host ops as runs over numbers, with their accesses, over any bytes that their loads find.
#![tactic(auto)]

mod laws;

pub use laws::{rows_are_prompt, same_accesses_load_alike, windows_load_alike};
