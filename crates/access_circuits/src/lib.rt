//! Accesses over gates: bytes in either order, lists of accesses, and pairs by which two lists are the same.
#![tactic(auto)]

mod accesses;
mod bytes;

pub use accesses::{AccessWords, pair_accesses, push_access};
pub use bytes::{big_word, bytes_of, input_bytes, little_word};
