//! The code of a translation: its blocks, and each op of theirs at its address.
#![tactic(auto)]

mod block_code;
mod code;
mod decoded;
mod layout;
mod places;
mod program_code;
mod source;

pub use program_code::lay;
