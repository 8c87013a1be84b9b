//! The accesses of both machines to the memory of a running program, told in the words of the
//! machines' definitions.
#![tactic(auto)]

mod loads;
mod memory;
mod stores;

pub use loads::{load_big, load_little};
pub use memory::{copy, first_memory, holds, own_memory};
pub use stores::{put, store_big, store_little};
