//! What PowerPC instructions do, over an algebra of words.
#![tactic(auto)]

mod rows;

pub use ppc_parts::{Access, Effect, GuestIn};
pub use rows::effect;
