//! A sound rule that is laid where it matches is a tile of a plan, and keeps the simulation.
#![tactic(auto)]

mod laws;

pub use laws::{rules_are_tiles, rules_keep_simulation};
