//! The guest machine: PowerPC programs run step by step.
#![tactic(auto)]

mod accesses;
mod acting;
mod branches;
mod calls;
mod effects;
mod forms;
mod machine;
mod results;
mod state;

pub use machine::Machine;
pub use state::State;
