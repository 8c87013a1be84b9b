//! Programs that the tool runs: their steps, and the answers to their calls.
#![tactic(auto)]

mod calls;
mod guest;
mod host;
mod machine;
mod running;
mod transfers;

pub use machine::Machine;
pub use running::run;
