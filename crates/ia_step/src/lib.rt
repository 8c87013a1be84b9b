//! The IA-32 machine as a program: its state, a step, and the answer to a call.
#![tactic(auto)]

mod calls;
mod choices;
mod effects;
mod machine;
mod operands;
mod ops;
mod parts;
mod shapes;
mod state;

pub use choices::Choice;
pub use machine::Machine;
