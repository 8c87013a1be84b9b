//! The best plans of a program's blocks.
#![tactic(auto)]

mod plans;

pub use plans::best_plans;
