//! The runs of two machines, and when they agree.
#![tactic(auto)]

pub mod example;
mod law;

pub use law::{
    Machine, Simulation, TwoSpaces, agreement, agrees_in_larger, keeps_calls, same_run,
    standing_still_fails, stays_over,
};
