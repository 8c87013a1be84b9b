//! Rows of both machines worked out by hand, where a plausible mistake would give something else.
#![tactic(auto)]

mod guest;
mod host;

pub use guest::{accesses, compares, divisions, products, shifts};
pub use host::{
    answers_to_calls, logic_and_moves, shifts_by_written_counts, sums, wrapping_addresses,
};
