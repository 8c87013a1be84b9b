//! Inputs of circuits whose values can be chosen, and pairs of words that are the same where a formula has no model.
#![tactic(auto)]

mod inputs;
mod pairs;

pub use inputs::{input_flag, input_word};
pub use pairs::{formula_of_pairs, push_flag, push_word};
