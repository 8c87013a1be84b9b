//! A solver of formulas whose answers can be checked: values that satisfy the formula, a refutation of it, or as many clauses
//! as were allowed, each of which is a step towards a refutation.
#![tactic(auto)]

mod analysis;
mod guide;
mod minimizing;
mod order;
mod search;
mod solving;
mod values;
mod verdict;

pub use solving::solve;
pub use verdict::{Values, Verdict};
