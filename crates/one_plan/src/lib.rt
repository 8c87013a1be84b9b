//! A program has one list of best plans.
#![tactic(auto)]

mod laws;

pub use laws::one_list_of_best_plans;
