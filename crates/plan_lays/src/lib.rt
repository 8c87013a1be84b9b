//! A valid plan of a block's problem lays the block's words.
#![tactic(auto)]

mod laws;

pub use laws::valid_plans_lay;
