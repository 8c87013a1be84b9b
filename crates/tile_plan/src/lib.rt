//! The least plan of a problem, with labels that certify it.
#![tactic(auto)]

mod arcs;
mod forward;
mod planner;
mod table;
mod walk;

pub use planner::solve;
