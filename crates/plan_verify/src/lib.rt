//! The check of plans that others made: what their text says, held against the problems of the blocks.
#![tactic(auto)]

mod block_fault;
mod fault;
mod laws;
mod plans;
mod shape;
mod walk;

pub use fault::PlanFault;
pub use laws::certified_plans_do_not_fail;
pub use plans::verify;
pub use shape::miscounted_at;
pub use walk::sticks_at;
