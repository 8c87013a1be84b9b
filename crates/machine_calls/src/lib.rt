//! Calls of running programs, as both machines make them: how a machine stands, the buffers of calls,
//! and what an answer gives.
#![tactic(auto)]

mod calls;
mod phase;

pub use calls::{NO_SUCH_CALL, give, has_buffer};
pub use phase::{Phase, phase_after};
