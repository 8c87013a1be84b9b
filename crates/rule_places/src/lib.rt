//! The places of a rule's inputs: what stands where of the guest and of the host, and what a body is to leave there.
#![tactic(auto)]

mod ends;
mod inputs;

pub use ends::{NamedEnd, needed_ends, take};
pub use inputs::{has_constant, homes, widths};
