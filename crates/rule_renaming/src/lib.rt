//! One instance of a rule is enough: where it is sound with each parameter as the GPR of its own number, it is sound at
//! every match.
#![tactic(auto)]

mod laws;

pub use laws::{addition_is_sound, one_instance_is_enough};
