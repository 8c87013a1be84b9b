//! What isn't live makes no difference to a program's guest.
#![tactic(auto)]

mod laws;

pub use laws::live_sets_are_enough;
