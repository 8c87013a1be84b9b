//! A translation by plans, byte for byte, that agrees with its program. Nothing is translated so yet.
#![tactic(auto)]

mod laws;

pub use laws::plans_agree;
