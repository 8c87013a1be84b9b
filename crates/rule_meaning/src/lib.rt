//! The formula of a rule. Where it has no model, the rule is sound.
#![tactic(auto)]

mod formula;
mod laws;

pub use formula::formula_of;
pub use laws::runs_make_sound;
