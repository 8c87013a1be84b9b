//! Rules where they match: what a binding gives, and the ops that stand there.
#![tactic(auto)]

mod binding;
mod fields;
mod filling;
mod laying;
mod matching;
mod placing;
mod reading;
mod slots;
mod words;

pub use binding::Binding;
pub use laying::instantiate;
pub use matching::{is_match_at, match_at};
