//! What a rule is: a window of guest words, and a body of host ops that may stand for it.
#![tactic(auto)]

mod body;
mod goal;
mod line;
mod operands;
mod rule;

pub use body::{Body, access_count, allowed, body_cost, take_fits};
pub use goal::{DeadSet, Goal, Guest, guest_at, is_ending, is_ending_word, last_guest};
pub use line::{Hole, HostLine, fits, slot_count};
pub use operands::accesses;
pub use rule::Rule;
