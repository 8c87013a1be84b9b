//! Windows of guest rows and bodies of host ops over gates, and the formula that has no model where they do the same.
#![tactic(auto)]

mod formula;
mod inputs;
mod loops;
mod pairs;
mod starts;

pub use formula::formula_of;
pub use inputs::input_places;
pub use loops::{all_lines, all_rows};
pub use pairs::End;
