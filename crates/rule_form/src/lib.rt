//! The text of rules: what a rule file holds.
#![tactic(auto)]

mod fault;
mod fields;
mod laws;
mod line;
mod literals;
mod names;
mod parsing;
mod printing;
mod progress;
mod rows;
mod window;
mod writing;

pub use fault::TextFault;
pub use laws::{one_line, one_list, one_rule};
pub use parsing::parse;
pub use printing::print;
pub use rule_body::{Body, DeadSet, Goal, Guest, Hole, HostLine, Rule, allowed, body_cost};
