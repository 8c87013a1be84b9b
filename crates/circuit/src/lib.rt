//! Circuits of gates: an algebra whose words are literals, and formulas of its gates.
#![tactic(auto)]

mod algebra;
mod bits;
mod clauses;
mod gates;
mod laws;
mod literals;
mod miters;
mod nodes;
mod operations;
mod reached;
mod wiring;
mod words;

pub use gates::Gates;
pub use laws::{fits_gates, inputs_extend, one_formula, one_of_each, untied};
pub use literals::Lit;
pub use nodes::Node;
