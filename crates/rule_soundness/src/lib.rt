//! When a rule is sound: its window and its ops where it is laid, and what they have to do.
#![tactic(auto)]

mod laws;

pub use laws::{ops_have_shapes, rows_have_fields};
