//! The guest half of a rule's formula: a window's words as rows over numbered places.
#![tactic(auto)]

mod fields;
mod laws;
mod rows;

pub use laws::windows_run;
pub use rows::{window_rows, window_width};
