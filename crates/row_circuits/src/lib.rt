//! Guest rows and host ops over gates: each does to places of words what it does as a run over numbers.
#![tactic(auto)]

mod choices;
mod lines;
mod rows;

pub use choices::{Choice, Leaves, new_choice};
pub use lines::{BodyCircuit, BodyLine, Operand, condition, one_line};
pub use rows::{WindowCircuit, WindowRow, one_row};
