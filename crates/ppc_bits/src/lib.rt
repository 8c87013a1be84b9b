//! PowerPC logic, shifts, rotates, counts and extensions over an algebra of words.
#![tactic(auto)]

mod counts;
mod extensions;
mod logic;
mod rotates;
mod rows;
mod shifts;

pub use rotates::rotate;
pub use rows::{logic_immediate_row, logic_row, logic_unary_row};
pub use shifts::srawi;
