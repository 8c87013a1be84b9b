//! PowerPC arithmetic over an algebra of words: sums, differences, products and quotients.
#![tactic(auto)]

mod differences;
mod products;
mod rows;
mod sums;

pub use rows::{arithmetic_row, arithmetic_unary_row, immediate_row};
