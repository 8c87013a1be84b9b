//! What texts of lines share: words between separators, numbers in hexadecimal and decimal, and which line is the first with
//! which no text of a grammar begins.
#![tactic(auto)]

mod hexadecimal;
mod pieces;
mod writing;

pub use hexadecimal::{is_hexadecimal, word_of};
pub use pieces::{cut, is, words};
pub use writing::{put_decimal, put_hexadecimal};
