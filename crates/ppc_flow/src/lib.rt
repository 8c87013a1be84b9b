//! PowerPC compares, branches and traps over an algebra of words, and moves of CR and the special registers.
#![tactic(auto)]

mod branches;
mod compares;
mod fields;
mod masks;
mod specials;
mod traps;

pub use branches::{branch, jump};
pub use compares::{compare_immediate_row, compare_row};
pub use fields::{cr_logic_row, move_field, read_cr};
pub use masks::put_fields;
pub use specials::{put_special, read_special};
pub use traps::trap;
