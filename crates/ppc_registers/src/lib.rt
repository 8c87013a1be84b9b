//! The registers of the guest machine, what its instructions read of them, and what they put there.
#![tactic(auto)]

mod operands;
mod registers;

pub use registers::Registers;
