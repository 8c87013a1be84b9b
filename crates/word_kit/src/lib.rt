//! What every crate shares: the error of want of memory, words and the algebra over them, formulas.
#![tactic(auto)]

mod algebra;
mod formulas;
mod masks;
mod plain_words;
mod quotients;

pub use algebra::Alg;
pub use formulas::{Clause, Clauses, Formula, Refutation};
pub use masks::mask;
pub use plain_words::Plain;
use std::alloc::{AllocError, AllocFailed};

/// There was no memory for what a call would have made.
#[derive(Clone, Copy, Debug, PartialEq, Eq)]
pub struct NoMemory;

impl From<AllocError> for NoMemory {
    fn from(_error: AllocError) -> NoMemory {
        NoMemory
    }
}

impl<T: Drop> From<AllocFailed<T>> for NoMemory {
    fn from(_refused: AllocFailed<T>) -> NoMemory {
        NoMemory
    }
}
