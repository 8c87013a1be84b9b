//! Unit propagation with two watched literals a clause: what clauses make true, and whether a clause follows from them. Values,
//! places and reasons of literals stand in arrays.
#![tactic(auto)]

mod clauses;
mod levels;
mod lists;
mod literal;
mod numbering;
mod propagator;
mod standing;
mod trail;
mod watches;

pub use clauses::{Literals, literals_of_all, written};
pub use levels::Levels;
pub use literal::Literal;
pub use numbering::Numbering;
pub use propagator::Propagator;
