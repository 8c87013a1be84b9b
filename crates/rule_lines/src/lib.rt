//! The lines of a rule's body over numbered places.
#![tactic(auto)]

mod laws;
mod lines;
mod places;

pub use laws::bodies_run;
pub use lines::body_lines;
