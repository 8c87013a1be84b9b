//! Numbered places of a window or a body over gates: what rows and ops read of them, and what they put there.
#![tactic(auto)]

mod constants;
mod fields;
mod places;
mod results;
mod sources;

pub use constants::{Number, filled, read_number};
pub use fields::{Field, read_field};
pub use places::Places;
pub use results::{Results, put_results};
pub use sources::{Address, Source, lowest, read_address, read_source};
