//! The effects of IA-32 ops over an algebra of words.
#![tactic(auto)]

mod conditions;
mod effects;
mod given;
mod laws;
mod logic;
mod moves;
mod parts;
mod products;
mod rows;
mod scan;
mod shifts;
mod sums;

pub use effects::effect;
pub use given::{HostEffect, HostIn};
pub use laws::undefined_alone_is_chosen;
