//! The locations that are live before each code word of a PowerPC program.
#![tactic(auto)]

mod flow;
mod growth;
mod laws;
mod live_sets;
mod namers;
mod program;
mod reading;

pub use laws::{live_by_behind, live_by_next};
pub use live_sets::LiveSets;
pub use program::live;
