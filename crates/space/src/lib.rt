//! Programs in memory, the calls that a running program makes, and what a run reports.
#![tactic(auto)]

mod call;
mod laws;
mod memory;
mod program;

pub use call::{Answer, Call, CallKind, End, Event};
pub use laws::{code_stays, one_byte_is_changed, rights_stay};
pub use memory::Space;
pub use program::{Bytes, Kind, Program, Segment, Segments};
