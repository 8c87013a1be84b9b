//! The tool: its words, its commands, its causes and the top call.
#![tactic(auto)]

mod cause;
mod due;
mod entry;
mod list;
mod loading;
mod run;
mod translate;
mod whole;
mod words;

pub use cause::{Cause, Status};
pub use due::one_due;
pub use entry::top;
