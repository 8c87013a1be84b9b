//! The file of a translation: System V ELF32 for IA-32.
#![tactic(auto)]

mod headers;
mod laws;
mod part;
mod translation;
mod writer;

pub use laws::{offsets_are_least, stack_has_no_bytes, written_files_load};
pub use translation::file;
