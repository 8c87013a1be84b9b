//! The translation of PowerPC programs to IA-32 files, which agree with them.
#![tactic(auto)]

mod translation;

pub use translation::{Output, translate};
