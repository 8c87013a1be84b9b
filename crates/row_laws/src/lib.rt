//! What an instruction may change, and what it depends on.
#![tactic(auto)]

mod laws;

pub use laws::{changes_its_writes_alone, depends_on_its_reads_alone, keeps_agreement};
