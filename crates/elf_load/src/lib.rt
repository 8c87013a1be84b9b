//! Programs from ELF files: what a file lays out in memory, and the first rule that refuses it.
#![tactic(auto)]

mod area;
mod faults;
mod headers;
mod laws;
mod loading;
mod numbers;
mod refusal;

pub use area::host_area;
pub use laws::{
    loaded_code_is_closed, loaded_is_apart, one_fault, one_program, program_without_fault,
};
pub use loading::load;
pub use refusal::{ElfRefusal, LoadFault};
