//! The two machines, their runs, and when a translation agrees with its program.
#![tactic(auto)]

mod examples;
mod laws;

pub use examples::{
    accesses, adds_a_negative_number, answers_to_a_read, answers_to_a_write, branches,
    branches_on_conditions, exits_with_seven, host_operations, host_programs, illegal_word,
    records_and_carries, unknown_call_is_an_error, writes_from_the_stack,
};
pub use laws::{
    agrees_if_narrowly, clean_reads_no_code, codes_are_unique, guest_keeps_calls, guest_stays_over,
    host_keeps_calls, host_stays_over, host_uses_first_choices, readings_are_one, readings_exist,
};
