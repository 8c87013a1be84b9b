//! The code segment of a written file carries the plans of its program's blocks.
#![tactic(auto)]

mod laws;

pub use laws::{
    blocks_stand, entries_are_addresses, hold_stands, items_stand, jumps_lead, plans_stand,
    spellings_stand, tables_stand,
};
