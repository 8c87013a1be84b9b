//! The simulation relation between a program and its translation, over the plans of its blocks.
#![tactic(auto)]

mod laws;

pub use laws::{agrees, hold_holds, keeps_simulation, move_codes_move, moves_keep, settles};
