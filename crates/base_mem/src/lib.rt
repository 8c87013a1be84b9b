//! The ops for each instruction with an access to memory.
#![tactic(auto)]

mod addresses;
mod laws;
mod loading;
mod multiple;
mod storing;
mod tile;

pub use laws::{
    built_are_straight, tiles_are_placeable, tiles_are_short, tiles_are_tiles, tiles_do_rows,
};
pub use tile::{emit, is_built, symbolic_tile};
