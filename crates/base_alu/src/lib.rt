//! The ops for each instruction that is no flow word and has no access to memory.
#![tactic(auto)]

mod arithmetic;
mod compares;
mod conditions;
mod divisions;
mod immediates;
mod laws;
mod logic;
mod recording;
mod shifts;
mod specials;
mod tile;

pub use laws::{
    built_are_straight, tiles_are_placeable, tiles_are_short, tiles_are_tiles, tiles_do_rows,
};
pub use tile::{emit, is_built, symbolic_tile};
