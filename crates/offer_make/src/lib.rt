//! The problem of a block: its candidates, its maps, its moves and offers with their prices.
#![tactic(auto)]

mod block_problem;
mod candidates;
mod laws;
mod maps;
mod moves;
mod offers;
mod prices;
mod words;

pub use block_problem::problem;
pub use laws::{base_prices_are_low, blocks_have_live_sets, prices_compute};
pub use maps::maps_over;
