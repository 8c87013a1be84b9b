//! PowerPC loads and stores over an algebra of words: addresses, widths, and the numbers loaded and stored.
#![tactic(auto)]

mod accesses;
mod loads;
mod many;
mod stores;

pub use loads::{load_indexed_row, load_indexed_update_row, load_row, load_update_row};
pub use many::multiple_row;
pub use stores::{store_indexed_row, store_indexed_update_row, store_row, store_update_row};
