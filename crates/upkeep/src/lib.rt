//! What a translation keeps up: the bytes that may not be written, and what its file lays out in memory.
#![tactic(auto)]

mod laws;

pub use laws::{
    all_live_is_enough, guests_stay_guests, has_home, host_keeps_unwritten, loaded_has_bytes,
    starts,
};
