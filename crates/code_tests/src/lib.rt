//! Words and ops as their assemblers spell them, and the tiles of words.
#![tactic(auto)]

#[cfg(test)]
mod access_tiles;
#[cfg(test)]
mod flow_tiles;
#[cfg(test)]
mod guest_words;
#[cfg(test)]
mod host_ops;
#[cfg(test)]
mod straight_tiles;
#[cfg(test)]
mod tile_bytes;
