//! Listings: the code of a program, a line for each word or op.
#![tactic(auto)]

mod line;
mod listing;
mod ops;
mod words;

pub use listing::list;

#[cfg(test)]
mod tests;
