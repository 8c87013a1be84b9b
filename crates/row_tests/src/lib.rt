//! Rows of instructions and ops over words, and gates, by values from outside.
#![tactic(auto)]

#[cfg(test)]
mod gates;
#[cfg(test)]
mod guest_rows;
#[cfg(test)]
mod host_rows;
#[cfg(test)]
mod words;
