//! The outside in memory and on the host, and runs of the top call over it.
#![tactic(auto)]

#[cfg(test)]
mod commands;
#[cfg(test)]
mod outsides;
