//! Steps of the machines as the tool runs them.
#![tactic(auto)]

#[cfg(test)]
mod accesses;
#[cfg(test)]
mod example_runs;
#[cfg(test)]
mod guest_steps;
#[cfg(test)]
mod host_steps;
