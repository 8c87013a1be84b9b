//! Plans of blocks: those of small programs, and those of small problems, compared with all their plans.
#![tactic(auto)]

#[cfg(test)]
mod all_plans;
#[cfg(test)]
mod block_plans;
#[cfg(test)]
mod edges;
#[cfg(test)]
mod programs;
#[cfg(test)]
mod small_problems;
#[cfg(test)]
mod verified;
