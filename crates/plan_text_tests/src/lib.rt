//! Texts of plans that are read and written.
#![tactic(auto)]

#[cfg(test)]
mod plan_texts;
