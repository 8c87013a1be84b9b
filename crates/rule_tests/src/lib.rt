//! Texts of rules that are read and written.
#![tactic(auto)]

#[cfg(test)]
mod rule_texts;
