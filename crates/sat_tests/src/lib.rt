//! Formulas that the solver decides, and logs that the check takes and refuses.
#![tactic(auto)]

#[cfg(test)]
mod checks;
#[cfg(test)]
mod searches;
