//! Files that are loaded and written, and what is found in a program.
#![tactic(auto)]

#[cfg(test)]
mod live_sets;
#[cfg(test)]
mod loads;
#[cfg(test)]
mod program_blocks;
#[cfg(test)]
mod program_words;
#[cfg(test)]
mod spaces;
#[cfg(test)]
mod tables;
#[cfg(test)]
mod written_files;
