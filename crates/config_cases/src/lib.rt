//! Configurations: which values are valid, and what the settings of an accepted file are. All of it is tests: they stand apart from the crates
//! that they are about, which are proved but once without them.
#![tactic(auto)]

#[cfg(test)]
mod accepted;
#[cfg(test)]
mod values;
