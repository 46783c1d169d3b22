//! A gateway and its outside: what it tells of itself, at the end of time too, and that a device says the same alone and beside another; what stands in
//! memory for files, links, clock, readers and writers, and the real ones. All of it is tests: they stand apart from the crates that they are about,
//! which are proved but once without them. What a gateway and the parts beside it emit is tried by captures of the program itself.
#![tactic(auto)]

#[cfg(test)]
mod isolated;
#[cfg(test)]
mod memory;
#[cfg(test)]
mod setup;
#[cfg(test)]
mod standing;
#[cfg(test)]
mod system;
