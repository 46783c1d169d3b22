//! What is read, written and joined, where the program doesn't show it. Of the bus: identifiers and NAMEs, holders of addresses, messages in the making,
//! payloads to the unit with their ranges, reports of ships that are read. As text: numbers, sentences, TAG blocks and their groups, datagrams, the lines
//! of a capture. All of it is tests: they stand apart from the crates that they are about, which are proved but once without them. Claims, sessions and
//! answers, the sentences of readings, and which rule a line or a datagram breaks, are tried by the program itself.
#![tactic(auto)]

#[cfg(test)]
mod captures;
#[cfg(test)]
mod claims;
#[cfg(test)]
mod datagrams;
#[cfg(test)]
mod fast_packets;
#[cfg(test)]
mod fractions;
#[cfg(test)]
mod groups;
#[cfg(test)]
mod identifiers;
#[cfg(test)]
mod payloads;
#[cfg(test)]
mod ranges;
#[cfg(test)]
mod sentences;
#[cfg(test)]
mod sessions;
#[cfg(test)]
mod ships;
#[cfg(test)]
mod slots;
#[cfg(test)]
mod tags;
