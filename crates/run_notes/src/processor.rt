//! The processor that the program was built for.
use std::fs::{File, Files};
use std::io::Read;

/// The file of the program that runs.
const OWN_FILE: &str = "/proc/self/exe";

/// Where the head of an ELF file has its processor: two bytes, the lower one first.
const MACHINE: usize = 18;

/// The processor that the program was built for, by the head of its own file. None where that can't be read, or has another.
pub(crate) fn processor<R: Files>(rt: &R) -> Option<&'static str> {
    let mut head = [0; MACHINE + 2];
    let mut file = File::open(rt, OWN_FILE).ok()?;
    file.read_exact(&mut head).ok()?;
    match u16::from_le_bytes([head[MACHINE], head[MACHINE + 1]]) {
        62 => Some("x86-64"),
        183 => Some("64-bit ARM"),
        _ => None,
    }
}
