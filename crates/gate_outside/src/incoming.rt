//! What comes over a link in memory.
ghost use Rattle.std.specs.Prelude.{map, All};
ghost use Rattle.gate_outside.specs.LinkMemory.{arrival_of, arrival_at, IsArrival, IsArrivalThere};

use crate::{Arrival, LARGEST_ARRIVAL};

/// The arrival at a place of the script, into the front of the buffer.
pub(crate) fn arrival_at(
    script: &[Option<Vec<u8>>],
    place: u64,
    buf: &mut [u8; LARGEST_ARRIVAL],
) -> Arrival
    requires { All IsArrival script.now }
    ensures { IsArrivalThere buf.new (arrival_at (map arrival_of script.now) place) result }
{
    if place >= script.len() as u64 {
        return Arrival::Nothing;
    }
    match &script[place as usize] {
        None => Arrival::Nothing,
        Some(bytes) => {
            buf[..bytes.len()].copy_from_slice(bytes);
            Arrival::Bytes(bytes.len())
        }
    }
}
