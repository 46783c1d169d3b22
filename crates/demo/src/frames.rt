//! The frames that the devices send, each to all.
ghost use Rattle.std.specs.Prelude.{◌≡◌, ◌+◌, ◌<◌, ◌≤◌, [], length, pos, Some};
ghost use Rattle.n2k_id.specs.Frame.{IsFrame, bus_frame};
ghost use Rattle.n2k_id.specs.Identifier.{CanJoin};
ghost use Rattle.n2k_id.specs.Name.{name_bytes};
ghost use Rattle.readings.specs.declared.reading.Reading.TheVariants.{HeadingTrue};
ghost use Rattle.pgn_profile.specs.Profiled.{payload_of};
ghost use Rattle.demo.specs.Input.{position_frame, to_all};

use n2k_id::address::ALL;
use n2k_id::pgn::ADDRESS_CLAIMED;
use n2k_id::{Frame, Name, Parts, join, write_name};
use pgn_profile::{Payload, write};
use readings::Reading;

/// The NAME of the device at the address 0; those of the others follow.
const FIRST_NAME: u64 = 0xC078_8C00_0000_0000;

const GNSS_POSITION: u32 = 129_029;

fn frame_to_all(priority: u8, pgn: u32, source: u8, held: &[u8]) -> Frame
    requires parts { CanJoin (record { priority = priority; pgn = pgn; destination = 255; source = source }) }
    requires fits { length held.now ≤ 8 }
    ensures frame { bus_frame result ≡ to_all priority pgn source held.now }
    ensures valid { IsFrame result }
{
    let parts = Parts {
        priority,
        pgn,
        destination: ALL,
        source,
    };
    Frame::of(join(parts).unwrap(), held).unwrap()
}

/// A device's claim of its address (ISO 11783-5).
pub(crate) fn claim(address: u8) -> Frame
    ensures frame { bus_frame result ≡ to_all 6 60928 address (name_bytes (0xC0788C0000000000 + address)) }
    ensures valid { IsFrame result }
{
    let name = Name(FIRST_NAME + u64::from(address));
    frame_to_all(6, ADDRESS_CLAIMED, address, &write_name(name))
}

/// A true heading, in 1/10,000 rad.
#[tactic(auto, unfolding(n2k_id::specs::Identifier::has_destination))]
pub(crate) fn heading(source: u8, heading: u16) -> Frame
    requires { heading < 62832 }
    ensures frame { bus_frame result ≡ to_all 2 127250 source (payload_of (HeadingTrue (Some (pos heading)))) }
    ensures valid { IsFrame result }
{
    let mut payload = Payload::new();
    let reading = Reading::HeadingTrue {
        heading: Some(i64::from(heading)),
    };
    let pgn = write(&reading, &mut payload);
    frame_to_all(2, pgn, source, &payload)
}

/// The frame at this place of a position.
#[tactic(auto, unfolding(n2k_id::specs::Identifier::has_destination))]
pub(crate) fn position(source: u8, place: u8) -> Frame
    requires { place < 7 }
    ensures frame { bus_frame result ≡ to_all 3 129029 source (position_frame place) }
    ensures valid { IsFrame result }
{
    frame_to_all(3, GNSS_POSITION, source, &position_bytes(place))
}

/// The position is the same throughout; the last frame is filled with 255.
#[tactic(auto, unfolding(crate::specs::Input::position_frame))]
fn position_bytes(place: u8) -> [u8; 8]
    requires { place < 7 }
    ensures { result ≡ position_frame place }
{
    match place {
        0 => [0x00, 0x2B, 0x00, 0xDB, 0x4C, 0x00, 0x08, 0xAF],
        1 => [0x01, 0x2F, 0x00, 0x00, 0x00, 0x00, 0x00, 0x00],
        2 => [0x02, 0x00, 0x08, 0x00, 0x00, 0x00, 0x00, 0x00],
        3 => [0x03, 0x00, 0x00, 0x02, 0xE0, 0xAE, 0xBB, 0x00],
        4 => [0x04, 0x00, 0x00, 0x00, 0x00, 0x10, 0xFC, 0x09],
        5 => [0x05, 0x69, 0x00, 0xFF, 0x7F, 0xF4, 0x06, 0x00],
        _ => [0x06, 0x00, 0x00, 0xFF, 0xFF, 0xFF, 0xFF, 0xFF],
    }
}
