//! What a plotter says of its route (canboat).
//!
//! PGN 129284, navigation data, a fast packet of at least 34 bytes:
//!
//! | Byte | |
//! |---|---|
//! | 1 u32 | distance to the destination, 0.01 m |
//! | 5, bits 0-1 | the north of both bearings: 0 true, 1 magnetic |
//! | 5, bits 2-3; 4-5 | 1: the perpendicular is passed; 1: the arrival circle is entered |
//! | 12 u16 | bearing of the leg, from its origin to its destination, 1e-4 rad |
//! | 14 u16 | bearing of the destination from where the boat is, 1e-4 rad |
//! | 16 u32; 20 u32 | number of the origin; of the destination |
//! | 24 i32; 28 i32 | latitude; longitude of the destination, 1e-7 degree |
//! | 32 i16 | closing speed, 0.01 m/s |
//!
//! PGN 129283, cross track error, a single frame of at least 6 bytes: bits 6-7 of byte 1 are 1 where the navigation is terminated, and i32 at byte 2 is how far
//! the boat is from the line of the leg, 0.01 m.
ghost use Rattle.std.specs.Prelude.{◌≡◌, ◌≤◌, length};
ghost use Rattle.readings.specs.Ranges.{Admits, angle, cross_track};
ghost use Rattle.navigation.specs.Legs.{IsLeg, bearing_at, error_in, goal_in, is_same, least_leg, leg_in, reference_in};

use pgn_profile::{signed, unsigned};
use readings::range::{ANGLE, CROSS_TRACK, LATITUDE, LONGITUDE, OFFSET};
use readings::{Range, bits, read_unsigned};

/// The fewest bytes of a leg.
pub(crate) const LEAST_LEG: usize = 34;

/// The fewest bytes of an error.
pub(crate) const LEAST_ERROR: usize = 6;

/// In 0.01 m: the three greatest numbers of 32 bits say that there is none.
const DISTANCE: Range = Range {
    low: 0,
    high: 4_294_967_292,
};

/// The number of a waypoint.
const WAYPOINT: Range = Range {
    low: 0,
    high: 99_999,
};

/// Where a leg goes: both waypoints' numbers and the position of the destination, as they stand in the message.
#[derive(Clone, Copy)]
pub(crate) struct Goal {
    pub(crate) waypoints: u64,
    pub(crate) position: u64,
}

/// A leg of a route, and how the boat is on it.
#[derive(Clone, Copy)]
pub(crate) struct Leg {
    /// To the destination, in 0.01 m.
    pub(crate) distance: Option<i64>,
    /// Whether both bearings are from magnetic north.
    pub(crate) magnetic: bool,
    /// Whether the perpendicular at the destination is passed.
    pub(crate) passed: bool,
    /// Whether the arrival circle is entered.
    pub(crate) entered: bool,
    /// From the origin to the destination, in 1e-4 radian.
    pub(crate) track: Option<i64>,
    /// From where the boat is to the destination, in 1e-4 radian.
    pub(crate) bearing: Option<i64>,
    /// The number of the origin.
    pub(crate) origin: Option<i64>,
    /// The number of the destination.
    pub(crate) destination: Option<i64>,
    /// Of the destination, in 1e-7 degree.
    pub(crate) latitude: Option<i64>,
    /// Of the destination, in 1e-7 degree.
    pub(crate) longitude: Option<i64>,
    /// To the destination, in 0.01 m/s.
    pub(crate) closing: Option<i64>,
}

/// The leg in a payload.
#[tactic(auto, using(crate::proofs::LegRanges::in_ranges))]
pub(crate) fn leg_in(payload: &[u8]) -> Leg
    requires { least_leg ≤ length payload.now }
    ensures value { result ≡ leg_in payload.now }
    ensures range { IsLeg result }
{
    let state = payload[5];
    Leg {
        distance: unsigned(payload, 1, 4, DISTANCE),
        magnetic: bits(state, 0, 2) == 1,
        passed: bits(state, 2, 2) == 1,
        entered: bits(state, 4, 2) == 1,
        track: bearing_at(12, payload),
        bearing: bearing_at(14, payload),
        origin: unsigned(payload, 16, 4, WAYPOINT),
        destination: unsigned(payload, 20, 4, WAYPOINT),
        latitude: signed(payload, 24, 4, LATITUDE),
        longitude: signed(payload, 28, 4, LONGITUDE),
        closing: signed(payload, 32, 2, OFFSET),
    }
}

/// The bearing at a place of a payload; by a north that isn't known there is none.
fn bearing_at(place: usize, payload: &[u8]) -> Option<i64>
    requires { least_leg ≤ length payload.now }
    ensures { result ≡ bearing_at place payload.now }
{
    if bits(payload[5], 0, 2) > 1 {
        return None;
    }
    unsigned(payload, place, 2, ANGLE)
}

/// The goal of the leg in a payload.
pub(crate) fn goal_in(payload: &[u8]) -> Goal
    ensures { result ≡ goal_in payload.now }
{
    Goal {
        waypoints: read_unsigned(payload, 16, 8).unwrap_or(0),
        position: read_unsigned(payload, 24, 8).unwrap_or(0),
    }
}

impl Goal {
    pub(crate) fn is_same(&self, other: &Goal) -> bool
        ensures { result ≡ is_same self.now other.now }
    {
        self.waypoints == other.waypoints && self.position == other.position
    }
}

/// The error in a payload, in 0.01 m.
pub(crate) fn error_in(payload: &[u8]) -> Option<i64>
    requires { 6 ≤ length payload.now }
    ensures value { result ≡ error_in payload.now }
    ensures range { Admits cross_track result }
{
    if bits(payload[1], 6, 2) == 1 {
        return None;
    }
    signed(payload, 2, 4, CROSS_TRACK)
}
