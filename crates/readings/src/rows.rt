//! The rows, and what each is beside its values, in one table: how it is named, who says it, and by which parameter groups it goes over the
//! bus.
ghost use Rattle.std.specs.Prelude.{◌≡◌, ◌<◌, ◌≤◌, IsTrue, length};
ghost use Rattle.readings.specs.Rows.{about_of, are_capitals, rows};

/// The rows of the profile. Each is one kind of reading with a sentence of its own, and they stand
/// everywhere in this order.
#[derive(Clone, Copy, PartialEq, Eq, PartialOrd, Ord)]
pub enum Row {
    HeadingTrue,
    HeadingMagnetic,
    RateOfTurn,
    RudderFirst,
    RudderSecond,
    WaterSpeed,
    Depth,
    DistanceLog,
    Position,
    CourseSpeed,
    Gnss,
    Time,
    WindApparent,
    WindTrue,
    WindNorth,
    WaterTemperature,
    CrossTrack,
}

/// How many rows there are.
pub const ROWS: usize = 17;

/// What a row is beside its values.
struct About {
    name: &'static str,
    talker: [u8; 2],
    pgn: u32,
    also: Option<u32>,
    priority: u8,
}

/// An entry of the table: its name, its talker, its parameter group and the second one where there is one, and its priority.
macro_rules! about {
    ($name:literal, $talker:literal, $pgn:literal, $also:expr, $priority:literal) => {
        About {
            name: $name,
            talker: *$talker,
            pgn: $pgn,
            also: $also,
            priority: $priority,
        }
    };
}

/// What each row is, in the order of the rows.
static ABOUT: [About; ROWS] = [
    about!("heading_true", b"HE", 127_250, None, 2),
    about!("heading_magnetic", b"HC", 127_250, None, 2),
    about!("rate_of_turn", b"TI", 127_251, None, 2),
    about!("rudder_first", b"II", 127_245, None, 2),
    about!("rudder_second", b"II", 127_245, None, 2),
    about!("water_speed", b"VW", 128_259, None, 2),
    about!("depth", b"SD", 128_267, None, 3),
    about!("distance_log", b"VW", 128_275, None, 6),
    about!("position", b"GP", 129_025, None, 2),
    about!("course_speed", b"GP", 129_026, None, 2),
    about!("gnss", b"GP", 129_029, None, 3),
    about!("time", b"GP", 126_992, Some(129_033), 3),
    about!("wind_apparent", b"WI", 130_306, None, 2),
    about!("wind_true", b"WI", 130_306, None, 2),
    about!("wind_north", b"WI", 130_306, None, 2),
    about!("water_temperature", b"YX", 130_316, Some(130_312), 5),
    about!("cross_track", b"II", 129_283, None, 3),
];

/// The rows themselves.
static ALL: [Row; ROWS] = [
    Row::HeadingTrue,
    Row::HeadingMagnetic,
    Row::RateOfTurn,
    Row::RudderFirst,
    Row::RudderSecond,
    Row::WaterSpeed,
    Row::Depth,
    Row::DistanceLog,
    Row::Position,
    Row::CourseSpeed,
    Row::Gnss,
    Row::Time,
    Row::WindApparent,
    Row::WindTrue,
    Row::WindNorth,
    Row::WaterTemperature,
    Row::CrossTrack,
];

/// All rows, in their order.
#[tactic(auto, unfolding(crate::specs::Rows::rows))]
pub fn all_rows() -> &'static [Row; ROWS]
    ensures { result.now ≡ rows }
{
    &ALL
}

impl Row {
    /// Its place among the rows, from 0.
    #[inline]
    pub fn number(self) -> usize
        ensures number { result ≡ (about_of self).number }
        ensures within { result < ROWS }
    {
        self as usize
    }

    /// Its name in a configuration.
    pub fn name(self) -> &'static str
        ensures name { result.now ≡ (about_of self).name }
        ensures short { length result.now ≤ 32 }
    {
        ABOUT[self as usize].name
    }

    /// Who says its sentence where nobody else is configured (IEC 61162-1, talker identifiers).
    pub fn talker(self) -> [u8; 2]
        ensures talker { result ≡ (about_of self).talker }
        ensures capitals { IsTrue (are_capitals result) }
    {
        ABOUT[self as usize].talker
    }

    /// The parameter group that it is sent by; it is taken in by the same.
    #[inline]
    pub fn pgn(self) -> u32
        ensures { result ≡ (about_of self).pgn }
    {
        ABOUT[self as usize].pgn
    }

    /// A second parameter group that it is taken in by, if there is one.
    pub fn also(self) -> Option<u32>
        ensures { result ≡ (about_of self).also }
    {
        ABOUT[self as usize].also
    }

    /// The priority that it is sent with; 0 is the most urgent.
    #[inline]
    pub fn priority(self) -> u8
        ensures { result ≡ (about_of self).priority }
    {
        ABOUT[self as usize].priority
    }
}
