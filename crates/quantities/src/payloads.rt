//! The payloads of the quantities, with their fields laid out after canboat's public tables.
ghost use Rattle.std.specs.Prelude.{◌≡◌, IsTrue};
ghost use Rattle.std.specs.List.{list_all};
ghost use Rattle.quantities.specs.Payloads.{entries};
ghost use Rattle.quantities.specs.Sound.{is_entry_readable};
ghost use Rattle.quantities.specs.Told.{entries_of, kind_of};

use crate::about::Quantity;
use crate::part::{Part, Selector};
use pgn_profile::Kind;
use readings::Range;
use readings::range::GREATEST_U16;

/// The payloads of one parameter group that say a quantity.
pub(crate) struct Entry {
    pub quantity: Quantity,
    pub pgn: u32,
    pub kind: Kind,
    /// The least length of a payload of the parameter group.
    pub least: usize,
    /// Which of the values of a message it gives, from 0.
    pub place: usize,
    /// Whether a value that isn't usable means that the device has no such sensor.
    pub only_usable: bool,
    pub selector: Selector,
    pub parts: Parts,
}

/// Where the values of a quantity stand in a payload; those behind its last are absent.
#[derive(Clone, Copy)]
pub(crate) struct Parts {
    pub first: Part,
    pub second: Part,
    pub third: Part,
    pub fourth: Part,
    pub fifth: Part,
    pub sixth: Part,
}

/// Where no value stands.
const NONE: Parts = Parts {
    first: Part::Absent,
    second: Part::Absent,
    third: Part::Absent,
    fourth: Part::Absent,
    fifth: Part::Absent,
    sixth: Part::Absent,
};

// The parameter group numbers of the quantities, by canboat's names.
const ATTITUDE: u32 = 127_257;

const ENGINE_PARAMETERS_RAPID_UPDATE: u32 = 127_488;

const ENGINE_PARAMETERS_DYNAMIC: u32 = 127_489;

const FLUID_LEVEL: u32 = 127_505;

const BATTERY_STATUS: u32 = 127_508;

const SET_DRIFT_RAPID_UPDATE: u32 = 129_291;

const ENVIRONMENTAL_PARAMETERS_OBSOLETE: u32 = 130_310;

const ENVIRONMENTAL_PARAMETERS: u32 = 130_311;

const TEMPERATURE: u32 = 130_312;

const HUMIDITY: u32 = 130_313;

const ACTUAL_PRESSURE: u32 = 130_314;

const TEMPERATURE_EXTENDED_RANGE: u32 = 130_316;

const VESSEL_SPEED_COMPONENTS: u32 = 130_578;

/// The payloads in which so many bits of a byte, from the lowest of them on, have a value.
macro_rules! bits {
    ($place:literal, $low:literal, $count:literal, $value:literal) => {
        Selector::Bits {
            place: $place,
            low: $low,
            count: $count,
            value: $value,
        }
    };
}

/// An unsigned number by its place, its width and its greatest value.
macro_rules! unsigned {
    ($place:literal, $width:literal, $high:expr) => {
        Part::Unsigned {
            place: $place,
            width: $width,
            range: Range {
                low: 0,
                high: $high,
            },
        }
    };
}

/// The same, kept times a factor.
macro_rules! multiple {
    ($place:literal, $width:literal, $high:expr, $factor:literal) => {
        Part::Multiple {
            place: $place,
            width: $width,
            high: $high as u32,
            factor: $factor,
        }
    };
}

/// A signed number by its place, its width and its range.
macro_rules! signed {
    ($place:literal, $width:literal, $low:literal, $high:literal) => {
        Part::Signed {
            place: $place,
            width: $width,
            range: Range {
                low: $low,
                high: $high,
            },
        }
    };
}

/// An entry by its quantity, its parameter group and how that comes, the least length, the selector and the parts. It gives the one value of a
/// message.
macro_rules! entry {
    ($quantity:ident, $pgn:ident, $kind:ident, $least:literal, $selector:expr, $($part_place:ident: $part:expr),*) => {
        Entry {
            quantity: Quantity::$quantity,
            pgn: $pgn,
            kind: Kind::$kind,
            least: $least,
            place: 0,
            only_usable: false,
            selector: $selector,
            parts: Parts {
                $($part_place: $part,)*
                ..NONE
            },
        }
    };
}

/// An entry of an older weather station, which tells of several quantities in one frame: by its quantity, its parameter group, the least length,
/// the place among the values of the message, the selector and the value. What isn't usable it doesn't measure.
macro_rules! station {
    ($quantity:ident, $pgn:ident, $least:literal, $place:literal, $selector:expr, $part:expr) => {
        Entry {
            quantity: Quantity::$quantity,
            pgn: $pgn,
            kind: Kind::Single,
            least: $least,
            place: $place,
            only_usable: true,
            selector: $selector,
            parts: Parts {
                first: $part,
                ..NONE
            },
        }
    };
}

// The payloads of each parameter group.
static ATTITUDES: [Entry; 1] = [
    entry!(Attitude, ATTITUDE, Single, 7, Selector::Always, first: signed!(3, 2, -31_416, 31_416), second: signed!(5, 2, -31_416, 31_416)),
];

static SETS_AND_DRIFTS: [Entry; 2] = [
    entry!(SetDrift, SET_DRIFT_RAPID_UPDATE, Single, 6, bits!(1, 0, 2, 0), first: unsigned!(2, 2, 62_832), second: Part::Absent, third: unsigned!(4, 2, GREATEST_U16)),
    entry!(SetDrift, SET_DRIFT_RAPID_UPDATE, Single, 6, bits!(1, 0, 2, 1), first: Part::Absent, second: unsigned!(2, 2, 62_832), third: unsigned!(4, 2, GREATEST_U16)),
];

static SPEEDS: [Entry; 1] = [
    entry!(SpeedComponents, VESSEL_SPEED_COMPONENTS, Fast, 12, Selector::Always, first: signed!(0, 2, -32_764, 32_764), second: signed!(2, 2, -32_764, 32_764), third: signed!(4, 2, -32_764, 32_764), fourth: signed!(6, 2, -32_764, 32_764), fifth: signed!(8, 2, -32_764, 32_764), sixth: signed!(10, 2, -32_764, 32_764)),
];

static PRESSURES: [Entry; 1] = [
    entry!(AirPressure, ACTUAL_PRESSURE, Single, 7, bits!(2, 0, 8, 0), first: signed!(3, 4, 0, 2_000_000)),
];

static HUMIDITIES: [Entry; 1] = [
    entry!(AirHumidity, HUMIDITY, Single, 5, bits!(2, 0, 8, 1), first: signed!(3, 2, 0, 25_000)),
];

static TEMPERATURES: [Entry; 1] = [
    entry!(AirTemperature, TEMPERATURE, Single, 5, bits!(2, 0, 8, 1), first: multiple!(3, 2, GREATEST_U16, 10)),
];

static EXTENDED_TEMPERATURES: [Entry; 1] = [
    entry!(AirTemperature, TEMPERATURE_EXTENDED_RANGE, Single, 6, bits!(2, 0, 8, 1), first: unsigned!(3, 3, 16_777_212)),
];

static OBSOLETE_STATIONS: [Entry; 3] = [
    station!(
        AirPressure,
        ENVIRONMENTAL_PARAMETERS_OBSOLETE,
        7,
        0,
        Selector::Always,
        multiple!(5, 2, 2_000, 1_000)
    ),
    station!(
        AirTemperature,
        ENVIRONMENTAL_PARAMETERS_OBSOLETE,
        7,
        1,
        Selector::Always,
        multiple!(3, 2, GREATEST_U16, 10)
    ),
    station!(
        SeaTemperature,
        ENVIRONMENTAL_PARAMETERS_OBSOLETE,
        7,
        2,
        Selector::Always,
        multiple!(1, 2, GREATEST_U16, 10)
    ),
];

static STATIONS: [Entry; 4] = [
    station!(
        AirPressure,
        ENVIRONMENTAL_PARAMETERS,
        8,
        0,
        Selector::Always,
        multiple!(6, 2, 2_000, 1_000)
    ),
    station!(
        AirHumidity,
        ENVIRONMENTAL_PARAMETERS,
        8,
        1,
        bits!(1, 6, 2, 1),
        signed!(4, 2, 0, 25_000)
    ),
    station!(
        AirTemperature,
        ENVIRONMENTAL_PARAMETERS,
        8,
        2,
        bits!(1, 0, 6, 1),
        multiple!(2, 2, GREATEST_U16, 10)
    ),
    station!(
        SeaTemperature,
        ENVIRONMENTAL_PARAMETERS,
        8,
        2,
        bits!(1, 0, 6, 0),
        multiple!(2, 2, GREATEST_U16, 10)
    ),
];

static REVOLUTIONS: [Entry; 2] = [
    entry!(EngineFirst, ENGINE_PARAMETERS_RAPID_UPDATE, Single, 3, bits!(0, 0, 8, 0), first: unsigned!(1, 2, GREATEST_U16)),
    entry!(EngineSecond, ENGINE_PARAMETERS_RAPID_UPDATE, Single, 3, bits!(0, 0, 8, 1), first: unsigned!(1, 2, GREATEST_U16)),
];

static ENGINE_STATES: [Entry; 2] = [
    entry!(EngineStateFirst, ENGINE_PARAMETERS_DYNAMIC, Fast, 26, bits!(0, 0, 8, 0), first: multiple!(5, 2, GREATEST_U16, 10), second: unsigned!(1, 2, GREATEST_U16)),
    entry!(EngineStateSecond, ENGINE_PARAMETERS_DYNAMIC, Fast, 26, bits!(0, 0, 8, 1), first: multiple!(5, 2, GREATEST_U16, 10), second: unsigned!(1, 2, GREATEST_U16)),
];

static BATTERIES: [Entry; 2] = [
    entry!(BatteryFirst, BATTERY_STATUS, Single, 5, bits!(0, 0, 8, 0), first: signed!(1, 2, -32_764, 32_764), second: signed!(3, 2, -32_764, 32_764)),
    entry!(BatterySecond, BATTERY_STATUS, Single, 5, bits!(0, 0, 8, 1), first: signed!(1, 2, -32_764, 32_764), second: signed!(3, 2, -32_764, 32_764)),
];

static LEVELS: [Entry; 3] = [
    entry!(FuelFirst, FLUID_LEVEL, Single, 3, bits!(0, 0, 8, 0x00), first: signed!(1, 2, 0, 25_000)),
    entry!(FuelSecond, FLUID_LEVEL, Single, 3, bits!(0, 0, 8, 0x01), first: signed!(1, 2, 0, 25_000)),
    entry!(WaterFirst, FLUID_LEVEL, Single, 3, bits!(0, 0, 8, 0x10), first: signed!(1, 2, 0, 25_000)),
];

/// How a message of the parameter group comes over the bus. It is asked of each frame, and so apart from the tables.
#[tactic(auto, unfolding(crate::specs::Payloads::entries))]
pub fn kind(pgn: u32) -> Kind
    ensures { result ≡ kind_of pgn }
{
    match pgn {
        ATTITUDE
        | ENGINE_PARAMETERS_RAPID_UPDATE
        | FLUID_LEVEL
        | BATTERY_STATUS
        | SET_DRIFT_RAPID_UPDATE
        | ENVIRONMENTAL_PARAMETERS_OBSOLETE
        | ENVIRONMENTAL_PARAMETERS
        | TEMPERATURE
        | HUMIDITY
        | ACTUAL_PRESSURE
        | TEMPERATURE_EXTENDED_RANGE => Kind::Single,
        ENGINE_PARAMETERS_DYNAMIC | VESSEL_SPEED_COMPONENTS => Kind::Fast,
        _ => Kind::Outside,
    }
}

/// The entries of the parameter group.
#[tactic(auto, unfolding(crate::specs::Payloads::entries))]
pub(crate) fn entries_of(pgn: u32) -> &'static [Entry]
    ensures entries { result.now ≡ entries_of entries pgn }
    ensures readable { IsTrue (list_all is_entry_readable result.now) }
{
    match pgn {
        ATTITUDE => &ATTITUDES,
        SET_DRIFT_RAPID_UPDATE => &SETS_AND_DRIFTS,
        VESSEL_SPEED_COMPONENTS => &SPEEDS,
        ACTUAL_PRESSURE => &PRESSURES,
        HUMIDITY => &HUMIDITIES,
        TEMPERATURE => &TEMPERATURES,
        TEMPERATURE_EXTENDED_RANGE => &EXTENDED_TEMPERATURES,
        ENVIRONMENTAL_PARAMETERS_OBSOLETE => &OBSOLETE_STATIONS,
        ENVIRONMENTAL_PARAMETERS => &STATIONS,
        ENGINE_PARAMETERS_RAPID_UPDATE => &REVOLUTIONS,
        ENGINE_PARAMETERS_DYNAMIC => &ENGINE_STATES,
        BATTERY_STATUS => &BATTERIES,
        FLUID_LEVEL => &LEVELS,
        _ => &[],
    }
}
