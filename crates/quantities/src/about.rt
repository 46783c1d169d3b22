//! The quantities, and what each is beside its values, in one table: how it is named, and who says it.
ghost use Rattle.std.specs.Prelude.{◌≡◌, ◌<◌, ◌≤◌, IsTrue, length};
ghost use Rattle.std.specs.List.{list_all};
ghost use Rattle.quantities.specs.About.{about_of, number_of, quantities, quantities_count};
ghost use Rattle.sentence_text.specs.Byte.{is_capital};

/// What a bus says besides the rows. They stand everywhere in this order.
#[derive(Clone, Copy, PartialEq, Eq, PartialOrd, Ord)]
pub enum Quantity {
    Attitude,
    SetDrift,
    SpeedComponents,
    AirPressure,
    AirHumidity,
    AirTemperature,
    SeaTemperature,
    EngineFirst,
    EngineSecond,
    EngineStateFirst,
    EngineStateSecond,
    BatteryFirst,
    BatterySecond,
    FuelFirst,
    FuelSecond,
    WaterFirst,
}

/// How many quantities there are.
pub const QUANTITIES: usize = 16;

/// What a quantity is beside its values.
struct About {
    name: &'static str,
    talker: [u8; 2],
}

/// An entry of the table: its name and its talker.
macro_rules! about {
    ($name:literal, $talker:literal) => {
        About {
            name: $name,
            talker: *$talker,
        }
    };
}

/// What each quantity is, in the order of the quantities.
static ABOUT: [About; QUANTITIES] = [
    about!("attitude", b"II"),
    about!("set_drift", b"II"),
    about!("speed_components", b"VD"),
    about!("air_pressure", b"WI"),
    about!("air_humidity", b"WI"),
    about!("air_temperature", b"WI"),
    about!("sea_temperature", b"YX"),
    about!("engine_first", b"ER"),
    about!("engine_second", b"ER"),
    about!("engine_state_first", b"ER"),
    about!("engine_state_second", b"ER"),
    about!("battery_first", b"II"),
    about!("battery_second", b"II"),
    about!("fuel_first", b"II"),
    about!("fuel_second", b"II"),
    about!("water_first", b"II"),
];

/// The quantities themselves.
static ALL: [Quantity; QUANTITIES] = [
    Quantity::Attitude,
    Quantity::SetDrift,
    Quantity::SpeedComponents,
    Quantity::AirPressure,
    Quantity::AirHumidity,
    Quantity::AirTemperature,
    Quantity::SeaTemperature,
    Quantity::EngineFirst,
    Quantity::EngineSecond,
    Quantity::EngineStateFirst,
    Quantity::EngineStateSecond,
    Quantity::BatteryFirst,
    Quantity::BatterySecond,
    Quantity::FuelFirst,
    Quantity::FuelSecond,
    Quantity::WaterFirst,
];

/// All quantities, in their order.
#[tactic(auto, unfolding(crate::specs::About::quantities))]
pub fn all_quantities() -> &'static [Quantity; QUANTITIES]
    ensures all { result.now ≡ quantities }
    ensures count { length quantities ≡ quantities_count }
{
    &ALL
}

impl Quantity {
    /// Its place among the quantities, from 0.
    pub fn number(self) -> usize
        ensures number { result ≡ number_of self }
        ensures within { result < QUANTITIES }
    {
        self as usize
    }

    /// Its name in a configuration.
    pub fn name(self) -> &'static str
        ensures name { result.now ≡ (about_of self).name }
        ensures short { length result.now ≤ 32 }
    {
        ABOUT[self as usize].name
    }

    /// Who says its sentence where nobody else is configured (IEC 61162-1, talker identifiers).
    pub fn talker(self) -> [u8; 2]
        ensures talker { result ≡ (about_of self).talker }
        ensures capitals { IsTrue (list_all is_capital result) }
    {
        ABOUT[self as usize].talker
    }
}
