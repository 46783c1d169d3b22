//! A position report.

/// The position report of a ship (ITU-R M.1371, messages 1 to 3; canboat, PGN 129038).
#[derive(Clone, Copy, Default)]
pub struct AisReport {
    /// The message: 1 and 2 come at their time, 3 answers an interrogation.
    pub kind: u8,
    /// How often it was repeated: 0 to 3, of which 3 says that it isn't repeated any more.
    pub repeat: u8,
    /// The ship's number in the maritime mobile service, at most 999,999,999.
    pub mmsi: u32,
    /// What the ship does: 0 under way by engine, 1 at anchor and so on to 15, not defined.
    pub status: u8,
    /// Speed over ground in tenths of a knot; 1022 for 102.2 knots and more, 1023 not available.
    pub sog: u16,
    /// The position is known to 10 metres.
    pub accuracy: bool,
    /// Longitude in ten-thousandths of a minute, east positive; 181 degrees not available.
    pub longitude: i32,
    /// Latitude in ten-thousandths of a minute, north positive; 91 degrees not available.
    pub latitude: i32,
    /// Course over ground in tenths of a degree, below 3600; 3600 not available.
    pub cog: u16,
    /// True heading in degrees, below 360; 511 not available.
    pub heading: u16,
    /// The second of the minute at which it was made, below 60; 60 not available, above it how the position is known.
    pub second: u8,
    /// Special manoeuvre: 0 not available, 1 none, 2 engaged in one.
    pub manoeuvre: u8,
    /// The receiver watches its own integrity (RAIM).
    pub raim: bool,
    /// The state of the radio: 19 bits, as they came.
    pub radio: u32,
}

/// Why a payload is no report.
#[derive(Clone, Copy)]
pub enum AisFault {
    /// It has fewer than 26 bytes.
    Short,
    /// The message is none of 1 to 3, the number is above 999,999,999, or the transceiver isn't known.
    Outside,
}
