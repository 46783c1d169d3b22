//! Rows that a part is said plain in place of.
ghost use Rattle.std.specs.Prelude.{◌≡◌};
ghost use Rattle.bridge.specs.BridgeSettings.{replaced_in};
ghost use Rattle.bridge.specs.Gate.{is_replaced};

use plain_out::Stream;
use readings::Row;
use settings::Setup;

/// Which rows plain sentences lack, since what a part says stands in their place.
#[derive(Clone, Copy)]
pub(crate) struct Replaced {
    /// The magnetic heading, by joined headings.
    pub(crate) heading: bool,
    /// The cross track error, by the legs of plotters.
    pub(crate) cross_track: bool,
}

impl Replaced {
    /// By what a file configures.
    pub(crate) fn by(setup: &Setup) -> Replaced
        ensures { result ≡ replaced_in setup.now }
    {
        Replaced {
            heading: setup.heading.is_some(),
            cross_track: setup.nav.is_some(),
        }
    }

    /// Whether a part is said in place of this stream.
    pub(crate) fn has(&self, stream: Option<Stream>) -> bool
        ensures { result ≡ is_replaced self.now stream }
    {
        match stream {
            Some(Stream::Row(Row::HeadingMagnetic)) => self.heading,
            Some(Stream::Row(Row::CrossTrack)) => self.cross_track,
            _ => false,
        }
    }
}
