ghost use Rattle.std.specs.Prelude.{◌≡◌};
ghost use Rattle.gate_events.specs.Event.{moment_in, view};

use n2k_id::Frame;

/// What a line of a capture says. Each moment is in microseconds.
#[derive(Clone, Copy)]
pub enum Event<'a> {
    /// A frame on the bus.
    Frame { moment: u64, frame: Frame },
    /// A datagram on the network.
    Datagram { moment: u64, bytes: &'a [u8] },
    /// Time passes.
    Tick { moment: u64 },
}

impl<'a> Event<'a> {
    /// When it happens.
    #[inline]
    pub fn moment(&self) -> u64
        ensures { result ≡ moment_in (view self.now) }
    {
        match self {
            Event::Frame { moment, .. } => *moment,
            Event::Datagram { moment, .. } => *moment,
            Event::Tick { moment } => *moment,
        }
    }
}
