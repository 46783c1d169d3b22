//! What the wrappers of one run share.
use crate::line::say;
use command_line::Status;
use std::alloc::AllocError;
use std::cell::Cell;
use std::io::ErrorKind;

/// How many first bytes of a datagram are kept: the header and the TAG blocks of its first line.
pub(crate) const FRONT_BYTES: usize = 160;

/// The first bytes of a datagram.
#[derive(Clone, Copy)]
pub(crate) struct Front {
    pub(crate) bytes: [u8; FRONT_BYTES],
    pub(crate) count: usize,
}

/// What the wrappers of one run share: the name of the configuration, what came over the network last, how much came over
/// each link, and the time.
#[derive(Drop)]
pub struct Shared {
    pub(crate) config: Cell<Option<String>>,
    pub(crate) last_datagram: Cell<Front>,
    pub(crate) from_bus: Cell<u64>,
    pub(crate) from_net: Cell<u64>,
    pub(crate) serves: Cell<bool>,
    /// The last reading of the run's clock.
    pub(crate) now_us: Cell<u64>,
}

/// Which of the two links it is.
#[derive(Clone, Copy)]
pub enum Side {
    Bus,
    Net,
}

impl Side {
    /// The name of its table in a configuration.
    pub(crate) fn name(self) -> &'static str {
        match self {
            Side::Bus => "bus",
            Side::Net => "net",
        }
    }
}

impl Shared {
    /// Of a run that has not begun.
    pub fn new() -> Self {
        Shared {
            config: Cell::new(None),
            last_datagram: Cell::new(Front {
                bytes: [0; FRONT_BYTES],
                count: 0,
            }),
            from_bus: Cell::new(0),
            from_net: Cell::new(0),
            serves: Cell::new(false),
            now_us: Cell::new(0),
        }
    }

    /// Says why a run of `serve` that ended by itself ended, if nothing else does, and how much came.
    pub fn say_end(
        &self,
        rt: &impl Eprint,
        ended: &Result<u8, AllocError>,
        unwritten: Option<ErrorKind>,
    ) {
        if !self.serves.get() {
            return;
        }
        match (ended.map(Status::of), unwritten) {
            (Ok(Some(Status::Done)), _) => say(rt, &"all turns were taken"),
            (Ok(Some(Status::SinkFailed)), Some(ErrorKind::BrokenPipe)) => {
                say(rt, &"the reader of the output closed it");
            }
            _ => {}
        }
        let bus = self.from_bus.get();
        let net = self.from_net.get();
        say(
            rt,
            &format_args!("{bus} arrivals from the bus and {net} from the network"),
        );
    }

    /// Counts what came over a link.
    pub(crate) fn count(&self, side: Side) {
        let came = match side {
            Side::Bus => &self.from_bus,
            Side::Net => &self.from_net,
        };
        came.set(came.get().saturating_add(1));
    }
}

impl Default for Shared {
    fn default() -> Self {
        Shared::new()
    }
}
