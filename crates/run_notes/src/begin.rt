//! What is said as a run of `serve` begins.
use crate::line::say;
use crate::processor::processor;
use crate::shared::{Shared, Side};
use crate::words::VERSION;
use network_routes::Routes;
use std::fmt::{Display, Formatter};
use std::fs::Files;
use std::{fmt, str};

// A text of a configuration.
fn text(bytes: &[u8]) -> &str {
    str::from_utf8(bytes).unwrap_or("")
}

/// Where a link sends.
#[derive(Clone, Copy)]
struct Destinations<'a> {
    routes: &'a Routes,
}

impl Display for Destinations<'_> {
    fn fmt<W: fmt::Write>(&self, f: &mut Formatter<W>) -> fmt::Result {
        write!(f, "sends to {}", text(self.routes.other.as_slice()))?;
        for route in self.routes.list.as_slice() {
            let group = text(route.group.as_bytes());
            let address = text(route.address.as_slice());
            write!(f, ", {group} to {address}")?;
        }
        Ok(())
    }
}

/// Which program runs, and by which configuration.
fn say_program<R: Eprint + Files>(rt: &R, shared: &Shared) {
    let _ = match processor(rt) {
        Some(processor) => eprintln!(rt; "{VERSION}, for {processor}"),
        None => eprintln!(rt; "{VERSION}"),
    };
    let config = shared.config.take();
    if let Some(name) = &config {
        say(rt, &format_args!("serves by {name}"));
    }
    shared.config.set(config);
}

/// Where a link listens and sends. The bus is attached first, so the program is named before it.
pub(crate) fn say_attached<R: Eprint + Files>(
    rt: &R,
    side: Side,
    listen: &[u8],
    routes: &Routes,
    shared: &Shared,
) {
    match side {
        Side::Bus => say_program(rt, shared),
        Side::Net => shared.serves.set(true),
    }
    let name = side.name();
    let listen = text(listen);
    let destinations = Destinations { routes };
    say(
        rt,
        &format_args!("{name}: listens at {listen}, {destinations}"),
    );
}
