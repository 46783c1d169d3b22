//! What is said of one link while it is used.
use crate::line::say;
use crate::pace::Pace;
use crate::sends::Sends;
use crate::shared::{FRONT_BYTES, Front, Shared, Side};
use crate::trouble::Trouble;
use crate::why::Why;
use gate_outside::LARGEST_ARRIVAL;
use live_outside::Failure;
use std::net::SocketAddrV4;

/// What was said of a link, and what is to be said of it next.
#[derive(Drop)]
pub(crate) struct LinkNotes<'a, R> {
    rt: &'a R,
    side: Side,
    shared: &'a Shared,
    sends: Sends,
    receives: Trouble,
    receive_pace: Pace,
}

// The first bytes of an arrival.
fn front_of(buf: &[u8; LARGEST_ARRIVAL], count: usize) -> Front {
    let mut bytes = [0; FRONT_BYTES];
    bytes.copy_from_slice(&buf[..FRONT_BYTES]);
    Front {
        bytes,
        count: count.min(FRONT_BYTES),
    }
}

impl<'a, R: Eprint> LinkNotes<'a, R> {
    /// Of a link that nothing was said of.
    pub(crate) fn new(rt: &'a R, side: Side, shared: &'a Shared) -> Self {
        LinkNotes {
            rt,
            side,
            shared,
            sends: Sends::new(),
            receives: Trouble::default(),
            receive_pace: Pace::default(),
        }
    }

    /// Something came: so many bytes at the front of the buffer. Of a datagram of the network its front is kept.
    pub(crate) fn arrived(&mut self, buf: &[u8; LARGEST_ARRIVAL], count: usize) {
        self.shared.count(self.side);
        if matches!(self.side, Side::Net) {
            self.shared.last_datagram.set(front_of(buf, count));
        }
        self.received();
    }

    /// A receive succeeded.
    pub(crate) fn received(&mut self) {
        if !self.receives.is_there() {
            return;
        }
        if let Some(failures) = self
            .receives
            .ends(&mut self.receive_pace, self.shared.now_us.get())
        {
            let name = self.side.name();
            let end = self.receive_pace.end_of_line();
            say(
                self.rt,
                &format_args!("{name}: receives again, after {failures} failures{end}"),
            );
        }
    }

    /// A receive failed.
    pub(crate) fn receive_failed(&mut self, failure: Option<Failure>) {
        let said = self
            .receives
            .fails(&mut self.receive_pace, self.shared.now_us.get());
        if let (true, Some(failure)) = (said, failure) {
            let name = self.side.name();
            let why = Why(failure.kind);
            let end = self.receive_pace.end_of_line();
            say(
                self.rt,
                &format_args!("{name}: nothing can be received: {why}{end}"),
            );
        }
    }

    /// Whether the end of a failed send may have to be said.
    pub(crate) fn awaits_a_send(&self) -> bool {
        self.sends.is_any_failing()
    }

    /// A send to an address succeeded.
    pub(crate) fn sent(&mut self, to: SocketAddrV4) {
        if let Some(failures) = self.sends.ends(to, self.shared.now_us.get()) {
            let name = self.side.name();
            let end = self.sends.end_of_line();
            say(
                self.rt,
                &format_args!("{name}: sends to {to} again, after {failures} failures{end}"),
            );
        }
    }

    /// A send failed.
    pub(crate) fn send_failed(&mut self, failure: Option<Failure>) {
        if let Some(Failure { to: Some(to), kind }) = failure {
            if self.sends.fails(to, self.shared.now_us.get()) {
                let name = self.side.name();
                let why = Why(kind);
                let end = self.sends.end_of_line();
                say(
                    self.rt,
                    &format_args!("{name}: can't send to {to}: {why}{end}"),
                );
            }
        }
    }
}
