//! Which link couldn't be attached, and why.
use crate::failed_run::Kept;
use crate::line::say;
use crate::reasons::link_reason;
use live_outside::Unattached;
use std::str;

/// Which link couldn't be attached. The network is tried once the bus is attached.
pub(crate) fn explain_links(rt: &impl Eprint, kept: &Kept<'_>) {
    match (kept.bus, kept.net) {
        (Some(why), _) => explain_link(rt, "bus.listen", why),
        (None, Some(why)) => explain_link(rt, "net.listen", why),
        (None, None) => {}
    }
}

// Why a link couldn't be attached.
fn explain_link(rt: &impl Eprint, key: &str, why: &Unattached) {
    let listen = str::from_utf8(why.listen.as_slice()).unwrap_or("");
    let reason = link_reason(why.kind);
    say(rt, &format_args!("{key} {listen}{reason}"));
}
