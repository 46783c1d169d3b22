//! Why a send or a receive failed.
use std::fmt;
use std::fmt::{Display, Formatter};
use std::io::ErrorKind;

/// What the system said of a call that failed, in words that name what to look at.
#[derive(Clone, Copy)]
pub(crate) struct Why(pub(crate) ErrorKind);

impl Display for Why {
    fn fmt<W: fmt::Write>(&self, f: &mut Formatter<W>) -> fmt::Result {
        match self.0 {
            ErrorKind::NetworkUnreachable => f.write_str("there is no route to it"),
            ErrorKind::HostUnreachable => f.write_str("no machine answers there"),
            ErrorKind::NetworkDown => f.write_str("the interface is down"),
            ErrorKind::PermissionDenied => f.write_str("not permitted, as by a firewall"),
            ErrorKind::InvalidInput => f.write_str(
                "it can't be reached from the address of listen",
            ),
            ErrorKind::WouldBlock => f.write_str("the buffer of the system is full"),
            kind => write!(f, "{kind}"),
        }
    }
}
