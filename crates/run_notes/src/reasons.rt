//! The words for why a run didn't do its work.
ghost use Rattle.std.specs.Prelude.{◌≡◌, option_map};
ghost use Rattle.run_notes.specs.Reasons.{file_reason, link_reason, reason_of, said_of, told, write_reason};

use command_line::Status;
use std::fmt;
use std::fmt::{Display, Formatter};
use std::io::ErrorKind;

/// Why a run ended with a status that needs no more to be said.
pub(crate) fn reason_of(status: Status) -> Option<&'static str>
    ensures { option_map (λ text. text.now) result ≡ reason_of status }
{
    match status {
        Status::Refused => Some("the configuration is refused"),
        Status::SourceFailed => Some("the input can't be read"),
        Status::NoMemory => Some("there is no memory for the configuration or the gateway"),
        Status::TooLong => Some("the input has more than 2^40 bytes"),
        Status::Done
        | Status::NoCommand
        | Status::SinkFailed
        | Status::Unread
        | Status::Unattached => None,
    }
}

/// Why something failed, as it stands behind its name.
#[derive(Clone, Copy)]
pub(crate) struct Reason {
    pub(crate) words: &'static str,
    /// How std calls it, where the words don't tell.
    pub(crate) kind: Option<ErrorKind>,
}

impl Reason {
    /// These words tell all.
    fn told(words: &'static str) -> Reason
        ensures { said_of result ≡ told words.now }
    {
        Reason { words, kind: None }
    }
}

impl Display for Reason {
    fn fmt<W: fmt::Write>(&self, f: &mut Formatter<W>) -> fmt::Result {
        f.write_str(self.words)?;
        match self.kind {
            Some(kind) => write!(f, ": {kind}"),
            None => Ok(()),
        }
    }
}

/// Why the output wasn't written. None for a closed pipe, by which its reader says that it has enough.
pub(crate) fn write_reason(unwritten: Option<ErrorKind>) -> Option<Reason>
    ensures { option_map said_of result ≡ write_reason unwritten }
{
    match unwritten {
        Some(ErrorKind::BrokenPipe) => None,
        kind => Some(Reason {
            words: " can't be written",
            kind,
        }),
    }
}

/// What is wrong with a configuration's file.
pub(crate) fn file_reason(unread: Option<ErrorKind>) -> Reason
    ensures { said_of result ≡ file_reason unread }
{
    match unread {
        Some(ErrorKind::NotFound) => Reason::told(" isn't there"),
        Some(ErrorKind::IsADirectory) => Reason::told(" is a folder"),
        Some(ErrorKind::FileTooLarge) => Reason::told(" has more than 1 MiB"),
        kind => Reason {
            words: " can't be read",
            kind,
        },
    }
}

/// Why a link couldn't be attached where it was to listen.
pub(crate) fn link_reason(unattached: ErrorKind) -> Reason
    ensures { said_of result ≡ link_reason unattached }
{
    match unattached {
        ErrorKind::AddrInUse => Reason::told(": a program listens there already"),
        ErrorKind::AddrNotAvailable => Reason::told(": this machine has no such address"),
        kind => Reason {
            words: "",
            kind: Some(kind),
        },
    }
}
