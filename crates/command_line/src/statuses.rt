//! The statuses of the program: what each says of the bytes that were read and written, and of the counts of faults.
ghost use Rattle.std.specs.Prelude.{◌≡◌, Some, IfSome};
ghost use Rattle.command_line.specs.declared.statuses.Status.{Status};
ghost use Rattle.command_line.specs.Statuses.{IsStreamStatus, number, status_of};

use capture_stream::Ending;

/// How a command ended. The program ends with its number; there is no 1, which is what a shell or a crash may end with.
#[derive(Clone, Copy)]
pub enum Status {
    /// The work is done.
    Done = 0,
    /// The words are no command.
    NoCommand = 2,
    /// The configuration is refused.
    Refused = 3,
    /// A write failed.
    SinkFailed = 4,
    /// A read failed.
    SourceFailed = 5,
    /// The configuration's file can't be read.
    Unread = 6,
    /// There was no memory before the first event.
    NoMemory = 7,
    /// The input has more than 2^40 bytes.
    TooLong = 8,
    /// A link can't be attached.
    Unattached = 9,
}

impl Status {
    /// The status as the program ends with it.
    pub fn number(self) -> u8
        ensures number { result ≡ number self }
    {
        self as u8
    }

    /// The status that has this number; none for a number that no status has.
    pub fn of(code: u8) -> Option<Self>
        ensures found { IfSome result (λ status. number status ≡ code) }
        ensures only { (status : Status) → number status ≡ code → result ≡ Some status }
    {
        let status = match code {
            0 => Self::Done,
            2 => Self::NoCommand,
            3 => Self::Refused,
            4 => Self::SinkFailed,
            5 => Self::SourceFailed,
            6 => Self::Unread,
            7 => Self::NoMemory,
            8 => Self::TooLong,
            9 => Self::Unattached,
            _ => return None,
        };
        Some(status)
    }
}

/// The status of a command over the lines of a capture that ended so.
pub fn status_of(ending: Ending) -> Status
    ensures status { result ≡ status_of ending }
    ensures known { IsStreamStatus (number result) }
{
    match ending {
        Ending::Done => Status::Done,
        Ending::SinkFailed => Status::SinkFailed,
        Ending::SourceFailed => Status::SourceFailed,
        Ending::TooLong => Status::TooLong,
    }
}
