//! The rules that a report can name, by their numbers.
//!
//! A report says which rule a piece of the input broke. The numbers are shipgate's own, and they stand in its output: what
//! causes each and what to do about it is in `docs/reports.md`. Rules 1 to 5 speak of captures and events, 9 to 29 of the
//! bus, 30 to 47 of datagrams, 50 and 51 of the two links.
#![tactic(auto)]

mod laws;

pub use laws::numbers_are_the_table;

/// A line of a capture has none of the forms of a capture.
pub const CAPTURE_FORM: u8 = 1;

/// A line of a capture has more bytes than a line may have.
pub const LINE_LONG: u8 = 2;

/// An event is earlier than one that came before it.
pub const MOMENT_BACK: u8 = 3;

/// A frame of a capture is no data frame with a 29-bit identifier.
pub const NOT_EXTENDED: u8 = 4;

/// A line of a capture says something that has no sentence.
pub const NOT_CONVERTED: u8 = 5;

/// The gateway's own address is another one, or it has none any more.
pub const OWN_ADDRESS: u8 = 9;

/// A frame came from an address that no device has claimed.
pub const UNCLAIMED: u8 = 10;

/// A frame of a fast packet isn't the next one of what is open.
pub const FAST_ORDER: u8 = 11;

/// A later frame of a fast packet has no open one that it could go on with.
pub const FAST_ORPHAN: u8 = 12;

/// A frame of a fast packet announces no length that can be, or is shorter than it owes.
pub const FAST_LENGTH: u8 = 13;

/// A message began again before the one that was open had ended.
pub const RESTARTED: u8 = 14;

/// A message began while as many were open as there is room for.
pub const SLOTS_FULL: u8 = 15;

/// A message wasn't gone on with in time.
pub const EXPIRED: u8 = 16;

/// A message was open of an address that changed hands.
pub const CLAIM_LOST: u8 = 17;

/// A frame of the transport protocol announces what can't be, or is shorter than it owes.
pub const ISO_SIZE: u8 = 18;

/// A data packet isn't the next one of its session.
pub const ISO_ORDER: u8 = 19;

/// A data packet belongs to no open session.
pub const ISO_ORPHAN: u8 = 20;

/// The sender gave up an open session.
pub const ISO_ABORTED: u8 = 21;

/// A message has fewer bytes than the least that its PGN needs.
pub const SHORT_MESSAGE: u8 = 22;

/// Another device claims an address by the gateway's own NAME.
pub const DUPLICATE_NAME: u8 = 23;

/// A frame came from the gateway's own address.
pub const OWN_ADDRESS_USED: u8 = 24;

/// A claim has no NAME or no address that can be claimed, or a request doesn't say for what.
pub const CLAIM_OR_REQUEST_MALFORMED: u8 = 25;

/// A command to go to an address can't be obeyed.
pub const COMMAND_NOT_OBEYED: u8 = 26;

/// A report of a ship around says what can't be passed on.
pub const AIS_REPORT_OUTSIDE: u8 = 27;

/// A row is taken from another device than before.
pub const SOURCE_CHANGED: u8 = 28;

/// A row that has to be said isn't said, or is said again.
pub const ROW_WATCHED: u8 = 29;

/// A datagram doesn't begin with its header.
pub const DATAGRAM_HEADER: u8 = 30;

/// What follows the last line of a datagram is no line.
pub const LINE_FORM: u8 = 31;

/// A TAG block isn't of its form.
pub const TAG_FORM: u8 = 32;

/// A TAG block has another sum than its bytes.
pub const TAG_SUM: u8 = 33;

/// A line doesn't name its source.
pub const NO_SOURCE: u8 = 34;

/// A sentence isn't of its form.
pub const SENTENCE_FORM: u8 = 35;

/// A sentence has another sum than its bytes.
pub const SENTENCE_SUM: u8 = 36;

/// A line comes from a source that isn't listed.
pub const UNLISTED_SOURCE: u8 = 37;

/// A line comes from the gateway itself.
pub const OWN_LINE: u8 = 38;

/// A line is for another than the gateway.
pub const OTHER_DESTINATION: u8 = 39;

/// A line isn't the next one of its group of lines.
pub const GROUP_ORDER: u8 = 40;

/// A group of lines began while as many were open as there is room for.
pub const GROUP_SLOTS_FULL: u8 = 41;

/// A group of lines wasn't gone on with in time.
pub const GROUP_EXPIRED: u8 = 42;

/// A field of a sentence isn't of its form.
pub const FIELD_FORM: u8 = 43;

/// A field of a sentence is out of its range.
pub const FIELD_RANGE: u8 = 44;

/// The gateway can't act yet, since its claim of an address is too young or lost.
pub const NOT_READY: u8 = 45;

/// A datagram has more lines than a datagram may have.
pub const TOO_MANY_LINES: u8 = 46;

/// A datagram has more bytes than a datagram may have.
pub const DATAGRAM_LONG: u8 = 47;

/// A frame or a datagram couldn't be sent.
pub const SEND_FAILED: u8 = 50;

/// What came over a link couldn't be received.
pub const RECEIVE_FAILED: u8 = 51;
