//! What is promised of lines besides. Each law is a function that does nothing, and whose clause is the law.
ghost use Rattle.capture_text.specs.EventLaws.{EventsAreReadBack, FramesFit, StartsAreTicks};

/// Below 10^16 microseconds the line of an event is read as that event: of a frame with an identifier of 29 bits and at most eight bytes, of
/// a datagram of at most 1500 bytes under any group, and of a tick.
#[tactic(auto, using(crate::proofs::Again::events_are_read_back))]
pub fn events_are_read_back()
    ensures { EventsAreReadBack }
{}

/// The line of a tick is read as that tick with ` start` behind it too.
pub fn starts_are_ticks()
    ensures { StartsAreTicks }
{}

/// A frame that is read has an identifier of 29 bits and at most eight bytes, so that its line is read back.
#[tactic(auto, using(crate::proofs::Again::frames_fit))]
pub fn frames_that_are_read_fit()
    ensures { FramesFit }
{}
