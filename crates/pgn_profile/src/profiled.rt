use readings::Reading;

/// What a message's payload says.
#[derive(Clone, Copy)]
pub enum Profiled {
    /// A reading of the profile, with each value in its range.
    Reading(Reading),
    /// The PGN, or the selector in the payload, is in no row of the profile.
    Outside,
    /// The payload is shorter than the PGN's least length.
    Short,
}
