//! Moments at which a heartbeat is due: one after each whole interval since the start.
ghost use Rattle.std.specs.Prelude.{◌≡◌, ◌≤◌};
ghost use Rattle.heartbeats.specs.Due as definitions;

/// A second, in microseconds.
const SECOND: u64 = 1_000_000;

/// How many heartbeats are due from the start up to a moment, with so many seconds between them.
pub(crate) fn due_by(every_s: u32, start: u64, moment: u64) -> u64
    requires { 1 ≤ every_s }
    ensures { result ≡ definitions.due_by every_s start moment }
{
    moment.saturating_sub(start) / (SECOND * u64::from(every_s))
}

/// The last moment up to this one at which a heartbeat was due.
#[tactic(auto, using(crate::proofs::DueLemmas::whole_intervals))]
pub(crate) fn last_due(every_s: u32, start: u64, moment: u64) -> u64
    requires { 1 ≤ every_s }
    ensures { result ≡ definitions.last_due every_s start moment }
{
    start + SECOND * u64::from(every_s) * due_by(every_s, start, moment)
}
