//! The gateway over a capture: what it would have sent and reported, line by line.
ghost use Rattle.std.specs.Prelude.{◌≡◌, ◌≢◌};
ghost use Rattle.gate_outside.specs.Faults.{Rose};
ghost use Rattle.settings.specs.Settings.{IsSettings};
ghost use Rattle.settings.specs.Setup.{IsSetup, alone};
ghost use Rattle.serving.specs.BridgeStands.{IsNew};
ghost use Rattle.serving.specs.BridgeSettings.{BridgeSettings, bridge_settings_of};
ghost use Rattle.replaying.specs.Replayed.{IsReplay};
ghost use Rattle.gateway_commands.specs.ReplayCommand.{RunsBy};
ghost use Rattle.command_line.specs.Statuses.{EndsBy, IsReplayStatus, IsStreamStatus, IsUnhindered, SteadyBy, number};

use command_line::{Status, status_of};
use gate_outside::{Sink, Source};
use replaying::replay_capture;
use serving::{Bridge, Settings, Setup};
use std::alloc::Global;

/// Runs a new bridge over a capture, whose first event starts it, and answers a status.
///
/// | Status | Where |
/// |---|---|
/// | 0 | the input was read to its end, and all that the bridge emits and reports was written |
/// | 4 | only where the sink's faults rose; what was written is some front of the text |
/// | 5 | only where the source's faults rose; the text of the complete lines was written |
/// | 8 | exactly where more than 2^40 bytes were read, and no call failed before |
///
/// Of 4, 5 and 8 the first call that fails decides: with 0 and 8 no call failed, with 4 no read did, and with 5 no write.
pub fn stream<S: Source, K: Sink>(bridge: &mut Bridge, input: &mut S, out: &mut K) -> u8
    ensures status { IsStreamStatus result }
    ensures ends { (p : BridgeSettings) → IsNew p bridge.old
        → EndsBy (IsReplay p) (S.left input.old) (S.left input.new) (K.taken out.old) (K.taken out.new) result }
    ensures sink_cause { result ≡ 4 → Rose (K.fault_count out.old) (K.fault_count out.new) }
    ensures source_cause { result ≡ 5 → Rose (S.fault_count input.old) (S.fault_count input.new) }
    ensures steady { SteadyBy (S.fault_count input.old) (S.fault_count input.new) (K.fault_count out.old) (K.fault_count out.new) result }
    ensures complete { (p : BridgeSettings) → IsNew p bridge.old
        → IsUnhindered (S.left input.old) (S.fault_count input.old) (S.fault_count input.new) (K.fault_count out.old) (K.fault_count out.new)
        → result ≡ 0 }
{
    answer(bridge, input, out).number()
}

/// [`stream`], with the status whose number that answers. The rooms for lines lie in its frame, and not below the making of a bridge.
#[inline(never)]
fn answer<S: Source, K: Sink>(bridge: &mut Bridge, input: &mut S, out: &mut K) -> Status
    ensures status { IsStreamStatus (number result) }
    ensures ends { (p : BridgeSettings) → IsNew p bridge.old
        → EndsBy (IsReplay p) (S.left input.old) (S.left input.new) (K.taken out.old) (K.taken out.new) (number result) }
    ensures sink_cause { number result ≡ 4 → Rose (K.fault_count out.old) (K.fault_count out.new) }
    ensures source_cause { number result ≡ 5 → Rose (S.fault_count input.old) (S.fault_count input.new) }
    ensures steady { SteadyBy (S.fault_count input.old) (S.fault_count input.new) (K.fault_count out.old) (K.fault_count out.new) (number result) }
    ensures complete { (p : BridgeSettings) → IsNew p bridge.old
        → IsUnhindered (S.left input.old) (S.fault_count input.old) (S.fault_count input.new) (K.fault_count out.old) (K.fault_count out.new)
        → number result ≡ 0 }
{
    status_of(replay_capture(bridge, input, out))
}

/// Runs a gateway of these settings, with the parts beside it, over a capture, and answers a status.
///
/// | Status | Where |
/// |---|---|
/// | 0, 4, 5, 8 | as [`stream`] answers |
/// | 7 | only for want of memory before the first byte was read |
pub fn replay_with<S: Source, K: Sink>(
    alloc: Global,
    settings: &Settings,
    input: &mut S,
    out: &mut K,
) -> u8
    requires { IsSettings settings.now }
    ensures status { IsReplayStatus result }
    ensures ends { EndsBy (IsReplay (bridge_settings_of (alone settings.now))) (S.left input.old) (S.left input.new) (K.taken out.old) (K.taken out.new) result }
    ensures memory { result ≡ 7 → (input.new ≡ input.old) × (out.new ≡ out.old) }
    ensures sink_cause { result ≡ 4 → Rose (K.fault_count out.old) (K.fault_count out.new) }
    ensures source_cause { result ≡ 5 → Rose (S.fault_count input.old) (S.fault_count input.new) }
    ensures steady { SteadyBy (S.fault_count input.old) (S.fault_count input.new) (K.fault_count out.old) (K.fault_count out.new) result }
    ensures complete { result ≢ 7
        → IsUnhindered (S.left input.old) (S.fault_count input.old) (S.fault_count input.new) (K.fault_count out.old) (K.fault_count out.new)
        → result ≡ 0 }
{
    match Setup::alone(settings) {
        Ok(setup) => replay_setup(alloc, &setup, input, out).number(),
        Err(_) => Status::NoMemory.number(),
    }
}

/// Runs a gateway of all that a file configures over a capture. Answers the status whose number [`replay_with`] answers.
#[inline(never)]
pub(crate) fn replay_setup<S: Source, K: Sink>(
    alloc: Global,
    setup: &Setup,
    input: &mut S,
    out: &mut K,
) -> Status
    requires { IsSetup setup.now }
    ensures runs { RunsBy setup.now (S.left input.old) (S.left input.new) (S.fault_count input.old) (S.fault_count input.new)
        (K.taken out.old) (K.taken out.new) (K.fault_count out.old) (K.fault_count out.new) (number result) }
    ensures memory { number result ≡ 7 → (input.new ≡ input.old) × (out.new ≡ out.old) }
{
    match Bridge::with(alloc, setup) {
        Ok(mut bridge) => {
            let status = answer(&mut bridge, input, out);
            bridge.close();
            status
        }
        Err(_) => Status::NoMemory,
    }
}
