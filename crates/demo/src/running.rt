//! The gateway takes the made-up input.
ghost use Rattle.std.specs.Prelude.{◌≡◌, ◌+◌, ◌*◌, ◌<◌, ◌≤◌, ◌^◌, [], ℕ};
ghost use Rattle.gate_core.specs.Steps.{IsEventValid, by_keys, entry_of};
ghost use Rattle.gate_model.specs.Machine.{opened_machine};
ghost use Rattle.gate_model.specs.Stands.{Stands};
ghost use Rattle.gate_outbox.specs.Output.{most_emits};
ghost use Rattle.history.specs.Gate.{gate};
ghost use Rattle.demo.specs.Demo.{IsOrdered, IsRun, lived};
ghost use Rattle.demo.specs.Input.{events};
ghost use Rattle.demo.specs.Setup.{demo_settings};
ghost use Rattle.demo.specs.Tally.{tally_of, total};

use crate::input::Input;
use crate::tally::Tally;
use gate_core::{Command, Gateway, Outbox};
use gate_events::Event;

/// Lets a new gateway take so many events of the input of this seed, and counts what it emits. The outbox lies in its frame, and not below
/// the making of the gateway.
#[inline(never)]
pub(crate) fn run(gateway: &mut Gateway, seed: u64, count: u32) -> Tally
    requires new { gateway.old ≡ opened_machine demo_settings }
    requires count { count ≤ 1000000 }
    ensures stands { Stands by_keys demo_settings 0 (lived demo_settings 0 [] (events seed count)) gateway.new }
    ensures tally { result ≡ tally_of (gate demo_settings 0 (events seed count)) }
{
    let mut emits = Outbox::new();
    let mut tally = Tally::new();
    gateway.start(0, &mut emits);
    tally.add_all(&emits, 0);
    let mut input = Input::new(seed);
    for _number in 0..count {
        let event = input.next();
        take(gateway, &event, &mut emits, &mut tally);
    }
    tally
}

/// Takes an event, and then the command that it completes.
fn take(gateway: &mut Gateway, event: &Event<'_>, emits: &mut Outbox, tally: &mut Tally)
    requires valid { IsEventValid event.now }
    requires room { total tally.old < 2 ^ 62 }
    ensures run { IsRun (entry_of event.now) gateway.old gateway.new tally.old tally.new }
    ensures few { total tally.new ≤ total tally.old + 2 * most_emits }
{
    emits.clear();
    gateway.step(event, emits);
    tally.add_all(emits, gateway.moment());
    match emits.command() {
        Some(command) => obey(gateway, command.source, command.address, emits, tally),
        None => {}
    }
}

/// Takes a command from this source to go to an address.
fn obey(gateway: &mut Gateway, source: u8, address: u8, emits: &mut Outbox, tally: &mut Tally)
    requires room { total tally.old < 2 ^ 63 }
    ensures ordered { IsOrdered (record { source = source; address = address }) gateway.old gateway.new tally.old tally.new }
    ensures few { total tally.new ≤ total tally.old + most_emits }
{
    emits.clear();
    gateway.command(Command { source, address }, emits);
    tally.add_all(emits, gateway.moment());
}
