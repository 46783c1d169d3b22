//! A gateway over a list of frames, and what it completes of one device.
ghost use Rattle.std.specs.Prelude.{◌≡◌, ◌++◌, All, IfErr, IfOk};
ghost use Rattle.history.specs.AddressLaws.{AreSettings};
ghost use Rattle.gate_core.specs.Steps.{IsEventValid};
ghost use Rattle.gate_core.specs.Steps as steps;
ghost use Rattle.isolation.specs.Runs.{IsCut, IsFrameEvent, IsRunValid, Runs, Turns, entry_of, kept_from};

use gate_core::{Done, Gateway, Outbox};
use gate_events::Event;
use n2k_id::Frame;
use std::alloc::{AllocError, Global};

/// A frame that comes from the bus at a moment in microseconds, or that time passes.
#[derive(Clone, Copy)]
pub struct FrameEvent {
    pub moment: u64,
    /// None is a tick.
    pub frame: Option<Frame>,
}

/// What it is to the gateway.
fn event_of(event: &FrameEvent) -> Event<'static>
    requires { IsFrameEvent event.now }
    ensures entry { steps.entry_of result ≡ entry_of event.now }
    ensures valid { IsEventValid result }
{
    let moment = event.moment;
    match event.frame {
        Some(frame) => Event::Frame { moment, frame },
        None => Event::Tick { moment },
    }
}

/// Steps the gateway once, and gives the message that this completes.
fn turn(gateway: &mut Gateway, outbox: &mut Outbox, event: &FrameEvent) -> Option<Done>
    requires { IsFrameEvent event.now }
    ensures turns { Turns event.now gateway.old gateway.new result }
    ensures settings { AreSettings gateway.old.settings }
{
    outbox.clear();
    gateway.step(&event_of(event), outbox);
    outbox.done()
}

/// Keeps a message that is from the address.
fn keep(told: &mut Vec<Done>, address: u8, done: Option<Done>) -> Result<(), AllocError>
    ensures { IfOk result (λ _. told.new.items ≡ told.old.items ++ kept_from address done) }
{
    match done {
        Some(done) if done.source == address => told.push(done)?,
        _ => {}
    }
    Ok(())
}

/// Steps the gateway through all events, and gives the messages that they complete from the address, in order.
pub(crate) fn run(
    alloc: Global,
    gateway: &mut Gateway,
    address: u8,
    events: &[FrameEvent],
) -> Result<Vec<Done>, AllocError>
    requires { All IsFrameEvent events.now }
    ensures runs { IfOk result (λ told. Runs gateway.old events.now address gateway.new told.items) }
    ensures settings { IfOk result (λ _. IsRunValid gateway.old.settings events.now) }
    ensures cut { IfErr result (λ _. IsCut gateway.old events.now gateway.new) }
{
    let mut outbox = Outbox::new();
    let mut told = Vec::new(alloc);
    for event in events {
        let done = turn(gateway, &mut outbox, event);
        match keep(&mut told, address, done) {
            Ok(()) => {}
            Err(error) => return Err(error),
        }
    }
    Ok(told)
}
