//! What a gateway and its outbox tell besides the emits, and what a gateway emits at the end of time.
use crate::setup::started;
use gate_core::{Gateway, HeldCounts, Outbox};
use gate_events::{Detail, Emit, Event, Report};
use n2k_id::{Frame, Name};
use std::test::Fail;

/// When a gateway that started 250 ms before may send.
const MOMENT: u64 = 10_250_000;

const END_OF_TIME: u64 = u64::MAX;

/// A frame, as its identifier and its bytes, the first one highest.
type Bits = (u32, u64);

/// The message of the heading 90.0, and the first frame of a position fix, of the device at 23.
const HEADING: Bits = (0x09F1_1217, 0x005C_3DFF_7FFF_7FFC);

const FIX_BEGINS: Bits = (0x0DF8_0517, 0x002B_00DB_4C00_08AF);

/// A request of the device at 23 to send 1785 bytes to the gateway.
const SESSION_BEGINS: Bits = (0x1CEC_FB17, 0x10F9_06FF_FF05_F801);

/// What the gateway says of the heading.
const SAID: &[u8] = b"UdPbC\0\\s:II0001,n:1*01\\$HEHDT,90.0,T*16\r\n";

/// A frame comes, and in the outbox is left what is emitted then, and nothing else.
fn hear(gateway: &mut Gateway, moment: u64, frame: Bits, out: &mut Outbox) {
    out.clear();
    match Frame::of(frame.0, &frame.1.to_be_bytes()) {
        Some(frame) => gateway.step(&Event::Frame { moment, frame }, out),
        None => {}
    }
}

/// The same where time passes.
fn wait(gateway: &mut Gateway, moment: u64, out: &mut Outbox) {
    out.clear();
    gateway.step(&Event::Tick { moment }, out);
}

/// Whether the gateway has its address and may send, and knows who holds the addresses 23 and 25.
fn is_ready(gateway: &Gateway) -> bool {
    gateway.own() == Some(251)
        && gateway.moment() == MOMENT
        && gateway.ready()
        && gateway.holder(23) == Some(Name(0xC078_8C00_FFC0_0005))
        && gateway.holder(25).is_none()
}

/// Whether so many messages of each kind are in the making.
fn holds(gateway: &Gateway, fast: u16, iso: u16, group: u16) -> bool {
    gateway.held() == HeldCounts { fast, iso, group }
}

/// Whether a gateway that hears the request tells so of itself.
fn tells_how_it_stands(gateway: &mut Gateway) -> bool {
    hear(gateway, MOMENT, SESSION_BEGINS, &mut Outbox::new());
    is_ready(gateway) && holds(gateway, 0, 1, 0)
}

#[test]
fn the_gateway_tells_how_it_stands(rt: HostRuntime) -> Result<(), Fail> {
    let mut gateway = started(rt.alloc(), 10_000_000)?;
    let tells = tells_how_it_stands(&mut gateway);
    // by one call, and not part by part
    drop(gateway);
    assert!(rt; tells);
    Ok(())
}

/// Whether the heading is all that the outbox tells.
fn tells_heading(out: &Outbox) -> bool {
    match out.done() {
        Some(done) => done.source == 23 && done.pgn == 127_250 && says_heading(out),
        None => false,
    }
}

fn says_heading(out: &Outbox) -> bool {
    match out.item(0) {
        Some(Emit::Net(_, bytes)) => bytes == SAID && out.len() == 1,
        _ => false,
    }
}

fn is_empty(out: &Outbox) -> bool {
    out.len() == 0 && out.item(0).is_none() && out.done().is_none() && out.command().is_none()
}

/// The report that is all that is emitted, where it is one.
fn reported(out: &Outbox) -> Option<Report> {
    match out.item(0) {
        Some(Emit::Report(report)) if out.len() == 1 => Some(report),
        _ => None,
    }
}

/// Whether a message of many packets from the device is all that was given up.
fn loses_the_fix(out: &Outbox) -> bool {
    match reported(out) {
        Some(report) => {
            report.rule == 16
                && matches!(
                    report.detail,
                    Detail::Source {
                        address: 23,
                        pgn: 129_029
                    }
                )
        }
        None => false,
    }
}

/// Whether a moment that lies before the last one is all that is reported.
fn is_too_early(out: &Outbox) -> bool {
    match reported(out) {
        Some(report) => report.rule == 3 && matches!(report.detail, Detail::Nothing),
        None => false,
    }
}

/// Whether a gateway hears at the end of time, and nothing from before it, and loses what was in the making.
fn hears_at_the_end(gateway: &mut Gateway, out: &mut Outbox) -> bool {
    hear(gateway, END_OF_TIME - 1, HEADING, out);
    let early = is_too_early(out);
    hear(gateway, END_OF_TIME, HEADING, out);
    let heard = tells_heading(out);
    wait(gateway, END_OF_TIME, out);
    early && heard && is_empty(out)
}

/// The moment may go to the end of time and stand still there, but not go back.
fn goes_on(gateway: &mut Gateway) -> bool {
    let mut out = Outbox::new();
    hear(gateway, MOMENT, FIX_BEGINS, &mut out);
    let silent = is_empty(&out);
    wait(gateway, END_OF_TIME, &mut out);
    silent && loses_the_fix(&out) && hears_at_the_end(gateway, &mut out)
}

#[test]
fn a_gateway_goes_on_to_the_end_of_time(rt: HostRuntime) -> Result<(), Fail> {
    let mut gateway = started(rt.alloc(), 10_000_000)?;
    let on = goes_on(&mut gateway);
    drop(gateway);
    assert!(rt; on);
    Ok(())
}
