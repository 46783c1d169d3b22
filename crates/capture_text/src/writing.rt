ghost use Rattle.std.specs.Prelude.{◌≡◌, ◌+◌, ◌*◌, ◌<◌, ◌≤◌, ◌^◌, [], ◌∷◌, ◌++◌, codes, length, take, false, true, Ok, IfSome};
ghost use Rattle.std.specs.Fmt.{decimal};
ghost use Rattle.arrayvec.specs.ArrayVec.{array_vec_len};
ghost use Rattle.hex.specs.Hex.{encode_upper, IsBytes};
ghost use Rattle.n2k_id.specs.Frame.{IsFrame, bus_frame, held_bytes};
ghost use Rattle.sentence_text.specs.Names.{IsGroup};
ghost use Rattle.unit_fraction.specs.Text.{decimal_text};
ghost use Rattle.capture_text.specs.Capture.{IsLine, longest_line};
ghost use Rattle.capture_text.specs.Lines.{is_one_line};
ghost use Rattle.capture_text.specs.Reading.{read};
ghost use Rattle.capture_text.specs.Writing.{CanRecord, IsToldIn, time_text, detail_text, report_text, said_text, frame_text, datagram_text, event_text, line_text, line_meaning, most_recorded};
ghost use Rattle.gate_events.specs.Emit.{CanWrite};
ghost use Rattle.gate_events.specs.Event.{moment_in, view};

use crate::decimal::{put_number, put_sixteen};
use crate::hexadecimal::put_digits;
use crate::reading::LONGEST_LINE;
use arrayvec::ArrayVec;
use gate_events::{Detail, Emit, Event, Report};
use n2k_id::Frame;
use sentence_text::Group;
use unit_fraction::write_decimal;

type Line = ArrayVec<u8, LONGEST_LINE>;

/// What makes room for digits that are put there.
static ZEROS: [u8; LONGEST_LINE] = [0; LONGEST_LINE];

fn append(piece: &[u8], out: &mut Line)
    requires { array_vec_len out.old + length piece.now ≤ longest_line }
    ensures text { out.new.items ≡ out.old.items ++ piece.now }
    ensures len { array_vec_len out.new ≡ array_vec_len out.old + length piece.now }
{
    let _fits = out.try_extend_from_slice(piece);
}

/// The number in decimal digits.
#[tactic(auto, using(crate::proofs::Numbers::length_decimal, crate::proofs::OneLine::number_in_line))]
fn append_number(number: u64, out: &mut Line)
    requires { array_vec_len out.old ≤ 4000 }
    ensures text { out.new.items ≡ out.old.items ++ decimal number }
    ensures one { is_one_line (decimal number) ≡ true }
    ensures len { array_vec_len out.new ≤ array_vec_len out.old + 20 }
{
    let mut digits = [0; 20];
    let start = put_number(number, &mut digits);
    append(&digits[start..], out);
}

/// Puts the digits of the bytes into the text, from a place to its end.
fn put_from(start: usize, bytes: &[u8], text: &mut [u8])
    requires { length text.old ≡ start + 2 * length bytes.now }
    ensures { text.new ≡ take start text.old ++ encode_upper bytes.now }
{
    put_digits(bytes, &mut text[start..]);
}

fn append_hex(bytes: &[u8], out: &mut Line)
    requires { array_vec_len out.old + 2 * length bytes.now ≤ longest_line }
    ensures text { out.new.items ≡ out.old.items ++ encode_upper bytes.now }
    ensures len { array_vec_len out.new ≡ array_vec_len out.old + 2 * length bytes.now }
    ensures fit { IsBytes bytes.now }
{
    let start = out.len();
    append(&ZEROS[..2 * bytes.len()], out);
    put_from(start, bytes, out.as_mut_slice());
}

/// The time of a line whose seconds have ten digits, as all have from 2001 to 2286, and a space.
fn usual_time(moment: u64) -> [u8; 20]
    requires late { 10 ^ 15 ≤ moment }
    requires early { moment < 10 ^ 16 }
    ensures { result ≡ time_text moment }
{
    let mut digits = [0; 16];
    put_sixteen(moment, &mut digits);
    let mut text = *b"(0000000000.000000) ";
    text[1..11].copy_from_slice(&digits[..10]);
    text[12..18].copy_from_slice(&digits[10..]);
    text
}

/// The number with so many decimals.
#[tactic(auto, using(crate::proofs::Numbers::decimal_len))]
fn append_decimal(number: u64, places: u8, out: &mut Line)
    requires places { places ≤ 6 }
    requires room { array_vec_len out.old ≤ 4000 }
    ensures text { out.new.items ≡ out.old.items ++ decimal_text false number places }
    ensures len { array_vec_len out.new ≤ array_vec_len out.old + 27 }
{
    let mut text = ArrayVec::new();
    write_decimal(false, number, places, &mut text);
    append(text.as_slice(), out);
}

/// The time of a line with any number of seconds, and a space.
fn append_any_time(moment: u64, out: &mut Line)
    requires { out.old.items ≡ [] }
    ensures text { out.new.items ≡ time_text moment }
    ensures len { array_vec_len out.new ≤ 30 }
{
    append(b"(", out);
    append_decimal(moment, 6, out);
    append(b") ", out);
}

/// The time of a line, and a space.
#[inline(always)]
fn append_time(moment: u64, out: &mut Line)
    requires { out.old.items ≡ [] }
    ensures text { out.new.items ≡ time_text moment }
    ensures len { array_vec_len out.new ≤ 30 }
{
    if 1_000_000_000_000_000 <= moment && moment < 10_000_000_000_000_000 {
        append(&usual_time(moment), out);
    } else {
        append_any_time(moment, out);
    }
}

/// A key between a space and `=`, and its number.
#[tactic(auto, using(crate::proofs::OneLine::joined))]
fn append_part(key: &[u8], number: u64, out: &mut Line)
    requires key { length key.now ≤ 7 }
    requires room { array_vec_len out.old ≤ 3000 }
    ensures text { out.new.items ≡ out.old.items ++ (key.now ++ decimal number) }
    ensures one { is_one_line key.now ≡ true → is_one_line (key.now ++ decimal number) ≡ true }
    ensures len { array_vec_len out.new ≤ array_vec_len out.old + 40 }
{
    append(key, out);
    append_number(number, out);
}

/// Two keys with their numbers.
#[tactic(auto, using(crate::proofs::OneLine::joined))]
fn append_parts(key: &[u8], number: u64, next: &[u8], other: u64, out: &mut Line)
    requires key { length key.now ≤ 7 }
    requires next { length next.now ≤ 7 }
    requires room { array_vec_len out.old ≤ 2000 }
    ensures text { out.new.items ≡ out.old.items ++ ((key.now ++ decimal number) ++ (next.now ++ decimal other)) }
    ensures one { is_one_line key.now ≡ true → is_one_line next.now ≡ true
        → is_one_line ((key.now ++ decimal number) ++ (next.now ++ decimal other)) ≡ true }
{
    append_part(key, number, out);
    append_part(next, other, out);
}

/// A key with its name, and one with its number.
#[tactic(auto, using(crate::proofs::OneLine::joined))]
fn append_named(key: &[u8], name: &[u8], next: &[u8], number: u64, out: &mut Line)
    requires key { length key.now ≤ 7 }
    requires name { length name.now ≤ 100 }
    requires next { length next.now ≤ 7 }
    requires room { array_vec_len out.old ≤ 2000 }
    ensures text { out.new.items ≡ out.old.items ++ (key.now ++ (name.now ++ (next.now ++ decimal number))) }
    ensures one { is_one_line key.now ≡ true → is_one_line name.now ≡ true → is_one_line next.now ≡ true
        → is_one_line (key.now ++ (name.now ++ (next.now ++ decimal number))) ≡ true }
{
    append(key, out);
    append(name, out);
    append_part(next, number, out);
}

/// A row's name, and whether the row is said.
#[tactic(auto, using(crate::proofs::OneLine::joined))]
fn append_row(name: &[u8], said: bool, out: &mut Line)
    requires name { length name.now ≤ 100 }
    requires room { array_vec_len out.old ≤ 2000 }
    ensures text { out.new.items ≡ out.old.items ++ (codes " row=" ++ (name.now ++ said_text said)) }
    ensures one { is_one_line name.now ≡ true → is_one_line (codes " row=" ++ (name.now ++ said_text said)) ≡ true }
{
    append(b" row=", out);
    append(name, out);
    append(said_text(said), out);
}

fn said_text(said: bool) -> &'static [u8]
    ensures text { result.now ≡ said_text said }
    ensures one { is_one_line (said_text said) ≡ true }
    ensures short { length result.now ≤ 9 }
{
    if said { b" said=yes" } else { b" said=no" }
}

fn append_detail(detail: &Detail, out: &mut Line)
    requires { array_vec_len out.old ≤ 2000 }
    ensures text { out.new.items ≡ out.old.items ++ detail_text detail.now }
    ensures one { is_one_line (detail_text detail.now) ≡ true }
{
    match detail {
        Detail::Nothing => {}
        Detail::Source { address, pgn } => append_parts(
            b" src=",
            u64::from(*address),
            b" pgn=",
            u64::from(*pgn),
            out,
        ),
        Detail::Address(address) => append_part(b" addr=", u64::from(*address), out),
        Detail::Own { address: None } => append(b" own=none", out),
        Detail::Own {
            address: Some(address),
        } => append_part(b" own=", u64::from(*address), out),
        Detail::Row { row, address } => append_named(
            b" row=",
            row.name().as_bytes(),
            b" src=",
            u64::from(*address),
            out,
        ),
        Detail::Watched { row, said } => append_row(row.name().as_bytes(), *said, out),
        Detail::At(at) => append_part(b" at=", u64::from(*at), out),
        Detail::AtField { at, field } => append_parts(
            b" at=",
            u64::from(*at),
            b" field=",
            u64::from(*field),
            out,
        ),
        Detail::GroupKey { sfi, code } => append_named(
            b" sfi=",
            sfi.as_bytes(),
            b" group=",
            u64::from(*code),
            out,
        ),
        Detail::Line(line) => append_part(b" line=", *line, out),
        Detail::Bus => append(b" link=bus", out),
        Detail::Net => append(b" link=net", out),
    }
}

#[tactic(auto, using(crate::proofs::OneLine::report_in_line))]
fn append_report(report: &Report, out: &mut Line)
    requires { array_vec_len out.old ≤ 1000 }
    ensures text { out.new.items ≡ out.old.items ++ report_text report.now }
    ensures one { is_one_line (report_text report.now) ≡ true }
{
    append(b"rule ", out);
    append_number(u64::from(report.rule), out);
    append_detail(&report.detail, out);
}

/// The digits of an identifier that has these bytes.
///
/// It is kept apart, as `put_eight` is, and the bytes come by way of memory: in registers the compiler would take them one by one.
#[inline(never)]
fn identifier_digits(identifier: &[u8; 4]) -> [u8; 8]
    ensures { result ≡ encode_upper identifier.now }
{
    let mut digits = [0; 8];
    put_digits(identifier, &mut digits);
    digits
}

/// What comes before the data of a frame whose identifier has these bytes.
fn frame_head(identifier: &[u8; 4]) -> [u8; 14]
    ensures { result ≡ codes "can0 " ++ (encode_upper identifier.now ++ 35 ∷ []) }
{
    let mut head = *b"can0 00000000#";
    head[5..13].copy_from_slice(&identifier_digits(identifier));
    head
}

/// The digits of the data of a frame, which are the first of these bytes. Digits of all eight are made, so that the compiler makes them at
/// once.
fn append_data(held: &[u8], bytes: &[u8; 8], out: &mut Line)
    requires front { held.now ≡ take (length held.now) bytes.now }
    requires few { length held.now ≤ 8 }
    requires room { array_vec_len out.old ≤ 2000 }
    ensures text { out.new.items ≡ out.old.items ++ encode_upper held.now }
    ensures len { array_vec_len out.new ≡ array_vec_len out.old + 2 * length held.now }
    ensures fit { IsBytes held.now }
{
    let mut digits = [0; 16];
    put_digits(bytes, &mut digits);
    append(&digits[..2 * held.len()], out);
}

#[inline(always)]
fn append_frame(frame: &Frame, out: &mut Line)
    requires valid { IsFrame frame.now }
    requires room { array_vec_len out.old ≤ 1000 }
    ensures text { out.new.items ≡ out.old.items ++ frame_text (bus_frame frame.now) }
    ensures len { array_vec_len out.new ≤ array_vec_len out.old + 30 }
    ensures fit { IsBytes (held_bytes frame.now) }
{
    append(&frame_head(&frame.id.to_be_bytes()), out);
    append_data(frame.held(), &frame.bytes, out);
}

/// What comes before the bytes of a datagram.
fn datagram_head(group: &Group) -> [u8; 10]
    ensures text { result ≡ codes "udp0 " ++ (group.now ++ 35 ∷ []) }
    ensures fit { IsGroup group.now }
{
    let mut head = *b"udp0 0000#";
    head[5..9].copy_from_slice(group.as_bytes());
    head
}

fn append_datagram(group: &Group, bytes: &[u8], out: &mut Line)
    requires few { length bytes.now ≤ most_recorded }
    requires room { array_vec_len out.old ≤ 1000 }
    ensures text { out.new.items ≡ out.old.items ++ datagram_text group.now bytes.now }
    ensures len { array_vec_len out.new ≤ array_vec_len out.old + 3010 }
    ensures fit { IsGroup group.now × IsBytes bytes.now }
{
    append(&datagram_head(group), out);
    append_hex(bytes, out);
}

/// Leaves the line of an emit at a moment in microseconds, without a line end.
pub fn write_emit(emit: &Emit<'_>, moment: u64, out: &mut ArrayVec<u8, LONGEST_LINE>)
    requires empty { out.old.items ≡ [] }
    requires can { CanWrite emit.now }
    ensures text { out.new.items ≡ line_text emit.now moment }
    // Nothing in it ends the line before its end, and a report is told by its second word.
    ensures one { is_one_line out.new.items ≡ true }
    ensures report { IsToldIn emit.now out.new.items }
    // Below 10^16 microseconds the line of a frame or of a datagram is read back.
    ensures again { moment < 10 ^ 16 → IfSome (line_meaning emit.now moment) (λ event. IsLine event out.new.items × (read out.new.items ≡ Ok event)) }
{
    append_time(moment, out);
    match emit {
        Emit::Can(frame) => append_frame(frame, out),
        Emit::Net(group, bytes) => append_datagram(group, bytes, out),
        Emit::Report(report) => append_report(report, out),
    }
}

/// Leaves the line of an event, without a line end: a frame stands on `can0`, a datagram on `udp0` under the group.
pub fn write_event(event: &Event<'_>, group: Group, out: &mut ArrayVec<u8, LONGEST_LINE>)
    requires empty { out.old.items ≡ [] }
    requires can { CanRecord event.now }
    ensures text { out.new.items ≡ event_text group (view event.now) }
    // It is far from the most bytes that a line may have.
    ensures few { length out.new.items ≤ 3040 }
    // Below 10^16 microseconds it is read back.
    ensures again { moment_in (view event.now) < 10 ^ 16 → IsLine (view event.now) out.new.items × (read out.new.items ≡ Ok (view event.now)) }
{
    append_time(event.moment(), out);
    match event {
        Event::Frame { frame, .. } => append_frame(frame, out),
        Event::Datagram { bytes, .. } => append_datagram(&group, bytes, out),
        Event::Tick { .. } => append(b"tick", out),
    }
}
