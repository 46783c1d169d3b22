use arrayvec::ArrayVec;
use capture_text::{Detail, Emit, Event, LineRule, MOST_BYTES, Report, read_line, write_emit};
use n2k_id::Frame;
use readings::Row;
use sentence_text::{Group, Sfi};

/// Lines that say a frame: its moment, its identifier and its bytes.
const FRAMES: [(&[u8], u64, u32, &[u8]); 4] = [
    (
        b"(1700000000.000000) can0 09F11217#005C3DFF7FFF7FFC",
        1_700_000_000_000_000,
        0x09F1_1217,
        &[0x00, 0x5C, 0x3D, 0xFF, 0x7F, 0xFF, 0x7F, 0xFC],
    ),
    (b"(0.000001) vcan0 1fffffff#", 1, 0x1FFF_FFFF, b""),
    (
        b"(9999999999.999999) tick0 00000000#aB and more",
        9_999_999_999_999_999,
        0,
        b"\xAB",
    ),
    (
        b"(001.000000) abcdefghijklmnop 12345678#00 ",
        1_000_000,
        0x1234_5678,
        b"\0",
    ),
];

/// Whether a line says this frame.
fn says_frame(line: &[u8], at: u64, id: u32, held: &[u8]) -> bool {
    match read_line(line, &mut [0; MOST_BYTES]) {
        Ok(Event::Frame { moment, frame }) => moment == at && Frame::of(id, held) == Some(frame),
        _ => false,
    }
}

#[test]
fn lines_say_frames(rt: HostRuntime) {
    for (line, moment, id, held) in &FRAMES {
        assert!(rt; says_frame(line, *moment, *id, held));
    }
}

/// Lines that say a datagram at the first second, and its bytes.
const DATAGRAMS: [(&[u8], &[u8]); 4] = [
    (b"(1.000000) udp0 NAVD#5564506243", b"UdPbC"),
    (b"(1.000000) udp0 4X0Z#", b""),
    (b"(1.000000) udp0 NAVD#0d0A and more", b"\r\n"),
    // Bytes that are read eight at a time, and three behind them.
    (
        b"(1.000000) udp0 NAVD#000102030405060708090a0B0c0D0e0F5C3D7F",
        b"\x00\x01\x02\x03\x04\x05\x06\x07\x08\x09\x0A\x0B\x0C\x0D\x0E\x0F\x5C\x3D\x7F",
    ),
];

/// Whether a line says this datagram.
fn says_datagram(line: &[u8], at: u64, held: &[u8]) -> bool {
    match read_line(line, &mut [0; MOST_BYTES]) {
        Ok(Event::Datagram { moment, bytes }) => moment == at && bytes == held,
        _ => false,
    }
}

#[test]
fn lines_say_datagrams(rt: HostRuntime) {
    for (line, held) in &DATAGRAMS {
        assert!(rt; says_datagram(line, 1_000_000, held));
    }
}

/// Whether a line says that time passes, at the first second.
fn is_tick(line: &[u8]) -> bool {
    match read_line(line, &mut [0; MOST_BYTES]) {
        Ok(Event::Tick { moment }) => moment == 1_000_000,
        _ => false,
    }
}

#[test]
fn lines_say_ticks(rt: HostRuntime) {
    assert!(rt; is_tick(b"(1.000000) tick"));
    assert!(rt; is_tick(b"(1.000000) tick and more"));
}

#[test]
fn a_line_without_a_byte_says_nothing(rt: HostRuntime) {
    assert!(rt; read_line(b"", &mut [0; MOST_BYTES]).err() == Some(LineRule::Form));
}

/// Whether the datagram is written as this line.
fn is_sent(group: Group, moment: u64, line: &[u8]) -> bool {
    let mut out = ArrayVec::new();
    write_emit(&Emit::Net(group, b"UdPbC\0\x5C"), moment, &mut out);
    out.as_slice() == line
}

#[test]
fn a_datagram_is_written_as_a_line(rt: HostRuntime) {
    let group = Group::of(b"NAVD").unwrap_or_default();
    assert!(rt;
        is_sent(
            group,
            1_700_000_000_000_000,
            b"(1700000000.000000) udp0 NAVD#5564506243005C"
        )
    );
}

/// The rule and the detail of a report, its moment, and its line.
const REPORTS: [(u8, Detail, u64, &[u8]); 17] = [
    (3, Detail::Nothing, 5_000_000, b"(5.000000) rule 3"),
    (
        10,
        Detail::Source {
            address: 23,
            pgn: 127_250,
        },
        1,
        b"(0.000001) rule 10 src=23 pgn=127250",
    ),
    (
        9,
        Detail::Own { address: Some(0) },
        10_300_000,
        b"(10.300000) rule 9 own=0",
    ),
    (
        9,
        Detail::Own { address: None },
        10_300_000,
        b"(10.300000) rule 9 own=none",
    ),
    (23, Detail::Address(251), 0, b"(0.000000) rule 23 addr=251"),
    (
        28,
        Detail::Row {
            row: Row::HeadingTrue,
            address: 23,
        },
        100_000_000,
        b"(100.000000) rule 28 row=heading_true src=23",
    ),
    (
        29,
        Detail::Watched {
            row: Row::HeadingTrue,
            said: false,
        },
        3_000_001,
        b"(3.000001) rule 29 row=heading_true said=no",
    ),
    (
        29,
        Detail::Watched {
            row: Row::CrossTrack,
            said: true,
        },
        2_600_000,
        b"(2.600000) rule 29 row=cross_track said=yes",
    ),
    (30, Detail::At(5), 0, b"(0.000000) rule 30 at=5"),
    (
        43,
        Detail::AtField { at: 41, field: 2 },
        0,
        b"(0.000000) rule 43 at=41 field=2",
    ),
    (
        1,
        Detail::Line(u64::MAX),
        u64::MAX,
        b"(18446744073709.551615) rule 1 line=18446744073709551615",
    ),
    // Ten digits of seconds are written otherwise than more or fewer, and the digits of a number two at a time.
    (
        1,
        Detail::Line(99),
        999_999_999_999_999,
        b"(999999999.999999) rule 1 line=99",
    ),
    (
        1,
        Detail::Line(100),
        1_000_000_000_000_000,
        b"(1000000000.000000) rule 1 line=100",
    ),
    (
        1,
        Detail::Line(10),
        9_876_543_210_123_456,
        b"(9876543210.123456) rule 1 line=10",
    ),
    (
        255,
        Detail::Line(0),
        10_000_000_000_000_000,
        b"(10000000000.000000) rule 255 line=0",
    ),
    (50, Detail::Bus, 0, b"(0.000000) rule 50 link=bus"),
    (51, Detail::Net, 0, b"(0.000000) rule 51 link=net"),
];

/// Whether the report is written as this line.
fn is_reported(rule: u8, detail: Detail, moment: u64, line: &[u8]) -> bool {
    let mut out = ArrayVec::new();
    write_emit(&Emit::Report(Report { rule, detail }), moment, &mut out);
    out.as_slice() == line
}

#[test]
fn reports_are_written_as_lines(rt: HostRuntime) {
    for (rule, detail, moment, line) in &REPORTS {
        assert!(rt; is_reported(*rule, *detail, *moment, line));
    }
}

#[test]
fn the_report_of_a_group_names_its_source_and_its_code(rt: HostRuntime) {
    let detail = Detail::GroupKey {
        sfi: Sfi::of(b"II0002").unwrap_or_default(),
        code: 7,
    };
    assert!(rt;
        is_reported(
            42,
            detail,
            11_000_001,
            b"(11.000001) rule 42 sfi=II0002 group=7"
        )
    );
}

/// The last moment that a line has.
const LAST: u64 = 9_999_999_999_999_999;

#[test]
fn a_datagram_that_is_written_is_read_back(rt: HostRuntime) {
    let group = Group::of(b"TGTD").unwrap_or_default();
    let bytes = [0xC5; 512];
    let mut out = ArrayVec::new();
    write_emit(&Emit::Net(group, &bytes), LAST, &mut out);
    assert!(rt; out.len() == 1054 && says_datagram(&out, LAST, &bytes));
}

/// Whether the frame of this identifier, is written so that it is read back.
fn is_frame_back(id: u32, bytes: &[u8]) -> bool {
    match Frame::of(id, bytes) {
        Some(frame) => {
            let mut out = ArrayVec::new();
            write_emit(&Emit::Can(frame), LAST, &mut out);
            says_frame(&out, LAST, id, bytes)
        }
        None => false,
    }
}

#[test]
fn a_frame_that_is_written_is_read_back(rt: HostRuntime) {
    assert!(rt; is_frame_back(0x1FFF_FFFF, &[0xFF; 8]));
}
