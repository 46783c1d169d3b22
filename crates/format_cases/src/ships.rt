//! What the program shows of reports is tried by the program itself; it reads none, and shows no message without a byte.

use ais_report::{AisFault, armour, convert, read_armour};

/// Message 1 of ship 200000000 under way: one degree east on the equator, to the east at 10.0 knots, heading east.
const UNDER_WAY: [u8; 28] = [
    0x01, 0x00, 0xC2, 0xEB, 0x0B, 0x80, 0x96, 0x98, 0x00, 0x00, 0x00, 0x00, 0x00, 0x00, 0x5C, 0x3D,
    0x02, 0x02, 0x00, 0x00, 0x00, 0x5C, 0x3D, 0xFF, 0x7F, 0x00, 0x00, 0xFF,
];

/// Message 3 with no value that is available, and every bit set of those that pass as they are.
const ABSENT: [u8; 26] = [
    0xC3, 0x00, 0x00, 0x00, 0x00, 0xFF, 0xFF, 0xFF, 0x7F, 0xFF, 0xFF, 0xFF, 0x7F, 0xFF, 0xFF, 0xFF,
    0xFF, 0xFF, 0xFF, 0xFF, 0x0F, 0xFF, 0xFF, 0xFF, 0x7F, 0x3F,
];

/// Message 2 of ship 999999999 at the ends of the ranges: 180 degrees west at the south pole, a course and a heading all round, 52.63 m/s,
/// which is 102.3 knots.
const ENDS: [u8; 26] = [
    0x42, 0xFF, 0xC9, 0x9A, 0x3B, 0x00, 0x2E, 0xB6, 0x94, 0x00, 0x17, 0x5B, 0xCA, 0xED, 0x70, 0xF5,
    0x8F, 0x14, 0x01, 0x00, 0x00, 0x70, 0xF5, 0xFF, 0x7F, 0x27,
];

/// Payloads, the channel of each, and its report in characters.
const REPORTS: [(&[u8], u8, &[u8; 28]); 3] = [
    (&UNDER_WAY, b'A', b"12vg200P1T04Tv000003Q2l00000"),
    (&ABSENT, b'B', b"3h0000?P?wdtSF0l4Q@>4?wwSwww"),
    (&ENDS, b'A', b"2Nqc9woP?vk81`1<P6P0001o0001"),
];

/// Whether the characters are what the report of the payload, which is of this channel, is written as, and are read as a report that is.
fn is_read(payload: &[u8], letter: u8, text: &[u8; 28]) -> bool {
    match (convert(payload), read_armour(text.as_slice())) {
        (Ok((report, channel)), Some(read)) => {
            channel == letter && armour(&report) == *text && armour(&read) == *text
        }
        _ => false,
    }
}

#[test]
fn a_report_is_read_as_it_is_written(rt: HostRuntime) {
    for (payload, letter, text) in &REPORTS {
        assert!(rt; is_read(payload, *letter, text));
    }
}

#[test]
fn a_payload_without_a_byte_is_short(rt: HostRuntime) {
    assert!(rt; matches!(convert(&[]), Err(AisFault::Short)));
}

/// Characters that are no report.
const MISSPELT: [&[u8]; 10] = [
    b"",
    b"12vg200P1T04Tv000003Q2l0000",
    b"12vg200P1T04Tv000003Q2l000000",
    // no character of a report
    b"12vg200P1T04Tv000003Q2l0000X",
    b"12vg200P1T04Tv000003Q2l0000\x00",
    // messages 0 and 4
    b"02vg200P1T04Tv000003Q2l00000",
    b"42vg200P1T04Tv000003Q2l00000",
    // a rate of turn of 0, and a spare bit
    b"12vg20001T04Tv000003Q2l00000",
    b"12vg200P1T04Tv000003Q2l0@000",
    // ship 1,000,000,000
    b"1>qc:00P1T04Tv000003Q2l00000",
];

#[test]
fn only_what_is_written_so_is_read(rt: HostRuntime) {
    for text in &MISSPELT {
        assert!(rt; read_armour(text).is_none());
    }
}
