use fast_packet::{FrameList, split};

/// A GNSS payload of 43 bytes.
const PAYLOAD: [u8; 43] = [
    0x00, 0xDB, 0x4C, 0x00, 0x08, 0xAF, 0x2F, 0, 0, 0, 0, 0, 0, 0, 0x08, 0, 0, 0, 0, 0, 0, 0, 0x02,
    0xE0, 0xAE, 0xBB, 0, 0, 0, 0, 0, 0x10, 0xFC, 0x09, 0x69, 0x00, 0xFF, 0x7F, 0xF4, 0x06, 0, 0,
    0x00,
];

/// Its frames with sequence 0.
const FRAMES: [[u8; 8]; 7] = [
    [0x00, 0x2B, 0x00, 0xDB, 0x4C, 0x00, 0x08, 0xAF],
    [0x01, 0x2F, 0x00, 0x00, 0x00, 0x00, 0x00, 0x00],
    [0x02, 0x00, 0x08, 0x00, 0x00, 0x00, 0x00, 0x00],
    [0x03, 0x00, 0x00, 0x02, 0xE0, 0xAE, 0xBB, 0x00],
    [0x04, 0x00, 0x00, 0x00, 0x00, 0x10, 0xFC, 0x09],
    [0x05, 0x69, 0x00, 0xFF, 0x7F, 0xF4, 0x06, 0x00],
    [0x06, 0x00, 0x00, 0xFF, 0xFF, 0xFF, 0xFF, 0xFF],
];

/// Whether the message splits into these frames; another sequence or no message leaves them.
fn is_split(payload: &[u8], meant: &[[u8; 8]]) -> bool {
    let mut frames = FrameList::new();
    split(0, payload, &mut frames)
        && frames.as_slice() == meant
        && !split(8, payload, &mut frames)
        && !split(0, &[], &mut frames)
        && frames.as_slice() == meant
}

#[test]
fn a_message_splits_into_its_frames(rt: HostRuntime) {
    assert!(rt; is_split(&PAYLOAD, &FRAMES));
}

/// Whether a message with sequence 5 has this first and this last of 32 frames.
fn is_longest(message: &[u8], first: [u8; 8], last: [u8; 8]) -> bool {
    let mut frames = FrameList::new();
    if !split(5, message, &mut frames) {
        return false;
    }
    match frames.as_slice() {
        [begin, .., end] => frames.len() == 32 && *begin == first && *end == last,
        _ => false,
    }
}

#[test]
fn the_longest_message_has_32_frames(rt: HostRuntime) {
    let mut message = [0x5A; 223];
    message[..43].copy_from_slice(&PAYLOAD);
    assert!(rt;
        is_longest(
            &message,
            [0xA0, 0xDF, 0x00, 0xDB, 0x4C, 0x00, 0x08, 0xAF],
            [0xBF, 0x5A, 0x5A, 0x5A, 0x5A, 0x5A, 0x5A, 0x5A]
        )
    );
}
