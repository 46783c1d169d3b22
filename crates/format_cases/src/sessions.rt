use iso_transport::{Cm, read_cm};

/// What a receiver says of a message of 1785 bytes of PGN 129029, GNSS position data.
#[test]
fn what_a_receiver_says_is_read(rt: HostRuntime) {
    let granted = read_cm(&[0x11, 8, 1, 0xFF, 0xFF, 0x05, 0xF8, 0x01]);
    assert!(rt;
        matches!(
            granted,
            Some(Cm::Cts {
                count: 8,
                next: 1,
                pgn: 129_029
            })
        )
    );
    let had = read_cm(&[0x13, 0xF9, 0x06, 0xFF, 0xFF, 0x05, 0xF8, 0x01]);
    assert!(rt;
        matches!(
            had,
            Some(Cm::EndAck {
                size: 1785,
                packets: 255,
                pgn: 129_029
            })
        )
    );
    let given_up = read_cm(&[0xFF, 3, 0xFF, 0xFF, 0xFF, 0x05, 0xF8, 0x01]);
    assert!(rt;
        matches!(
            given_up,
            Some(Cm::Abort {
                reason: 3,
                pgn: 129_029
            })
        )
    );
}
