use datagram450::{begin, push_line};
use sentence_text::Sfi;
use tag_block::{Packet, TagParts};

/// How many bytes a line has, whether it fits, and how many bytes the datagram has then.
const FITTING: [(usize, bool, usize); 4] = [
    (455, true, 478),
    (18, false, 478),
    (17, true, 512),
    (0, false, 512),
];

#[test]
fn a_line_that_does_not_fit_changes_nothing(rt: HostRuntime) {
    let tag = TagParts {
        group: None,
        source: Sfi::of(b"II0001").unwrap_or_default(),
        count: 1,
    };
    let bytes = [b'x'; 455];
    let mut out = Packet::new();
    begin(&mut out);
    for (count, fits, length) in &FITTING {
        let line = bytes.get(..*count).unwrap_or(&[]);
        assert!(rt; push_line(&tag, line, &mut out) == *fits && out.len() == *length);
    }
}
