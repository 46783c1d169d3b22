use tag_block::{TagFault, TagRule, read};

fn fault_of(line: &[u8]) -> Option<TagFault> {
    match read(line) {
        Ok(_) => None,
        Err(fault) => Some(fault),
    }
}

/// What breaks a rule, the rule, and its place.
const BROKEN: [(&[u8], TagRule, usize); 19] = [
    (b"", TagRule::NoSource, 0),
    (b"$HEHDT,90.0,T*16\r\n", TagRule::NoSource, 0),
    (b"\\", TagRule::Form, 1),
    (b"\\:x*00\\", TagRule::Form, 1),
    (b"\\s*00\\", TagRule::Form, 2),
    (b"\\s:II0001", TagRule::Form, 9),
    (b"\\s:II0001\\", TagRule::Form, 9),
    (b"\\s:II0001,", TagRule::Form, 10),
    (b"\\s:II0001*", TagRule::Form, 10),
    (b"\\s:II0001*G8\\", TagRule::Form, 10),
    (b"\\s:II0001*4", TagRule::Form, 11),
    (b"\\s:II0001*49", TagRule::Sum, 10),
    (b"\\s:II0001*48", TagRule::Form, 12),
    (b"\\s:II0001*48\\\\", TagRule::Form, 14),
    (b"\\g:2-1-1,s:II0001*0B\\", TagRule::Form, 3),
    (b"\\g:1-2-0,n:1*27\\", TagRule::Form, 3),
    (b"\\s:II0001,n:1000*31\\", TagRule::Form, 12),
    (b"\\s:ii0001*48\\", TagRule::NoSource, 3),
    (b"\\n:1*65\\$HEHDT", TagRule::NoSource, 8),
];

#[test]
fn the_first_broken_rule_is_named_at_its_place(rt: HostRuntime) {
    for &(line, rule, place) in &BROKEN {
        assert!(rt; fault_of(line) == Some(TagFault { rule, place }));
    }
}
