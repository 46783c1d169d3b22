use arrayvec::ArrayVec;
use sentence_text::{Group, SentenceFault, SentenceRule, Sfi, read, write};

/// Texts, and whether they are that of a source and of a group.
const SPELLINGS: [(&[u8], bool, bool); 7] = [
    (b"II0001", true, false),
    (b"NAVD", false, true),
    (b"0A9Z", false, true),
    (b"II000", false, false),
    (b"iI0001", false, false),
    (b"II000A", false, false),
    (b"NAV ", false, false),
];

#[test]
fn names_have_their_form(rt: HostRuntime) {
    for &(text, sfi, group) in &SPELLINGS {
        assert!(rt; Sfi::of(text).is_some() == sfi);
        assert!(rt; Group::of(text).is_some() == group);
    }
}

#[test]
fn a_sentence_has_at_most_82_bytes(rt: HostRuntime) {
    let mut out = ArrayVec::new();
    assert!(rt; !write(*b"GP", *b"GLL", &[b'0'; 71], &mut out));
    assert!(rt; out.is_empty());
    assert!(rt; write(*b"GP", *b"GLL", &[b'0'; 70], &mut out));
    assert!(rt; out.len() == 82);
}

const POSITION: &'static [u8] = b"$GPGLL,0000.0000,N,,E,,A,A*59\r\n";

/// The fields of the sentence by their numbers; a dash stands for none.
const FIELDS: [(usize, &[u8]); 6] = [
    (0, b"-"),
    (1, b"0000.0000"),
    (2, b"N"),
    (3, b""),
    (7, b"A"),
    (8, b"-"),
];

/// Whether the sentence is read, with these parts.
fn has_parts(talker: &[u8], formatter: &[u8], body: &[u8], count: usize) -> bool {
    match read(POSITION) {
        Ok(sentence) => {
            sentence.start == b'$'
                && sentence.talker.as_slice() == talker
                && sentence.formatter == formatter
                && sentence.body == body
                && sentence.count() == count
        }
        Err(_) => false,
    }
}

/// Whether the sentence is read, with this field.
fn has_field(number: usize, field: &[u8]) -> bool {
    match read(POSITION) {
        Ok(sentence) => sentence.field(number).unwrap_or(b"-") == field,
        Err(_) => false,
    }
}

#[test]
fn a_sentence_is_read_in_its_parts(rt: HostRuntime) {
    let body = b",0000.0000,N,,E,,A,A";
    assert!(rt; has_parts(b"GP", b"GLL", body, 7));
}

#[test]
fn fields_are_counted_from_1(rt: HostRuntime) {
    for (number, field) in &FIELDS {
        assert!(rt; has_field(*number, field));
    }
}

/// What breaks a rule, the rule, and its place.
const BROKEN: [(&[u8], SentenceRule, usize); 20] = [
    (&[b'$'; 121], SentenceRule::Long, 120),
    (b"", SentenceRule::Start, 0),
    (b"HEHDT,90.0,T*16\r\n", SentenceRule::Start, 0),
    (b"$HEHDT\r\n", SentenceRule::Address, 6),
    (b"$HE,90.0,T*16\r\n", SentenceRule::Address, 3),
    (b"$", SentenceRule::Address, 1),
    (b"$HEhDT,90.0,T*16\r\n", SentenceRule::Address, 3),
    (b"$ABCDEFGHIJKLM,*00\r\n", SentenceRule::Address, 13),
    (b"$HEHDT,90.0,T\r\n", SentenceRule::NoSum, 13),
    (b"$HEHDT,90.0,T", SentenceRule::NoSum, 13),
    (b"$HEHDT,90\\0,T*16\r\n", SentenceRule::Byte, 9),
    (b"$HEHDT,90.0,$*16\r\n", SentenceRule::Byte, 12),
    (b"$HEHDT,90.0,T*", SentenceRule::Sum, 14),
    (b"$HEHDT,90.0,T*1\r\n", SentenceRule::Sum, 15),
    (b"$HEHDT,90.0,T*1G\r\n", SentenceRule::Sum, 15),
    (b"$HEHDT,90.0,T*17\r\n", SentenceRule::Sum, 14),
    (b"$HEHDT,90.0,T*16", SentenceRule::End, 16),
    (b"$HEHDT,90.0,T*16\n", SentenceRule::End, 16),
    (b"$HEHDT,90.0,T*16\r\r\n", SentenceRule::End, 17),
    (b"$HEHDT,90.0,T*16\r\n\n", SentenceRule::End, 18),
];

#[test]
fn the_first_broken_rule_is_named_at_its_place(rt: HostRuntime) {
    for &(line, rule, place) in &BROKEN {
        assert!(rt; read(line).err() == Some(SentenceFault { rule, place }));
    }
}
