use n2k_id::{Frame, Name, NameFields, Parts, Pattern, join, parts, read_name, write_name};

/// Identifiers and their parts.
const IDENTIFIERS: [(u32, Parts); 6] = [
    // vessel heading, to all
    (
        0x09F1_1217,
        Parts {
            priority: 2,
            pgn: 127250,
            destination: 255,
            source: 0x17,
        },
    ),
    // an address claim, to all
    (
        0x18EE_FF17,
        Parts {
            priority: 6,
            pgn: 60928,
            destination: 255,
            source: 0x17,
        },
    ),
    // a request to one node
    (
        0x18EA_2A17,
        Parts {
            priority: 6,
            pgn: 59904,
            destination: 0x2A,
            source: 0x17,
        },
    ),
    // PF 239 is the last with a destination, PF 240 the first without
    (
        0x1CEF_1200,
        Parts {
            priority: 7,
            pgn: 61184,
            destination: 0x12,
            source: 0,
        },
    ),
    (
        0x1CF0_1200,
        Parts {
            priority: 7,
            pgn: 61458,
            destination: 255,
            source: 0,
        },
    ),
    // both pages
    (
        0x1FFF_FFFF,
        Parts {
            priority: 7,
            pgn: 0x3_FFFF,
            destination: 255,
            source: 255,
        },
    ),
];

/// A message to one node of a parameter group that is to all.
const MISDIRECTED: Parts = Parts {
    priority: 6,
    pgn: 61458,
    destination: 0x17,
    source: 0,
};

/// Whether these parts are joined to the identifier, and so are those that it is split into.
fn is_split(id: u32, held: Parts) -> bool {
    match parts(id) {
        Some(found) => join(found) == Some(id) && join(held) == Some(id),
        None => false,
    }
}

#[test]
fn identifiers_are_split_and_joined(rt: HostRuntime) {
    for (id, held) in &IDENTIFIERS {
        assert!(rt; is_split(*id, *held));
    }
    assert!(rt; parts(0x2000_0000).is_none() && join(MISDIRECTED).is_none());
}

/// Whether a frame of a heading's identifier holds the piece, and these bytes.
fn is_held(piece: &[u8], bytes: [u8; 8]) -> bool {
    match Frame::of(0x09F1_1217, piece) {
        Some(frame) => frame.held() == piece && frame.bytes == bytes,
        None => false,
    }
}

#[test]
fn a_frame_holds_its_piece(rt: HostRuntime) {
    assert!(rt;
        Frame::of(0x2000_0000, &[0x00, 0x5C, 0x3D]).is_none() && Frame::of(0, &[0; 9]).is_none()
    );
    assert!(rt; is_held(&[0x00, 0x5C, 0x3D], [0x00, 0x5C, 0x3D, 0, 0, 0, 0, 0]));
}

/// An attitude sensor that may move to another address.
const SENSOR: NameFields = NameFields {
    unique: 5,
    manufacturer: 2046,
    instance_lower: 0,
    instance_upper: 0,
    function: 140,
    reserved: 0,
    class: 60,
    system_instance: 0,
    industry: 4,
    arbitrary: true,
};

/// Each field at its greatest value or at 0, in turns.
const STRIPES: NameFields = NameFields {
    unique: 0x1F_FFFF,
    manufacturer: 0,
    instance_lower: 7,
    instance_upper: 0,
    function: 255,
    reserved: 0,
    class: 127,
    system_instance: 0,
    industry: 7,
    arbitrary: false,
};

/// Numbers of NAMEs, and their fields.
const NAMES: [(u64, NameFields); 2] = [
    (0xC078_8C00_FFC0_0005, SENSOR),
    (0x70FE_FF07_001F_FFFF, STRIPES),
];

/// Whether these fields are joined to the NAME, and so are those into which it is cut.
fn is_cut(number: u64, fields: NameFields) -> bool {
    let name = Some(Name(number));
    Name::of_fields(Name(number).fields()) == name && Name::of_fields(fields) == name
}

#[test]
fn names_are_cut_into_fields_and_joined(rt: HostRuntime) {
    for (number, fields) in &NAMES {
        assert!(rt; is_cut(*number, *fields));
    }
    let wide = NameFields {
        industry: 8,
        ..SENSOR
    };
    assert!(rt; Name::of_fields(wide).is_none());
    assert!(rt; Name(0xC032_8200_FFC0_0001) < Name(0xC078_8C00_FFC0_0005));
}

#[test]
fn names_are_read_and_written_low_byte_first(rt: HostRuntime) {
    let bytes = [0x05, 0x00, 0xC0, 0xFF, 0x00, 0x8C, 0x78, 0xC0];
    let name = Name(0xC078_8C00_FFC0_0005);
    assert!(rt; write_name(name) == bytes);
    assert!(rt; read_name(&bytes) == Some(name));
    assert!(rt; read_name(&bytes[..7]) == None);
}

#[test]
fn a_pattern_asks_for_what_it_states(rt: HostRuntime) {
    let sensor = Name(0xC078_8C00_FFC0_0005);
    let anything = Pattern::default();
    let sensors = Pattern {
        function: Some(140),
        class: Some(60),
        ..anything
    };
    let fixed = Pattern {
        arbitrary: Some(false),
        ..anything
    };
    assert!(rt; anything.matches(sensor));
    assert!(rt; sensors.matches(sensor));
    assert!(rt; !fixed.matches(sensor));
    assert!(rt; Pattern::whole(sensor).matches(sensor));
    assert!(rt; !Pattern::whole(sensor).matches(Name(0xC078_8C00_FFC0_0004)));
}
