use readings::{Reading, Row, bits, read_signed, read_unsigned, row, usable, valid};

const BYTES: [u8; 6] = [0xFF, 0x5C, 0x3D, 0x51, 0xFF, 0x7F];

#[test]
fn numbers_stand_with_the_lowest_byte_first(rt: HostRuntime) {
    assert!(rt;
        read_unsigned(&BYTES, 1, 2) == Some(15_708)
            && read_unsigned(&BYTES, 1, 3) == Some(5_324_124)
            && read_unsigned(&BYTES, 5, 2).is_none()
    );
    assert!(rt;
        read_signed(&BYTES, 3, 2) == Some(-175)
            && read_signed(&BYTES, 4, 2) == Some(32_767)
            && read_signed(&BYTES, 5, 1) == Some(127)
            && read_signed(&BYTES, 7, 1).is_none()
    );
}

#[test]
fn bits_are_counted_from_the_lowest(rt: HostRuntime) {
    assert!(rt;
        bits(0b1010_0110, 0, 2) == 0b10
            && bits(0b1010_0110, 4, 4) == 0b1010
            && bits(0b1010_0110, 0, 8) == 0b1010_0110
            && bits(0b1010_0110, 8, 0) == 0
    );
}

fn fix(method: u8, date: Option<i64>, longitude: Option<i64>) -> Reading {
    Reading::Gnss {
        date,
        time: None,
        latitude: Some(900_000_000_000_000_000),
        longitude,
        altitude: None,
        method,
        satellites: None,
        hdop: None,
        separation: None,
    }
}

#[test]
fn a_fix_stands_for_its_source_where_it_has_a_position(rt: HostRuntime) {
    assert!(rt; row(&fix(0, None, None)) == Row::Gnss);
    assert!(rt; usable(&fix(0, None, Some(0))));
    assert!(rt; !usable(&fix(0, Some(0), None)));
}

#[test]
fn each_end_of_a_range_is_valid_and_nothing_beyond(rt: HostRuntime) {
    assert!(rt; valid(&Reading::default()));
    assert!(rt; valid(&fix(8, Some(65_532), Some(-1_800_000_000_000_000_000))));
    assert!(rt; !valid(&fix(9, None, None)));
    assert!(rt; !valid(&fix(8, Some(65_533), None)));
    assert!(rt; !valid(&fix(8, None, Some(-1_800_000_000_000_000_001))));
}
