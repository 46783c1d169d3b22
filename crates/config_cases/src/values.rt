//! That the numbers of a valid configuration are those meant: values at both sides of each bound, worked out by hand.
use crate::accepted::OWN;
use config_values::Config;
use gate_config::read;
use n2k_id::Pattern;
use std::alloc::Global;
use std::test::*;

/// The configuration of the own keys alone.
fn usual(alloc: Global) -> Option<Config> {
    match read(alloc, OWN.as_bytes()) {
        Ok(config) => Some(config),
        Err(_) => None,
    }
}

/// An address, how many fast packets, sessions and groups of lines may be open, a timeout in milliseconds; and whether they are in their ranges.
const NUMBERS: [(u8, [u16; 3], u32, bool); 12] = [
    (0, [1, 1, 1], 100, true),
    (251, [256, 32, 32], 60_000, true),
    (252, [64, 8, 8], 5_000, false),
    (255, [64, 8, 8], 5_000, false),
    (251, [0, 8, 8], 5_000, false),
    (251, [257, 8, 8], 5_000, false),
    (251, [64, 0, 8], 5_000, false),
    (251, [64, 33, 8], 5_000, false),
    (251, [64, 8, 0], 5_000, false),
    (251, [64, 8, 33], 5_000, false),
    (251, [64, 8, 8], 99, false),
    (251, [64, 8, 8], 60_001, false),
];

/// The last row stands for all.
fn are_in_range(alloc: Global, address: u8, limits: &[u16; 3], timeout_ms: u32) -> bool {
    match usual(alloc) {
        Some(mut config) => {
            config.address = address;
            config.fast_slots = limits[0];
            config.iso_slots = limits[1];
            config.group_slots = limits[2];
            config.rows[16].timeout_ms = timeout_ms;
            config.valid()
        }
        None => false,
    }
}

#[test]
fn numbers_have_ranges(rt: HostRuntime) {
    for (address, limits, timeout_ms, expected) in &NUMBERS {
        assert!(rt; are_in_range(rt.alloc(), *address, limits, *timeout_ms) == *expected);
    }
}

/// A pattern that states nothing.
pub(crate) const ANY: Pattern = Pattern {
    unique: None,
    manufacturer: None,
    instance_lower: None,
    instance_upper: None,
    function: None,
    reserved: None,
    class: None,
    system_instance: None,
    industry: None,
    arbitrary: None,
};

/// The greatest value of each field of a NAME.
const GREATEST: Pattern = Pattern {
    unique: Some(0x1F_FFFF),
    manufacturer: Some(0x7FF),
    instance_lower: Some(7),
    instance_upper: Some(0x1F),
    function: Some(0xFF),
    reserved: Some(1),
    class: Some(0x7F),
    system_instance: Some(0xF),
    industry: Some(7),
    arbitrary: Some(true),
};

/// What is stated of a NAME, and whether each value fits its field.
const PATTERNS: [(Pattern, bool); 10] = [
    (ANY, true),
    (GREATEST, true),
    (
        Pattern {
            unique: Some(0x20_0000),
            ..ANY
        },
        false,
    ),
    (
        Pattern {
            manufacturer: Some(0x800),
            ..ANY
        },
        false,
    ),
    (
        Pattern {
            instance_lower: Some(8),
            ..ANY
        },
        false,
    ),
    (
        Pattern {
            instance_upper: Some(0x20),
            ..ANY
        },
        false,
    ),
    (
        Pattern {
            reserved: Some(2),
            ..ANY
        },
        false,
    ),
    (
        Pattern {
            class: Some(0x80),
            ..ANY
        },
        false,
    ),
    (
        Pattern {
            system_instance: Some(0x10),
            ..ANY
        },
        false,
    ),
    (
        Pattern {
            industry: Some(8),
            ..ANY
        },
        false,
    ),
];

fn fits_names(alloc: Global, pattern: &Pattern) -> bool {
    match usual(alloc) {
        Some(mut config) => {
            let _fits = config.rows[16].sources.try_push(*pattern);
            config.valid()
        }
        None => false,
    }
}

#[test]
fn patterns_fit_names(rt: HostRuntime) {
    for (pattern, expected) in &PATTERNS {
        assert!(rt; fits_names(rt.alloc(), pattern) == *expected);
    }
}
