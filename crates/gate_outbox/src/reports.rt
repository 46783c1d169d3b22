//! The reports that name a sender on the bus, a place in a datagram, or a group of lines.
ghost use Rattle.std.specs.Prelude.{◌≡◌};
ghost use Rattle.gate_events.specs.Emit.{report};
ghost use Rattle.history.specs.Emits.{of_source, report_of};

use gate_events::{Detail, Report};
use tag_block::GroupKey;

/// The report that names the source and the PGN.
pub fn of_source(rule: u8, source: u8, pgn: u32) -> Report
    ensures { report result ≡ of_source rule source pgn }
{
    Report {
        rule,
        detail: Detail::Source {
            address: source,
            pgn,
        },
    }
}

/// The report that names a place in the datagram.
pub fn at_place(rule: u8, place: u16) -> Report
    ensures { result ≡ report_of rule (Detail.At place) }
{
    Report {
        rule,
        detail: Detail::At(place),
    }
}

/// The report that names a group of lines.
pub fn of_group(rule: u8, key: &GroupKey) -> Report
    ensures { result ≡ report_of rule (Detail.GroupKey key.now.sfi key.now.code) }
{
    Report {
        rule,
        detail: Detail::GroupKey {
            sfi: key.sfi,
            code: key.code,
        },
    }
}
