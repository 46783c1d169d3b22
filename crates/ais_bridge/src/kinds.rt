//! The parameter group of reports.
ghost use Rattle.ais_bridge.specs.AisOut.{report_kinds};
ghost use Rattle.ais_bridge.specs.AisKinds.{reports_are_heard};

use bus_listener::{Kind, Kinds};

/// AIS class A position report.
const REPORT_PGN: u32 = 129_038;

/// The one parameter group that is heard.
pub(crate) struct PositionReports;

impl Kinds for PositionReports {
    ghost kinds = { λ heard. report_kinds };

    fn kind(&self, pgn: u32) -> Kind {
        if pgn == REPORT_PGN {
            Kind::Fast
        } else {
            Kind::Outside
        }
    }

    ghost heard = { λ heard. reports_are_heard };
}
