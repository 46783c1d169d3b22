//! A frame or a report, as it is kept: in 24 bytes.
ghost use Rattle.std.specs.Prelude.{◌≡◌};
ghost use Rattle.n2k_id.specs.Frame.{IsFrame, bus_frame};
ghost use Rattle.gate_events.specs.Emit.{CanWrite, can, report};
ghost use Rattle.gate_outbox.specs.Kept.{IsKept, kept_emit};
ghost use Rattle.gate_outbox.specs.Output.{emit_of};

use gate_events::{Detail, Emit, Report};
use n2k_id::Frame;

/// A frame or a report.
///
/// The fields of both stand here, the short ones beside the variant's own byte: with a `Frame` and a `Report` in it, it would have 32 bytes.
#[derive(Clone, Copy)]
pub(crate) enum Kept {
    Frame { len: u8, id: u32, bytes: [u8; 8] },
    Report { rule: u8, detail: Detail },
}

/// What stands in a place that says nothing. Its bytes are 0, so that a list of such places is zeroed where it will lie, and not made
/// on the stack and copied.
pub(crate) const BLANK: Kept = Kept::Frame {
    len: 0,
    id: 0,
    bytes: [0; 8],
};

impl Kept {
    pub(crate) fn of_frame(frame: Frame) -> Kept
        requires { IsFrame frame }
        ensures emit { kept_emit result ≡ can (bus_frame frame) }
        ensures valid { IsKept result }
    {
        let Frame { id, len, bytes } = frame;
        Kept::Frame { len, id, bytes }
    }

    pub(crate) fn of_report(told: Report) -> Kept
        ensures emit { kept_emit result ≡ report told }
        ensures valid { IsKept result }
    {
        let Report { rule, detail } = told;
        Kept::Report { rule, detail }
    }

    /// What is sent or reported of it.
    pub(crate) fn emit(self) -> Emit<'static>
        requires { IsKept self }
        ensures emit { emit_of result ≡ kept_emit self }
        ensures valid { CanWrite result }
    {
        match self {
            Kept::Frame { len, id, bytes } => Emit::Can(Frame { id, len, bytes }),
            Kept::Report { rule, detail } => Emit::Report(Report { rule, detail }),
        }
    }
}
