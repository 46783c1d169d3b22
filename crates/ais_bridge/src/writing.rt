//! The datagram of a report.
ghost use Rattle.std.specs.Prelude.{◌≡◌, ◌+◌, ◌≤◌, [], ◌++◌, length};
ghost use Rattle.arrayvec.specs.ArrayVec.{array_vec_len};
ghost use Rattle.ais_report.specs.Fields.{IsReport};
ghost use Rattle.ais_bridge.specs.Reports.{report_datagram, report_sentence};

use ais_report::{AisReport, armour};
use arrayvec::ArrayVec;
use datagram450::write_sentence;
use sentence_text::{Sfi, sum_digits, xor};
use tag_block::Packet;

/// The bytes of a sentence (IEC 61162-1: at most 82).
type Line = ArrayVec<u8, 82>;

/// Writes the datagram of a report. So many lines were said before.
pub(crate) fn write_report(
    source: Sfi,
    before: u16,
    report: &AisReport,
    channel: u8,
    packet: &mut Packet,
)
    requires valid { IsReport report.now }
    requires empty { packet.old.items ≡ [] }
    ensures { packet.new.items ≡ report_datagram source before (report.now, channel) }
{
    let line = report_sentence(report, channel);
    write_sentence(source, before, &line, packet);
}

/// `!AIVDM,1,1,,`, the channel, the report in armour, `0`, and the sum.
fn report_sentence(report: &AisReport, channel: u8) -> Line
    requires valid { IsReport report.now }
    ensures text { result.items ≡ report_sentence (report.now, channel) }
    ensures len { array_vec_len result ≡ 49 }
{
    let mut line = Line::new();
    append(b"!AIVDM,1,1,,", &mut line);
    append(&[channel], &mut line);
    append(b",", &mut line);
    append(&armour(report), &mut line);
    append(b",0", &mut line);
    let sum = xor(&line[1..]);
    append(b"*", &mut line);
    append(&sum_digits(sum), &mut line);
    append(b"\r\n", &mut line);
    line
}

fn append(piece: &[u8], line: &mut Line)
    requires { array_vec_len line.old + length piece.now ≤ 82 }
    ensures { line.new.items ≡ line.old.items ++ piece.now }
{
    let _fits = line.try_extend_from_slice(piece);
}
