//! The sentences from the network (IEC 61162-1), and the readings that they give.
ghost use Rattle.std.specs.Prelude.{◌≡◌, ◌==◌, ◌+◌, ◌<◌, ◌≤◌, [], ◌∷◌, ◌++◌, false, length, MatchOption};
ghost use Rattle.sentence_text.specs.Reading.{parts};
ghost use Rattle.sentence_profile.specs.Reading.{read_row};
ghost use Rattle.datagram450.specs.Datagram.{cut};
ghost use Rattle.history.specs.NetReadings.{read_sentence};
ghost use Rattle.gate_model.specs.Net.{fault_emits, said_after, said_emits, sentences_after, sentences_emit};
ghost use Rattle.row_traffic.specs.NetCalls.{IsLineBefore, line_of};
ghost use Rattle.gate_outbox.specs.Output.{and_told, most_told};

use crate::network::heard::Heard;
use crate::network::rows::Readings;
use datagram450::text_run;
use gate_events::{Detail, Report};
use gate_outbox::StepEmits;
use report_rules::{FIELD_FORM, FIELD_RANGE};
use sentence_rows::{FieldFault, read_rows_with};
use sentence_text::Sentence;

/// Takes the sentences that a group of lines holds, one after the other.
#[tactic(auto, using(gate_outbox::proofs::Telling::told_more))]
pub(crate) fn take_joined(readings: &mut Readings, line: Heard, joined: &[u8], out: &mut StepEmits)
    requires source { line.source < readings.old.choices.sources }
    ensures after { readings.new ≡ sentences_after readings.old (line_of line) (cut joined.now).lines }
    ensures emits { out.new ≡ and_told most_told out.old (sentences_emit line.came.own readings.old (line_of line) (cut joined.now).lines) }
{
    let mut rest = joined;
    while let Some((text, behind)) = first_line(rest) {
        take_text(readings, line, text, out);
        rest = behind;
    }
}

/// The first line, up to its LF, and what follows it.
#[tactic(auto, using(crate::proofs::Lines::no_line, crate::proofs::Lines::first_line))]
fn first_line<'a>(bytes: &'a [u8]) -> Option<(&'a [u8], &'a [u8])>
    ensures { MatchOption result ((cut bytes.now).lines ≡ []) (λ l. IsLineBefore l.0.now l.1.now bytes.now) }
{
    let place = text_run(bytes);
    if place == bytes.len() {
        return None;
    }
    Some(bytes.split_at(place + 1))
}

/// Takes the text of a sentence.
fn take_text(readings: &mut Readings, line: Heard, text: &[u8], out: &mut StepEmits)
    requires source { line.source < readings.old.choices.sources }
    ensures after { readings.new ≡ said_after readings.old (line_of line) (read_sentence line.optional text.now) }
    ensures emits { out.new ≡ and_told most_told out.old (said_emits line.came.own readings.old (line_of line) (read_sentence line.optional text.now)) }
{
    match sentence_text::read(text) {
        Ok(sentence) => take_sentence(readings, line, &sentence, out),
        // what is no sentence is none of the profile.
        Err(_) => {}
    }
}

/// Takes the readings of a sentence, or reports its fault.
pub(crate) fn take_sentence(
    readings: &mut Readings,
    line: Heard,
    sentence: &Sentence<'_>,
    out: &mut StepEmits,
)
    requires source { line.source < readings.old.choices.sources }
    ensures after { readings.new ≡ said_after readings.old (line_of line) (read_row line.optional (parts sentence.now)) }
    ensures emits { out.new ≡ and_told most_told out.old (said_emits line.came.own readings.old (line_of line) (read_row line.optional (parts sentence.now))) }
{
    let mut given = sentence_rows::Readings::new();
    match read_rows_with(sentence, line.optional, &mut given) {
        Ok(()) => readings.take_all(line, &given, out),
        Err(fault) => tell_fault(line.place, fault, out),
    }
}

/// Reports the fault of a sentence; one that is none of the profile has none.
fn tell_fault(place: u16, fault: FieldFault, out: &mut StepEmits)
    ensures emits { out.new ≡ and_told most_told out.old (fault_emits place fault) }
{
    let (rule, field) = match fault {
        FieldFault::Outside => return,
        FieldFault::Form(field) => (FIELD_FORM, field),
        FieldFault::Range(field) => (FIELD_RANGE, field),
    };
    out.tell(Report {
        rule,
        detail: Detail::AtField { at: place, field },
    });
}
