//! A command that answers each line of a capture by itself.
ghost use Rattle.std.specs.Prelude.{◌≡◌, Ok, Err};
ghost use Rattle.gate_outside.specs.Faults.{HasCause, Rose};
ghost use Rattle.gate_events.specs.Event.{view, IsValid};
ghost use Rattle.capture_stream.specs.Writer.{SendsText};
ghost use Rattle.line_commands.specs.LineCommand.{IsTextOf, AreTextsOf};
ghost use Rattle.command_line.specs.Statuses.{EndsBy, IsStreamStatus, IsUnhindered, SteadyBy, number};

use crate::{convert, show};
use capture_stream::{Answers, Writer, answer_capture};
use capture_text::LineRule;
use command_line::{LineCommand, Status, status_of};
use gate_events::Event;
use gate_outside::{Failed, Sink, Source};

// Sends what a line gives that says something.
#[inline(always)]
fn send_event<K: Sink>(
    command: LineCommand,
    number: u64,
    event: &Event<'_>,
    writer: &mut Writer,
    out: &mut K,
) -> Result<(), Failed>
    requires { IsValid event.now }
    ensures sent { SendsText (IsTextOf command number (Ok (view event.now))) (K.taken out.old) (K.taken out.new) writer.old writer.new result }
    ensures cause { HasCause (K.fault_count out.old) (K.fault_count out.new) result }
{
    match command {
        LineCommand::Convert => convert::send_event(number, event, writer, out),
        LineCommand::Show => show::send_event(number, event, writer, out),
    }
}

// Sends what a line gives that breaks a rule.
fn send_refusal<K: Sink>(
    command: LineCommand,
    rule: LineRule,
    number: u64,
    writer: &mut Writer,
    out: &mut K,
) -> Result<(), Failed>
    ensures sent { SendsText (IsTextOf command number (Err rule)) (K.taken out.old) (K.taken out.new) writer.old writer.new result }
    ensures cause { HasCause (K.fault_count out.old) (K.fault_count out.new) result }
{
    match command {
        LineCommand::Convert => convert::send_refusal(rule, number, writer, out),
        LineCommand::Show => show::send_refusal(rule, number, writer, out),
    }
}

/// What is kept from line to line: which command it is.
#[derive(Drop)]
struct Lines {
    command: LineCommand,
}

impl Answers for Lines {
    ghost use Rattle.line_commands.specs.LineCommand.{IsAnswer};

    ghost gives = { IsAnswer };

    // Where lines of the usual layout are read a copy of it stands, which leaves out what the command doesn't ask of them.
    #[inline(always)]
    fn answer_event<K: Sink>(
        &mut self,
        number: u64,
        event: &Event<'_>,
        writer: &mut Writer,
        out: &mut K,
    ) -> Result<(), Failed> {
        send_event(self.command, number, event, writer, out)
    }

    fn answer_refusal<K: Sink>(
        &mut self,
        number: u64,
        rule: LineRule,
        writer: &mut Writer,
        out: &mut K,
    ) -> Result<(), Failed> {
        send_refusal(self.command, rule, number, writer, out)
    }
}

/// Answers the lines of a capture, and answers a status.
///
/// | Status | Where |
/// |---|---|
/// | 0 | the input was read to its end, and the text of all its lines was written |
/// | 4 | only where the sink's faults rose; what was written is some front of the text |
/// | 5 | only where the source's faults rose; the text of the complete lines was written |
/// | 8 | exactly where more than 2^40 bytes were read, and no call failed before |
///
/// Of 4, 5 and 8 the first call that fails decides: with 0 and 8 no call failed, with 4 no read did, and with 5 no write.
#[inline(never)]
pub fn answer_lines<S: Source, K: Sink>(command: LineCommand, input: &mut S, out: &mut K) -> Status
    ensures status { IsStreamStatus (number result) }
    ensures ends { EndsBy (AreTextsOf command) (S.left input.old) (S.left input.new) (K.taken out.old) (K.taken out.new) (number result) }
    ensures sink_cause { number result ≡ 4 → Rose (K.fault_count out.old) (K.fault_count out.new) }
    ensures source_cause { number result ≡ 5 → Rose (S.fault_count input.old) (S.fault_count input.new) }
    ensures steady { SteadyBy (S.fault_count input.old) (S.fault_count input.new) (K.fault_count out.old) (K.fault_count out.new) (number result) }
    ensures complete { IsUnhindered (S.left input.old) (S.fault_count input.old) (S.fault_count input.new) (K.fault_count out.old) (K.fault_count out.new)
        → number result ≡ 0 }
{
    let mut lines = Lines { command };
    status_of(answer_capture(&mut lines, input, out))
}
