//! What a command answers the lines of a capture with.
ghost use Rattle.std.specs.Prelude.{ℕ, List, Result, Ok, Err};
ghost use Rattle.capture_text.specs.declared.line_rule.LineRule.{LineRule};
ghost use Rattle.gate_events.specs.Event.{Seen, view, IsValid};
ghost use Rattle.gate_outside.specs.Faults.{HasCause};
ghost use Rattle.capture_stream.specs.Answering.{Sent};

use crate::writer::Writer;
use capture_text::LineRule;
use gate_events::Event;
use gate_outside::{Failed, Sink};

/// What answers each line of a capture that isn't empty, and keeps what it has to know of those before.
pub trait Answers {
    /// The text that a line of this number gives by what it says, or by the rule that it breaks, and what is kept then.
    ghost gives: { Self → ℕ → Result Seen LineRule → List ℕ → Self → Type 0 };

    /// Sends what a line gives that says something.
    fn answer_event<K: Sink>(
        &mut self,
        number: u64,
        event: &Event<'_>,
        writer: &mut Writer,
        out: &mut K,
    ) -> Result<(), Failed>
        requires { IsValid event.now }
        ensures sent { Sent (gives self.old number (Ok (view event.now))) (K.taken out.old) (K.taken out.new) writer.old writer.new self.new result }
        ensures cause { HasCause (K.fault_count out.old) (K.fault_count out.new) result };

    /// Sends what a line gives that breaks a rule.
    fn answer_refusal<K: Sink>(
        &mut self,
        number: u64,
        rule: LineRule,
        writer: &mut Writer,
        out: &mut K,
    ) -> Result<(), Failed>
        ensures sent { Sent (gives self.old number (Err rule)) (K.taken out.old) (K.taken out.new) writer.old writer.new self.new result }
        ensures cause { HasCause (K.fault_count out.old) (K.fault_count out.new) result };
}
