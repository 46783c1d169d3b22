//! What is heard, and what a report gives.
ghost use Rattle.std.specs.Prelude.{◌≡◌, option_map, IfOk, IfSome};
ghost use Rattle.ais_report.specs.Fields.{IsReport};
ghost use Rattle.bus_listener.specs.Lent.{heard_message};
ghost use Rattle.bus_listener.specs.Steps.{IsEventValid, entry_of};
ghost use Rattle.gate_outbox.specs.Output.{and_left};
ghost use Rattle.ais_bridge.specs.AisKept.{most_reports, passed_on};
ghost use Rattle.ais_bridge.specs.Promises.{step_by};
ghost use Rattle.ais_bridge.specs.Reports.{said_by};

use crate::bridge::{AisBridge, AisEmits};
use crate::kinds::PositionReports;
use crate::said::Said;
use crate::writing::write_report;
use ais_report::{AisFault, convert};
use bus_listener::{Gateway, HeardMessage};
use gate_events::Event;
use gate_outbox::reports::of_source;
use report_rules::{AIS_REPORT_OUTSIDE, SHORT_MESSAGE};
use tag_block::MOST_COUNT;

impl AisBridge {
    /// Takes an event: what is heard of it, and then the report that it completes.
    #[tactic(auto, using(gate_outbox::proofs::Telling::left_behind, bus_listener::proofs::RoomLemmas::step_limit))]
    pub(crate) fn step(&mut self, gateway: &Gateway, event: &Event<'_>, emits: &mut AisEmits)
        requires valid { IsEventValid event.now }
        ensures after { self.new ≡ (step_by gateway.now self.old (entry_of event.now)).after }
        ensures emits { emits.new ≡ and_left most_reports emits.old (step_by gateway.now self.old (entry_of event.now)).emits }
    {
        let said = said_by(self.reports.after(gateway, event, &PositionReports, emits));
        self.pass_on(&said, emits);
    }

    /// Passes on the report that is complete, or reports the rule that it breaks.
    fn pass_on(&mut self, said: &Option<Said>, emits: &mut AisEmits)
        requires valid { IfSome said.now (λ x. IfOk x.says (λ y. IsReport y.0)) }
        ensures after { self.new ≡ (passed_on self.old said.now).after }
        ensures emits { emits.new ≡ and_left most_reports emits.old (passed_on self.old said.now).emits }
    {
        if let Some(said) = said {
            match &said.says {
                Ok((report, channel)) => {
                    let datagram = emits.post(self.group);
                    write_report(self.sfi, self.lines, report, *channel, &mut datagram.packet);
                    self.lines = (self.lines + 1) % MOST_COUNT;
                }
                Err(AisFault::Short) => {
                    emits.tell(of_source(SHORT_MESSAGE, said.source, said.pgn));
                }
                Err(AisFault::Outside) => {
                    emits.tell(of_source(AIS_REPORT_OUTSIDE, said.source, said.pgn));
                }
            }
        }
    }
}

/// What a message says.
fn said_by(message: Option<HeardMessage<'_>>) -> Option<Said>
    ensures said { result ≡ option_map said_by (heard_message message.entry) }
    ensures valid { IfSome result (λ x. IfOk x.says (λ y. IsReport y.0)) }
{
    match message {
        Some(message) => Some(Said {
            source: message.source,
            pgn: message.pgn,
            says: convert(message.payload),
        }),
        None => None,
    }
}
