//! A place for reports and short datagrams in turn.
ghost use Rattle.std.specs.Prelude.{◌≡◌, ◌≤◌, ◌<◌, ◌+◌, ◌++◌, [], ◌∷◌, length, map, option_map, slice_get, IfSome};
ghost use Rattle.gate_events.specs.Emit.{CanWrite, net, report};
ghost use Rattle.gate_outbox.specs.Output.{emit_of};
ghost use Rattle.plain_out.specs.Plain.{plain_of, plain_out, sentences_in};
ghost use Rattle.row_watch.specs.Alerts.{alerts_output, alerts_plain, alerts_unsaid, alerts_utterances, longest_alert, most_alerts, short_emit, told_emit};

use arrayvec::ArrayVec;
use gate_events::{Detail, Emit, Report};
use parts::Place;
use plain_out::{Voice, push_sentences};
use readings::ROWS;
use report_rules::ROW_WATCHED;
use sentence_text::Group;
use tag_block::Packet;

/// More than the datagram of one sentence has: 6 bytes of header, 32 of a TAG block and 82 of the sentence.
const LONGEST: usize = 128;

/// A report and an alert of each row.
const MOST: usize = 2 * ROWS;

/// A datagram of one sentence.
#[derive(Drop)]
struct ShortDatagram {
    group: Group,
    bytes: ArrayVec<u8, LONGEST>,
}

impl Default for ShortDatagram {
    ghost is_default = { λ d. Unit {0} };

    fn default() -> ShortDatagram {
        ShortDatagram {
            group: Group::default(),
            bytes: ArrayVec::new(),
        }
    }
}

/// What is told.
#[derive(Drop)]
enum Told {
    Report(Report),
    Alert(ShortDatagram),
}

impl Default for Told {
    ghost is_default = { λ t. Unit {0} };

    fn default() -> Told {
        Told::Report(Report {
            rule: ROW_WATCHED,
            detail: Detail::Nothing,
        })
    }
}

/// At most a report and an alert of each row, in their order, and the alerts once more as plain sentences.
#[derive(Drop)]
pub struct Alerts {
    told: ArrayVec<Told, MOST>,
    plain: ArrayVec<ShortDatagram, MOST>,
}

impl Alerts {
    /// Appends a report.
    pub(crate) fn tell(&mut self, told: Report)
        requires { length (alerts_output self.old) < most_alerts }
        ensures output { alerts_output self.new ≡ alerts_output self.old ++ report told ∷ [] }
        ensures plain { alerts_plain self.new ≡ alerts_plain self.old }
    {
        self.told.push(Told::Report(told));
    }

    /// Appends a datagram.
    pub(crate) fn post(&mut self, group: Group, bytes: &[u8])
        requires room { length (alerts_output self.old) < most_alerts }
        requires short { length bytes.now ≤ longest_alert }
        ensures output { alerts_output self.new ≡ alerts_output self.old ++ net group bytes.now ∷ [] }
        ensures plain { alerts_plain self.new ≡ alerts_plain self.old }
    {
        self.told.push(Told::Alert(short_datagram(group, bytes)));
    }
}

fn short_datagram(group: Group, bytes: &[u8]) -> ShortDatagram
    requires { length bytes.now ≤ longest_alert }
    ensures { short_emit result ≡ net group bytes.now }
{
    let mut datagram = ShortDatagram {
        group,
        bytes: ArrayVec::new(),
    };
    let _fits = datagram.bytes.try_extend_from_slice(bytes);
    datagram
}

impl Place for Alerts {
    ghost output = { alerts_output };

    ghost plain = { alerts_plain };

    ghost utterances = { alerts_utterances };

    ghost unsaid = { alerts_unsaid };

    ghost most = { most_alerts };

    fn new() -> Self {
        Alerts {
            told: ArrayVec::new(),
            plain: ArrayVec::new(),
        }
    }

    fn clear(&mut self) {
        self.told.clear();
        self.plain.clear();
    }

    #[tactic(auto, using(plain_out::proofs::Sayings::streamless_after, plain_out::proofs::Sayings::streamless_plain))]
    fn say_plain(&mut self, voice: &mut Voice, _moment: u64) {
        say_all(self.told.as_slice(), voice.group(), &mut self.plain);
    }

    fn len(&self) -> usize {
        self.told.len()
    }

    fn item(&self, place: usize) -> Option<Emit<'_>> {
        match self.told.get(place) {
            Some(told) => Some(lent(told)),
            None => None,
        }
    }

    fn plain_len(&self) -> usize {
        self.plain.len()
    }

    fn plain_item(&self, place: usize) -> Option<Emit<'_>> {
        match self.plain.get(place) {
            Some(datagram) => Some(lent_datagram(datagram)),
            None => None,
        }
    }
}

fn lent(told: &Told) -> Emit<'_>
    ensures emit { emit_of result ≡ told_emit told.now }
    ensures valid { CanWrite result }
{
    match told {
        Told::Report(told) => Emit::Report(*told),
        Told::Alert(datagram) => lent_datagram(datagram),
    }
}

fn lent_datagram(datagram: &ShortDatagram) -> Emit<'_>
    ensures emit { emit_of result ≡ short_emit datagram.now }
    ensures valid { CanWrite result }
{
    Emit::Net(datagram.group, datagram.bytes.as_slice())
}

/// Appends the sentences of each datagram, for this transmission group.
fn say_all(told: &[Told], group: Group, plain: &mut ArrayVec<ShortDatagram, MOST>)
    requires few { length told.now ≤ most_alerts }
    requires empty { map short_emit plain.old.items ≡ [] }
    ensures { map short_emit plain.new.items ≡ plain_out group (map told_emit told.now) }
{
    for told in told {
        say_one(told, group, plain);
    }
}

/// Appends the sentences of what is told, if it is a datagram.
fn say_one(told: &Told, group: Group, plain: &mut ArrayVec<ShortDatagram, MOST>)
    requires { length plain.old.items < most_alerts }
    ensures said { map short_emit plain.new.items ≡ map short_emit plain.old.items ++ plain_of group (told_emit told.now) }
    ensures few { length plain.new.items ≤ length plain.old.items + 1 }
{
    if let Told::Alert(datagram) = told {
        let mut sentences = Packet::new();
        push_sentences(datagram.bytes.as_slice(), &mut sentences);
        plain.push(short_datagram(group, sentences.as_slice()));
    }
}
