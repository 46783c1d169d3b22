//! Who says plain sentences: how often a stream is passed on.
ghost use Rattle.std.specs.Prelude.{◌≡◌, ◌-◌, nat_le, IfOk};
ghost use Rattle.plain_out.specs.Pace.{is_due, opened_voice, passing};

use crate::places::Places;
use crate::stream::{STREAMS, Stream};
use sentence_text::Group;
use std::alloc::{AllocError, Global};
use std::marker::Model;

/// A datagram that was passed on.
#[derive(Drop)]
struct Last {
    /// In microseconds.
    moment: u64,
    places: Places,
}

/// Who says plain sentences.
#[derive(Drop)]
pub struct Voice {
    /// The transmission group that they are sent to.
    group: Group,
    /// How long a stream pauses, in microseconds.
    every: u64,
    /// The last datagram of each stream that was passed on; nothing is kept where no stream pauses.
    lasts: Vec<Option<Last>>,
}

impl Model for Voice {
    ghost use Rattle.plain_out.specs.Pace.{Voice as Kept};

    ghost Value = { Kept };

    ghost view = { λ v. record { group = v.group; every = v.every; lasts = v.lasts.items } };
}

impl Voice {
    /// For this transmission group, where a stream pauses for so many microseconds. Nothing was said yet.
    pub fn new(alloc: Global, group: Group, every: u64) -> Result<Voice, AllocError>
        ensures { IfOk result (λ v. v ≡ opened_voice group every) }
    {
        let streams = if every == 0 { 0 } else { STREAMS };
        let mut lasts = Vec::with_capacity(alloc, streams)?;
        for _ in 0..streams {
            lasts.push(None)?;
        }
        Ok(Voice {
            group,
            every,
            lasts,
        })
    }

    /// The transmission group.
    pub fn group(&self) -> Group
        ensures { result ≡ self.now.group }
    {
        self.group
    }

    /// Whether a datagram is passed on at this moment, which is kept then.
    pub(crate) fn passes(&mut self, moment: u64, stream: Option<Stream>, datagram: &[u8]) -> bool
        ensures after { self.new ≡ (passing self.old moment stream datagram.now).after }
        ensures passes { result ≡ (passing self.old moment stream datagram.now).passes }
    {
        let Some(stream) = stream else {
            return true;
        };
        let number = stream.number();
        let Some(last) = self.lasts.get(number) else {
            return true;
        };
        let places = Places::of(datagram);
        let due = is_due(self.every, moment, &places, last);
        if due {
            self.lasts[number] = Some(Last { moment, places });
        }
        due
    }
}

/// Whether a datagram of these fields is passed on at this moment, behind the last of its stream.
fn is_due(every: u64, moment: u64, places: &Places, last: &Option<Last>) -> bool
    ensures { result ≡ is_due every moment places.now last.now }
{
    match last {
        None => true,
        Some(last) => is_over(every, moment, last) || last.places.loses(places),
    }
}

/// Whether the pause behind a datagram is over at this moment.
fn is_over(every: u64, moment: u64, last: &Last) -> bool
    ensures { result ≡ nat_le every (moment - last.now.moment) }
{
    moment.saturating_sub(last.moment) >= every
}
