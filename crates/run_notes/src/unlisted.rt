//! Whom of the network the gateway doesn't hear.
use crate::line::say;
use crate::pace::Pace;
use crate::shared::{Front, Shared};
use arrayvec::ArrayVec;
use capture_text::{LONGEST_LINE, write_emit};
use gate_events::{Detail, Emit, Report};
use report_rules::UNLISTED_SOURCE;
use sentence_text::Sfi;
use std::str;

/// The place of the first line of a datagram, behind its header.
const FIRST_LINE: usize = 6;

/// The end of a report, from behind its moment on, with its LF.
type End = ArrayVec<u8, 32>;

/// How many sources are named in one run.
const MOST_NAMED: usize = 32;

/// The sources of the network that were named because the configuration lists others alone.
#[derive(Drop)]
pub(crate) struct Unlisted<'a, R> {
    rt: &'a R,
    shared: &'a Shared,
    report: End,
    named: ArrayVec<Sfi, MOST_NAMED>,
    pace: Pace,
}

// The line of the report that the source of a datagram's first line isn't listed, from behind its moment on.
fn report_of_first_line() -> End {
    let report = Report {
        rule: UNLISTED_SOURCE,
        detail: Detail::At(FIRST_LINE as u16),
    };
    let mut line: ArrayVec<u8, LONGEST_LINE> = ArrayVec::new();
    write_emit(&Emit::Report(report), 0, &mut line);
    let mut end = ArrayVec::new();
    if let Some(space) = line.iter().position(|byte| *byte == b' ') {
        let _fits = end.try_extend_from_slice(&line.as_slice()[space..]);
        let _fits = end.try_push(b'\n');
    }
    end
}

// Who says the first line of a datagram, where its front has the whole TAG block.
fn source_of(front: &Front) -> Option<Sfi> {
    let line = front.bytes.get(FIRST_LINE..front.count)?;
    match tag_block::read(line) {
        Ok((tag, _)) => Some(tag.source),
        Err(_) => None,
    }
}

impl<'a, R: Eprint> Unlisted<'a, R> {
    /// None was named yet.
    pub(crate) fn new(rt: &'a R, shared: &'a Shared) -> Self {
        Unlisted {
            rt,
            shared,
            report: report_of_first_line(),
            named: ArrayVec::new(),
            pace: Pace::default(),
        }
    }

    /// A report was written. If it says that a source isn't listed, that source is named, once.
    pub(crate) fn reported(&mut self, line: &[u8]) {
        if !line.ends_with(self.report.as_slice()) {
            return;
        }
        if let Some(source) = source_of(&self.shared.last_datagram.get()) {
            self.name(source);
        }
    }

    fn name(&mut self, source: Sfi) {
        if self.named.contains(&source)
            || self.named.is_full()
            || !self.pace.allows(self.shared.now_us.get())
        {
            return;
        }
        let _fits = self.named.try_push(source);
        let name = str::from_utf8(source.as_bytes()).unwrap_or("");
        say(
            self.rt,
            &format_args!("net: {name} isn't in net.sources, so it isn't heard"),
        );
    }
}
