//! Cuts an input that comes in pieces into its lines, within fixed memory.
ghost use Rattle.std.specs.Prelude.{◌≡◌, ◌+◌, ◌<◌, ◌≤◌, true, length, take, drop, slice_index, IfOk, MatchOption};
ghost use Rattle.capture_text.specs.Lines.{without_cr};
ghost use Rattle.gate_outside.specs.Faults.{HasCause};
ghost use Rattle.capture_stream.specs.LineReader.{HasNoLf, ReadsBehind, usual_end};

use capture_text::{LONGEST_LINE, usual_frame};
use gate_outside::{Failed, Source};
use memchr::memchr;
use n2k_id::Frame;
use std::marker::Model;

/// How many bytes are held, and so read at once, at most.
const PIECE: usize = 65536;

/// Where the LF of the usual line stands.
const USUAL_END: usize = 50;

/// What `advance` found.
#[derive(Clone, Copy)]
pub(crate) enum Next {
    /// A line as nearly all are laid out, with its moment and its frame. `line` lends it.
    Usual { moment: u64, frame: Frame },
    /// A line, which `line` lends.
    Line,
    /// A line longer than any may be. It was passed over.
    Long,
    /// No LF yet: more of the input is needed.
    Unfinished,
}

// Whether an LF stands where that of the usual line does.
fn has_usual_end(bytes: &[u8]) -> bool
    ensures { result ≡ true → (usual_end < length bytes.now) × (slice_index bytes.now usual_end ≡ 10) }
{
    bytes.len() > USUAL_END && bytes[USUAL_END] == b'\n'
}

// Where the first LF stands.
#[tactic(auto, using(crate::proofs::FirstLf::first_lf))]
fn first_lf(bytes: &[u8]) -> Option<usize>
    ensures { MatchOption result (HasNoLf bytes.now) (λ at.
        (at < length bytes.now) × (slice_index bytes.now at ≡ 10) × HasNoLf (take at bytes.now)) }
{
    memchr(b'\n', bytes)
}

// The length of a line whose bytes up to its LF are these: a CR at the end is no part of it.
fn line_len(bytes: &[u8]) -> usize
    ensures bound { result ≤ length bytes.now }
    ensures line { take result bytes.now ≡ without_cr bytes.now }
{
    let len = bytes.len();
    if len > 0 && bytes[len - 1] == b'\r' {
        len - 1
    } else {
        len
    }
}

// The bytes from a place on, moved to the front.
fn move_to_front(buffer: &mut [u8], from: usize, count: usize)
    requires { from + count ≤ length buffer.old }
    ensures { take count buffer.new ≡ take count (drop from buffer.old) }
{
    for i in 0..count {
        buffer[i] = buffer[from + i];
    }
}

// How many bytes are read at once, where there is room for some and no more than so many may come.
fn piece_len(room: usize, most: u64) -> usize
    requires room { 0 < room }
    requires most { 0 < most }
    ensures some { 0 < result }
    ensures within { result ≤ room }
    ensures most { result ≤ most }
{
    if most < room as u64 {
        most as usize
    } else {
        room
    }
}

// Reads into the buffer, behind its first bytes and no more than so many.
fn read_behind<S: Source>(
    buffer: &mut [u8],
    count: usize,
    most: u64,
    input: &mut S,
) -> Result<usize, Failed>
    requires room { count < length buffer.old }
    requires some { 0 < most }
    ensures bytes { ReadsBehind (S.left input.old) (S.left input.new) (take count buffer.old) buffer.new count result }
    ensures most { IfOk result (λ read. read ≤ most) }
    ensures cause { HasCause (S.fault_count input.old) (S.fault_count input.new) result }
{
    let piece = piece_len(buffer.len() - count, most);
    input.read(&mut buffer[count..count + piece])
}

/// The bytes of an input that were read and not yet given as lines.
#[derive(Drop)]
pub(crate) struct LineReader {
    buffer: [u8; PIECE],
    /// Where the line that was taken last lies.
    line_start: usize,
    line_end: usize,
    /// Where the bytes behind it lie.
    start: usize,
    end: usize,
    /// Whether the line that has begun is too long already, and its bytes are passed over.
    skipping: bool,
}

impl Model for LineReader {
    ghost use Rattle.std.specs.Prelude.{◌-◌, ◌≤◌, take, drop};
    ghost use Rattle.capture_stream.specs.LineReader.{buffer_size, Held};

    ghost Value = { Held };

    ghost view = { λ r. record {
      line = take (r.line_end - r.line_start) (drop r.line_start r.buffer);
      unread = take (r.end - r.start) (drop r.start r.buffer);
      skipping = r.skipping;
    } };

    ghost invariant = { λ r. (r.line_start ≤ r.line_end) × (r.line_end ≤ buffer_size) × (r.start ≤ r.end) × (r.end ≤ buffer_size) };
}

impl LineReader {
    ghost use Rattle.std.specs.Prelude.{◌≡◌, ◌<◌, ◌≤◌, [], true, false, ◌||◌, nat_lt, if◌then◌else◌, length, take, drop, IfOk, IfSome};
    ghost use Rattle.gate_outside.specs.Faults.{HasCause};
    ghost use Rattle.capture_text.specs.Capture.{longest_line};
    ghost use Rattle.capture_stream.specs.LineReader.{buffer_size, most_unread, Advances, BeginsUsual, Finishes, Fills};

    pub(crate) fn new() -> Self
        ensures { result ≡ record { line = []; unread = []; skipping = false } }
    {
        LineReader {
            buffer: [0; PIECE],
            line_start: 0,
            line_end: 0,
            start: 0,
            end: 0,
            skipping: false,
        }
    }

    /// The line that `advance` or `finish` took last, without its line end.
    pub(crate) fn line(&self) -> &[u8]
        ensures { result.now ≡ self.now.line }
    {
        &self.buffer[self.line_start..self.line_end]
    }

    /// Takes the next line that has come whole. Nearly every line is read as the usual one where it lies, and so needs no search for its end.
    #[inline(always)]
    pub(crate) fn advance(&mut self) -> Next
        ensures { Advances self.old self.new result }
    {
        match self.usual() {
            Some((moment, frame)) => {
                let _line = self.take_line(USUAL_END, USUAL_END + 1);
                Next::Usual { moment, frame }
            }
            None => self.search(),
        }
    }

    // The moment and the frame of the usual line, where the unread bytes begin with one and its LF.
    #[inline(always)]
    fn usual(&self) -> Option<(u64, Frame)>
        ensures { IfSome result (λ t. BeginsUsual self.now t.0 t.1) }
    {
        let unread = self.unread();
        if self.skipping || !has_usual_end(unread) {
            return None;
        }
        usual_frame(&unread[..USUAL_END])
    }

    // Takes the next line that has come whole, wherever it ends.
    #[inline(never)]
    fn search(&mut self) -> Next
        ensures { Advances self.old self.new result }
    {
        let unread = self.unread();
        match first_lf(unread) {
            Some(at) => {
                let len = line_len(&unread[..at]);
                self.take_line(len, at + 1)
            }
            None => {
                self.drop_excess();
                Next::Unfinished
            }
        }
    }

    /// Takes what follows the last LF as a line, at the end of the input.
    pub(crate) fn finish(&mut self) -> Next
        ensures { Finishes self.old self.new result }
    {
        let unread = self.unread();
        let len = line_len(unread);
        let count = unread.len();
        self.take_line(len, count)
    }

    fn unread(&self) -> &[u8]
        ensures { result.now ≡ self.now.unread }
    {
        &self.buffer[self.start..self.end]
    }

    // Takes a line of this length, which lies with its line end in so many bytes.
    fn take_line(&mut self, len: usize, count: usize) -> Next
        requires line { len ≤ count }
        requires within { count ≤ length self.old.unread }
        ensures line { self.new.line ≡ take len self.old.unread }
        ensures rest { self.new.unread ≡ drop count self.old.unread }
        ensures starts { self.new.skipping ≡ false }
        ensures answer { result ≡ (if self.old.skipping || nat_lt longest_line len then Next.Long else Next.Line) }
    {
        let long = self.skipping || len > LONGEST_LINE;
        self.line_start = self.start;
        self.line_end = self.start + len;
        self.start += count;
        self.skipping = false;
        if long { Next::Long } else { Next::Line }
    }

    // Passes over the bytes of a line that is too long already.
    fn drop_excess(&mut self)
        ensures kept { length self.old.unread ≤ most_unread → self.new ≡ self.old }
        ensures dropped { most_unread < length self.old.unread → (self.new.unread ≡ []) × (self.new.skipping ≡ true) }
    {
        if self.end - self.start > LONGEST_LINE + 1 {
            self.start = self.end;
            self.skipping = true;
        }
    }

    /// Reads more of the input, no more than so many bytes, and answers how many came: none at its end.
    pub(crate) fn fill<S: Source>(&mut self, most: u64, input: &mut S) -> Result<usize, Failed>
        requires room { length self.old.unread ≤ most_unread }
        requires some { 0 < most }
        ensures bytes { Fills (S.left input.old) (S.left input.new) self.old self.new result }
        ensures most { IfOk result (λ count. count ≤ most) }
        ensures cause { HasCause (S.fault_count input.old) (S.fault_count input.new) result }
    {
        let count = self.end - self.start;
        move_to_front(&mut self.buffer, self.start, count);
        self.line_start = 0;
        self.line_end = 0;
        self.start = 0;
        self.end = count;
        let read = read_behind(&mut self.buffer, count, most, input)?;
        self.end = count + read;
        Ok(read)
    }
}
