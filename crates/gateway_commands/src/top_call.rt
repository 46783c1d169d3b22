//! The top call: words in, a status out.
ghost use Rattle.std.specs.Prelude.{◌≡◌, ◌↔◌, ◌⊎◌, ℕ, List, map, string_bytes};
ghost use Rattle.gate_outside.specs.Faults.{Rose};
ghost use Rattle.config_check.specs.Check.{ChecksBy};
ghost use Rattle.gateway_commands.specs.DemoCommand.{DemosBy};
ghost use Rattle.line_commands.specs.LineCommand.{AreTextsOf};
ghost use Rattle.serving.specs.Served.{outside};
ghost use Rattle.gateway_commands.specs.ReplayCommand.{ReplaysBy};
ghost use Rattle.gateway_commands.specs.ServeCommand.{ServesBy};
ghost use Rattle.command_line.specs.Words.{AreNumbers, IsNoForm, IsNotServe, IsTurns, line_words, check_words, replay_words, serve_words, demo_words, usage_line};
ghost use Rattle.command_line.specs.Statuses.{Offers, IsEarly, IsStatus, IsStreamStatus, EndsBy, IsUnhindered, SteadyBy};

use crate::demo_command::demo;
use crate::replay_command::replay;
use crate::serve_command::serve;
use capture_stream::send_now;
use command_line::{Command, LineCommand, Status, USAGE, command_of};
use config_check::check;
use gate_outside::{Clock, Files, Link, Sink, Source};
use line_commands::answer_lines;
use std::alloc::Global;

/// Runs the command that the words name, without the program's own name, and answers its status.
///
/// | Status | Where |
/// |---|---|
/// | 0 | the work is done: the input was read to its end, and all of its text was written; or it was written that a configuration is accepted; or all turns between two links were taken; or the line of a demonstration was written |
/// | 2 | exactly where the words are no command; the usage line was offered to the sink |
/// | 3 | exactly where the configuration's file was loaded and is refused; the line of its first fault was offered to the sink |
/// | 4 | only where the sink's faults rose in this run; what was written is some front of the text, and of turns between two links the first items went out |
/// | 5 | only where the source's faults rose in this run; the text of the complete lines was written |
/// | 6 | only where the files' faults rose in this run, or the configuration's file has more than 1 MiB; nothing was read, received, sent or written |
/// | 7 | only in `check`, `replay`, `serve` and `demo`, for want of memory before the first event; nothing was read, received, sent or written |
/// | 8 | exactly where more than 2^40 bytes were read, and no call failed before |
/// | 9 | only in `serve`, where a link can't be attached, whose faults rose; nothing was received, sent or written |
///
/// Of 4, 5 and 8 the first call that fails decides: with 0 and 8 no read and no write failed, with 4 no read did, and with 5 no write.
pub fn run<F: Files, S: Source, K: Sink, B: Link, E: Link, C: Clock>(
    alloc: Global,
    words: &[String],
    files: &mut F,
    input: &mut S,
    out: &mut K,
    bus: &mut B,
    net: &mut E,
    clock: &mut C,
) -> u8
    ensures status { IsStatus result }

    // What each status says of the file, and of the bytes that were read and written.
    ensures usage { (result ≡ 2) ↔ IsNoForm (map string_bytes words.now) }
    ensures offers { result ≡ 2
        → Offers (K.taken out.old) (K.taken out.new) (K.fault_count out.old) (K.fault_count out.new) usage_line }
    ensures ends { (command : LineCommand) → map string_bytes words.now ≡ line_words command
        → IsStreamStatus result × EndsBy (AreTextsOf command) (S.left input.old) (S.left input.new) (K.taken out.old) (K.taken out.new) result }
    ensures checks { (file : List ℕ) → map string_bytes words.now ≡ check_words file
        → ChecksBy (F.content files.old file) (F.fault_count files.old) (F.fault_count files.new)
        (K.taken out.old) (K.taken out.new) (K.fault_count out.old) (K.fault_count out.new) result }
    ensures replays { (file : List ℕ) → map string_bytes words.now ≡ replay_words file
        → ReplaysBy (F.content files.old file) (F.fault_count files.old) (F.fault_count files.new)
        (S.left input.old) (S.left input.new) (S.fault_count input.old) (S.fault_count input.new)
        (K.taken out.old) (K.taken out.new) (K.fault_count out.old) (K.fault_count out.new) result }
    ensures serves { (turns : ℕ) (file second : List ℕ) → map string_bytes words.now ≡ serve_words file second → IsTurns turns second
        → ServesBy turns (F.content files.old file) (F.fault_count files.old) (F.fault_count files.new) (C.readings clock.old) (C.readings clock.new)
        (B.fault_count bus.old) (B.fault_count bus.new) (E.fault_count net.old) (E.fault_count net.new)
        (outside (B.traffic bus.old) (E.traffic net.old) (K.taken out.old) (K.fault_count out.old))
        (outside (B.traffic bus.new) (E.traffic net.new) (K.taken out.new) (K.fault_count out.new)) result }
    ensures demos { (seed count : ℕ) (first second : List ℕ) → map string_bytes words.now ≡ demo_words first second → AreNumbers seed count first second
        → DemosBy seed count (K.taken out.old) (K.taken out.new) (K.fault_count out.old) (K.fault_count out.new) result }

    // A failure has its cause in a count of faults, and of 4, 5 and 8 the first call that fails decides.
    ensures sink_cause { result ≡ 4 → Rose (K.fault_count out.old) (K.fault_count out.new) }
    ensures source_cause { result ≡ 5 → Rose (S.fault_count input.old) (S.fault_count input.new) }
    ensures steady { SteadyBy (S.fault_count input.old) (S.fault_count input.new) (K.fault_count out.old) (K.fault_count out.new) result }
    ensures link_cause { result ≡ 9 → Rose (B.fault_count bus.old) (B.fault_count bus.new) ⊎ Rose (E.fault_count net.old) (E.fault_count net.new) }

    // What the command doesn't use stands as before: source and files where the words are no command and in `demo`, the source in
    // `check` and `serve`, the files in the commands over lines, and links and clock in all but `serve`. So do source, links and clock where
    // there are no settings, and the sink where there is nothing to say of it.
    ensures unused { result ≡ 2 → (input.new ≡ input.old) × (files.new ≡ files.old) }
    ensures files_unused { (command : LineCommand) → map string_bytes words.now ≡ line_words command → files.new ≡ files.old }
    ensures source_unused { (file : List ℕ) → map string_bytes words.now ≡ check_words file → input.new ≡ input.old }
    ensures input_unused { (file second : List ℕ) → map string_bytes words.now ≡ serve_words file second → input.new ≡ input.old }
    ensures both_unused { (first second : List ℕ) → map string_bytes words.now ≡ demo_words first second
        → (input.new ≡ input.old) × (files.new ≡ files.old) }
    ensures bus_unused { IsNotServe (map string_bytes words.now) → bus.new ≡ bus.old }
    ensures net_unused { IsNotServe (map string_bytes words.now) → net.new ≡ net.old }
    ensures clock_unused { IsNotServe (map string_bytes words.now) → clock.new ≡ clock.old }
    ensures refused { result ≡ 3 → (input.new ≡ input.old) × (bus.new ≡ bus.old) × (net.new ≡ net.old) × (clock.new ≡ clock.old) }
    ensures early { IsEarly result
        → (input.new ≡ input.old) × (out.new ≡ out.old) × (bus.new ≡ bus.old) × (net.new ≡ net.old) × (clock.new ≡ clock.old) }
    ensures unattached { result ≡ 9 → (input.new ≡ input.old) × (out.new ≡ out.old) × (clock.new ≡ clock.old) }

    // Where nothing fails and the input isn't too long, the work is done; of the other commands their own clauses say it.
    ensures complete { (command : LineCommand) → map string_bytes words.now ≡ line_words command
        → IsUnhindered (S.left input.old) (S.fault_count input.old) (S.fault_count input.new) (K.fault_count out.old) (K.fault_count out.new)
        → result ≡ 0 }
{
    match command_of(words) {
        None => {
            // The words decide the status, whatever becomes of the line.
            let _ = send_now(USAGE, out);
            Status::NoCommand.number()
        }
        Some(Command::Lines(command)) => answer_lines(command, input, out).number(),
        Some(Command::Check(file)) => check(alloc, file, files, out).number(),
        Some(Command::Replay(file)) => replay(alloc, file, files, input, out).number(),
        Some(Command::Serve { file, turns }) => {
            serve(alloc, file, turns, files, out, bus, net, clock).number()
        }
        Some(Command::Demo { seed, count }) => demo(alloc, seed, count, out).number(),
    }
}
