//! The words of the command line.
ghost use Rattle.std.specs.Prelude.{[], ◌∷◌, map, MatchOption, string_bytes};
ghost use Rattle.command_line.specs.Words.{AreTurnsOf, IsForm, IsNoDemo, IsNoForm, IsNoServe, IsSaid};

use crate::numerals::number_between;

/// The greatest seed of a demonstration.
pub const MOST_SEED: u64 = 999_999_999_999_999_999;

/// How many events a demonstration has at most.
pub const MOST_EVENTS: u64 = 1_000_000;

/// How many turns a gateway between two links takes at most.
pub const MOST_TURNS: u64 = 999_999_999;

/// A command that answers each line of a capture by itself.
#[derive(Clone, Copy)]
pub enum LineCommand {
    /// The sentences of each frame.
    Convert,
    /// What each line says, in plain numbers.
    Show,
}

/// A command of the program.
#[derive(Clone, Copy)]
pub enum Command<'a> {
    /// Reads a capture and writes a text for each of its lines.
    Lines(LineCommand),
    /// Says whether the file of this name is an accepted configuration, or the first thing that is wrong with it.
    Check(&'a str),
    /// Runs a gateway of the configuration in the file of this name over a capture.
    Replay(&'a str),
    /// Runs a gateway of a configuration between two links, for so many turns.
    Serve {
        /// The name of the file that the configuration stands in.
        file: &'a str,
        /// From 1 to 999,999,999.
        turns: u32,
    },
    /// Runs a gateway over so many events of the made-up input of a seed, and writes a line that sums up what it emits.
    Demo {
        /// At most 999,999,999,999,999,999.
        seed: u64,
        /// From 1 to 1,000,000.
        count: u32,
    },
}

/// What is written where the words are no command.
pub const USAGE: &[u8] =
    b"usage: shipgate convert | show | check CONFIG | replay CONFIG | serve CONFIG TURNS | demo SEED COUNT\n";

/// The command that the words name, without the program's own name; none where they are no command.
pub fn command_of(words: &[String]) -> Option<Command<'_>>
    ensures { MatchOption result (IsNoForm (map string_bytes words.now)) (IsForm (map string_bytes words.now)) }
{
    match words {
        [word] => command_of_one(word.as_str()),
        [word, file] => command_of_two(word.as_str(), file.as_str()),
        [word, first, second] => command_of_three(word.as_str(), first.as_str(), second.as_str()),
        _ => None,
    }
}

/// The command of one word.
fn command_of_one(word: &str) -> Option<Command<'static>>
    ensures { MatchOption result (IsNoForm (word.now ∷ [])) (IsForm (word.now ∷ [])) }
{
    if word == "convert" {
        Some(Command::Lines(LineCommand::Convert))
    } else if word == "show" {
        Some(Command::Lines(LineCommand::Show))
    } else {
        None
    }
}

/// The command of a word and the name of a file.
fn command_of_two<'a>(word: &'a str, file: &'a str) -> Option<Command<'a>>
    ensures { MatchOption result (IsNoForm (word.now ∷ file.now ∷ [])) (IsForm (word.now ∷ file.now ∷ [])) }
{
    if word == "check" {
        Some(Command::Check(file))
    } else if word == "replay" {
        Some(Command::Replay(file))
    } else {
        None
    }
}

/// The command of a word and what two words behind it say.
fn command_of_three<'a>(word: &str, first: &'a str, second: &str) -> Option<Command<'a>>
    ensures { MatchOption result (IsNoForm (word.now ∷ first.now ∷ second.now ∷ [])) (IsForm (word.now ∷ first.now ∷ second.now ∷ [])) }
{
    if word == "demo" {
        demo_of(first, second)
    } else if word == "serve" {
        serve_of(first, second)
    } else {
        None
    }
}

/// The demonstration of which these words are the seed and the number of events.
fn demo_of(seed: &str, count: &str) -> Option<Command<'static>>
    ensures { MatchOption result (IsNoDemo seed.now count.now) (IsSaid seed.now count.now) }
{
    let seed = number_between(seed, 0, MOST_SEED);
    let count = number_between(count, 1, MOST_EVENTS);
    match (seed, count) {
        (Some(seed), Some(count)) => Some(Command::Demo {
            seed,
            count: count as u32,
        }),
        _ => None,
    }
}

/// The gateway between two links of which these words are the configuration's file and the number of turns.
fn serve_of<'a>(file: &'a str, turns: &str) -> Option<Command<'a>>
    ensures { MatchOption result (IsNoServe turns.now) (AreTurnsOf file.now turns.now) }
{
    match number_between(turns, 1, MOST_TURNS) {
        Some(turns) => Some(Command::Serve {
            file,
            turns: turns as u32,
        }),
        None => None,
    }
}
