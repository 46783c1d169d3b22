//! Which word of the command line isn't one, and what the commands are.
use crate::line::say;
use command_line::{MOST_EVENTS, MOST_SEED, MOST_TURNS, number_between};

/// The program's version, and the kit that proved it: as README.md has them.
pub(crate) const VERSION: &str = "shipgate 1.0.0, built with rattle-kit-13f logic dac8208d650f15bf";

/// What the commands are, for who gave words that are none.
const COMMANDS: &str =
    "  convert             a capture from standard input; its single-frame messages as sentences
  show                a capture from standard input; what each of its lines holds
  check CONFIG        a configuration; whether it is accepted, or what is wrong with it
  replay CONFIG       a configuration, and a capture from standard input; all that the gateway would have sent and reported
  serve CONFIG TURNS  a configuration, and two links over UDP; the gateway's reports, each at once
  demo SEED COUNT     nothing; a line that sums up a run of the gateway over a made-up input
Each writes to standard output. Statuses: 0 done, 2 no command, 3 the configuration is refused, 4 a write failed, 5 a read failed, 6 the configuration can't be read, 7 no memory to begin with, 8 more than 2^40 bytes of input, 9 a link can't be attached. The manual is shipgate.1.";

/// A word behind a command's name.
struct Parameter {
    name: &'static str,
    /// The least and the greatest number that it may be; none for the name of a file.
    range: Option<(u64, u64)>,
}

/// A command's name, and the words that follow it.
struct Form {
    name: &'static str,
    parameters: &'static [Parameter],
}

const CONFIG: Parameter = Parameter {
    name: "CONFIG",
    range: None,
};

const TURNS: Parameter = Parameter {
    name: "TURNS",
    range: Some((1, MOST_TURNS)),
};

const SEED: Parameter = Parameter {
    name: "SEED",
    range: Some((0, MOST_SEED)),
};

const COUNT: Parameter = Parameter {
    name: "COUNT",
    range: Some((1, MOST_EVENTS)),
};

static FORMS: [Form; 6] = [
    Form {
        name: "convert",
        parameters: &[],
    },
    Form {
        name: "show",
        parameters: &[],
    },
    Form {
        name: "check",
        parameters: &[CONFIG],
    },
    Form {
        name: "replay",
        parameters: &[CONFIG],
    },
    Form {
        name: "serve",
        parameters: &[CONFIG, TURNS],
    },
    Form {
        name: "demo",
        parameters: &[SEED, COUNT],
    },
];

/// Which word isn't one, and what the commands are; or the version alone, for who asks for it.
pub(crate) fn explain_words(rt: &impl Eprint, words: &[String]) {
    let said = match words {
        [_, word, ..] if matches!(word.as_str(), "--version" | "-V") => VERSION,
        _ => {
            explain_wrong(rt, words);
            COMMANDS
        }
    };
    let _ = eprintln!(rt; "{said}");
}

// Which word isn't one.
fn explain_wrong(rt: &impl Eprint, words: &[String]) {
    match words {
        [] => say(rt, &"one of the words isn't UTF-8"),
        [_] => say(rt, &"there is no command"),
        [_, word, rest @ ..] => match form_of(word.as_str()) {
            Some(form) => explain_parameters(rt, form, rest),
            None => say(rt, &format_args!("{word} is no command")),
        },
    }
}

// The form of the command of a name.
fn form_of(name: &str) -> Option<&'static Form> {
    for form in &FORMS {
        if form.name == name {
            return Some(form);
        }
    }
    None
}

// Which of the words behind a command's name isn't one.
fn explain_parameters(rt: &impl Eprint, form: &Form, words: &[String]) {
    let mut words = words.iter();
    for parameter in form.parameters {
        match words.next() {
            Some(word) if is_taken(rt, word.as_str(), parameter) => {}
            Some(_) => return,
            None => {
                say(rt, &format_args!("{} lacks {}", form.name, parameter.name));
                return;
            }
        }
    }
    if let Some(word) = words.next() {
        say(
            rt,
            &format_args!("{} takes no word more: {word}", form.name),
        );
    }
}

// Whether a word is one that may stand there. Says why it isn't.
fn is_taken(rt: &impl Eprint, word: &str, parameter: &Parameter) -> bool {
    let Some((least, most)) = parameter.range else {
        return true;
    };
    let taken = number_between(word, least, most).is_some();
    if !taken {
        let name = parameter.name;
        say(
            rt,
            &format_args!(
                "{word} is no {name}: digits alone, from {least} to {most}, without a leading zero"
            ),
        );
    }
    taken
}
