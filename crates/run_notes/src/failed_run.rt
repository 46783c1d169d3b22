//! What is said of a run that didn't do its work: why, and where words are no command, what the commands are.
use crate::line::say;
use crate::reasons::{file_reason, reason_of, write_reason};
use crate::unattached::explain_links;
use crate::words::explain_words;
use command_line::Status;
use live_outside::Unattached;
use std::alloc::AllocError;
use std::io::ErrorKind;

/// What the outside kept of a run that failed.
#[derive(Drop)]
pub struct Kept<'a> {
    /// All words of the process, or none where one of them isn't UTF-8.
    pub words: Vec<String>,
    /// Why the configuration's file gave no bytes.
    pub unread: Option<ErrorKind>,
    /// Why a write failed.
    pub unwritten: Option<ErrorKind>,
    /// Why the bus link couldn't be attached.
    pub bus: Option<&'a Unattached>,
    /// Why the network link couldn't be attached.
    pub net: Option<&'a Unattached>,
}

/// Says why a run ended with a status that isn't 0. Where standard error is closed too, the status says it.
pub fn explain_run(rt: &impl Eprint, ended: &Result<u8, AllocError>, kept: &Kept<'_>) {
    let status = match ended {
        Ok(number) => Status::of(*number).unwrap_or(Status::Done),
        Err(AllocError) => {
            say(rt, &"there is no memory to begin with");
            return;
        }
    };
    match status {
        Status::NoCommand => explain_words(rt, kept.words.as_slice()),
        Status::SinkFailed => explain_write(rt, kept.unwritten),
        Status::Unread => explain_file(rt, kept.words.as_slice(), kept.unread),
        Status::Unattached => explain_links(rt, kept),
        _ => {
            if let Some(why) = reason_of(status) {
                say(rt, &why);
            }
        }
    }
}

// Why standard output wasn't written.
fn explain_write(rt: &impl Eprint, unwritten: Option<ErrorKind>) {
    if let Some(reason) = write_reason(unwritten) {
        say(rt, &format_args!("the output{reason}"));
    }
}

// What is wrong with the configuration's file, which the third word names.
fn explain_file(rt: &impl Eprint, words: &[String], unread: Option<ErrorKind>) {
    let file = match words {
        [_, _, file, ..] => file.as_str(),
        _ => "",
    };
    let reason = file_reason(unread);
    say(rt, &format_args!("the configuration {file}{reason}"));
}
