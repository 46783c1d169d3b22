//! A line of standard error.
use std::fmt::Display;

/// Says a line. Where standard error is closed, nobody is there to be told.
pub(crate) fn say(rt: &impl Eprint, said: &impl Display) {
    let _ = eprintln!(rt; "shipgate: {said}");
}
