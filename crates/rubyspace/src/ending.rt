// What standard error is told of an end.
use std::io::{Eprint, Error};

/// The status where memory was lacking at the opening.
pub const NO_MEMORY: u8 = 1;

/// The status where the words are no command, or aren't UTF-8.
pub const REFUSED: u8 = 2;

// Why the program ends with this status, and what to do; nothing for status 0.
fn reason(status: u8) -> Option<(&'static str, &'static str)> {
    let reason = match status {
        1 => (
            "out of memory before anything was read or written",
            "nothing is answered; try again with more memory",
        ),
        2 => (
            "these words are no command",
            "usage: rubyspace replay [--pages N] < TRACE, with N from 1 to 4096",
        ),
        3 => (
            "a line is malformed or has more than 4096 bytes",
            "the last line of the output has its number, and README.md the grammar",
        ),
        4 => (
            "the input can't be read",
            "each whole line before that is answered",
        ),
        5 => (
            "the output can't be written",
            "the answers break off there; try again with a place that takes them all",
        ),
        6 => (
            "2^32 bytes were read, the most of one trace",
            "each whole line of them is answered; cut the trace in two",
        ),
        _ => return None,
    };
    Some(reason)
}

// Says in one line on standard error why the program ends with this status, with the system's reason where there is one. Where standard
// error can't be written, nothing is said.
pub fn say_why<R: Eprint>(rt: &R, status: u8, error: Option<Error>) {
    let Some((cause, advice)) = reason(status) else {
        return;
    };
    let _ = match error {
        Some(error) => eprintln!(rt; "rubyspace: {cause}: {error}; {advice}"),
        None => eprintln!(rt; "rubyspace: {cause}; {advice}"),
    };
}
