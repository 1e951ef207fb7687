//! Why the work was not done, as a line and a status.
use sms_handset::machine::StartError;
use sms_rows::keep::KeepError;
use smsc_cli::words::{WordsFault, why_no_handset_words};
use std::alloc::Global;
use std::io::{self, Print};
use thiserror::Error;

/// How the program is used.
pub(crate) const USAGE: &str =
    "usage: handset --connect PORT --number NUMBER --centre NUMBER --slots K --store FILE --frames N [OPTIONS] < LINES\n\
    \u{20}      handset show --store FILE\n\
    \u{20}      handset --help | --version\n\
    \n\
    a run, until N frames came or the link closes:\n\
    \u{20}  --connect PORT         the centre's port for links, of 127.0.0.1\n\
    \u{20}  --number NUMBER        its own number, 1 to 20 digits\n\
    \u{20}  --centre NUMBER        the centre's\n\
    \u{20}  --slots K              its store has room for 1 to 255 parts\n\
    \u{20}  --store FILE           its store; made where there is none\n\
    \u{20}  --frames N             so many frames\n\
    \u{20}  --secret FILE          its secret, where the centre wants one\n\
    what it does wrong on purpose:\n\
    \u{20}  --refuse CAUSE[:COUNT] it refuses offers with that cause, 0 to 127: COUNT of them, or all\n\
    \u{20}  --slow SECONDS         it looks at an offer so much later\n\
    \u{20}  --full-after N         it takes N offers, and is full then (cause 22)\n\
    \u{20}  --silent               it takes offers and never answers\n\
    \u{20}  --drop PERCENT         so many of a hundred frames get lost, to it and from it\n\
    \u{20}  --seed N               which ones\n\
    \n\
    LINES are `write NUMBER REPORT HEX` (REPORT 0 or 1, HEX the text in UTF-8), `delete ENTRY`, `discard ENTRY`\n\
    \n\
    example:\n\
    \u{20}  handset --connect 2776 --number 447700900456 --centre 447700900000 --slots 10 --store reader.store --frames 100 < /dev/null\n";

/// Why the work was not done.
#[derive(Debug, Drop, Error)]
pub(crate) enum Failure {
    /// The words ask for nothing: this is wrong with them.
    #[error("{0}")]
    Words(String),
    #[error("the words are no text")]
    NoText,
    /// The owner's line of that number, from 1.
    #[error("line {0}: bad line")]
    BadLine(u64),
    #[error("out of memory")]
    NoMemory,
    /// The store refused, for any cause but want of memory.
    #[error("{0}")]
    Store(KeepError),
    /// Nothing can be looked at.
    #[error("no store: {0}")]
    NoStore(io::Error),
    /// The secret's file can't be read.
    #[error("the secret can't be read: {0}")]
    Secret(io::Error),
    /// The secret's file has none.
    #[error("the secret's file is no line of 1 to 64 visible ASCII characters")]
    NoSecret,
    /// The rows of the store could not have been left by a handset.
    #[error("the rows of the store are not sound")]
    BadRows,
    #[error("no connection: {0}")]
    Connecting(io::Error),
    /// Standard input or output.
    #[error("standard input or output failed: {0}")]
    Standard(io::Error),
    /// The centre sent octets that are no frames.
    #[error("the centre sends no frames")]
    Link,
}

impl Failure {
    /// The exit status.
    pub(crate) fn status(&self) -> u8 {
        match self {
            Failure::Words(_) | Failure::NoText | Failure::BadLine(_) | Failure::NoSecret => 2,
            Failure::NoMemory => 3,
            Failure::Store(_) | Failure::NoStore(_) | Failure::BadRows => 4,
            Failure::Connecting(_) | Failure::Standard(_) | Failure::Link | Failure::Secret(_) => 5,
        }
    }
}

impl From<KeepError> for Failure {
    fn from(error: KeepError) -> Failure {
        match error {
            KeepError::NoMemory => Failure::NoMemory,
            _ => Failure::Store(error),
        }
    }
}

impl From<StartError> for Failure {
    fn from(error: StartError) -> Failure {
        match error {
            StartError::BadRows => Failure::BadRows,
            StartError::NoMemory => Failure::NoMemory,
            StartError::Store(error) => Failure::from(error),
        }
    }
}

/// Why words are refused that ask nothing of a handset.
pub(crate) fn words_failure(alloc: Global, words: &[&str], fault: WordsFault) -> Failure {
    match fault {
        WordsFault::BadWords => match why_no_handset_words(alloc, words) {
            Ok(text) => Failure::Words(text),
            Err(_) => Failure::NoMemory,
        },
        WordsFault::NoMemory => Failure::NoMemory,
    }
}

/// Says on standard error why the work was not done.
pub(crate) fn print_failure(rt: &HostRuntime, failure: &Failure) -> io::Result<()> {
    match failure {
        Failure::Words(text) => eprint!(rt; "{text}"),
        // A refusal of the store has its code before its text.
        Failure::Store(error) => eprint!(rt; "handset: {}: {error}\n", error.code()),
        other => eprint!(rt; "handset: {other}\n"),
    }
}
