use crate::rows::holds;
use sms_base::Address;
use smsc_cli::words::{SimWords, WordsFault, sim_words};
use std::alloc::Global;
use std::test::Fail;

fn digits(address: &Address, text: &str) -> bool {
    address.digits.as_slice().iter().copied().eq(text.chars())
}

fn asks(alloc: Global, words: &[&str], centre: &str, from: &str, now: u64) -> bool {
    match sim_words(alloc, words) {
        Ok(
            SimWords::Relay {
                centre: of_centre,
                from: of_sender,
                now: at,
            },
        ) => digits(&of_centre, centre) && digits(&of_sender, from) && at.seconds() == now,
        Err(_) => false,
    }
}

const WORDS: &[&str] = &[
    "relay",
    "--centre",
    "447700900000",
    "--from",
    "447700900123",
    "--now",
    "1709251198",
];

// A moment behind the year 2099, a letter in a number, and words that lack some.
const BAD: &[&[&str]] = &[
    &[
        "relay",
        "--centre",
        "447700900000",
        "--from",
        "447700900123",
        "--now",
        "4102444800",
    ],
    &[
        "relay",
        "--centre",
        "44770090000a",
        "--from",
        "447700900123",
        "--now",
        "1709251198",
    ],
    &["relay", "--centre", "1"],
    &["play"],
    &[],
];

fn are_bad(alloc: Global, words: &[&str]) -> bool {
    match sim_words(alloc, words) {
        Err(WordsFault::BadWords) => true,
        _ => false,
    }
}

#[test]
fn words_are_read(rt: HostRuntime) -> Result<(), Fail> {
    holds(
        asks(
            rt.alloc(),
            WORDS,
            "447700900000",
            "447700900123",
            1_709_251_198,
        ),
        "a relay run",
    )?;
    for words in BAD {
        holds(are_bad(rt.alloc(), words), "bad words")?;
    }
    Ok(())
}
