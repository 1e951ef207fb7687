//! What is wrong with the words of each program, where they ask for nothing.
use crate::words::accounts::first_bad;
use crate::words::explaining::{MORE, Rule, Wanted, explained};
use crate::words::handset::{is_show, run_command as handset_command, show_command};
use crate::words::look::look_command;
use crate::words::server::{
    OrderWord, end_command, is_second, order_command, reload_command, run_command, save_command,
    stop_command, texts_of,
};
use crate::words::sim::{is_relay, relay_command};
use clap::{Command, Error};
use std::alloc::{AllocError, Global};

const RUN: &[Rule] = &[
    ("smpp", Wanted::Port),
    ("links", Wanted::Port),
    ("centre", Wanted::Number),
    ("sessions", Wanted::Count),
    ("status", Wanted::Port),
    ("keep", Wanted::Count),
    ("log", Wanted::Log),
];

const LOOK: &[Rule] = &[
    ("id", Wanted::Message),
    ("from", Wanted::Party),
    ("to", Wanted::Party),
    ("state", Wanted::State),
    ("last", Wanted::Count),
];

const STOP: &[Rule] = &[("wait", Wanted::Count)];

const HANDSET: &[Rule] = &[
    ("connect", Wanted::Port),
    ("number", Wanted::Number),
    ("centre", Wanted::Number),
    ("slots", Wanted::Slots),
    ("frames", Wanted::Count),
    ("refuse", Wanted::Refusal),
    ("slow", Wanted::Count),
    ("full-after", Wanted::Count),
    ("drop", Wanted::Percent),
    ("seed", Wanted::Count),
];

const RELAY: &[Rule] = &[
    ("centre", Wanted::Number),
    ("from", Wanted::Number),
    ("now", Wanted::Seconds),
];

// Words that clap takes, with values that options take, and that ask for nothing even so.
fn or_other(alloc: Global, text: Option<String>, other: &str) -> Result<String, AllocError> {
    match text {
        Some(text) => Ok(text),
        None => Ok(format!(in alloc; "error: {other}{MORE}")?),
    }
}

// The place of the first word of a run that is to be an account and is none, from 1. The word has a password, so it is not repeated.
fn bad_account<'a>(alloc: Global, words: &'a [&'a str]) -> Result<Option<usize>, Error> {
    let command = run_command(alloc)?;
    let matches = command.try_get_matches_from(words)?;
    let texts = texts_of(alloc, &matches)?;
    Ok(first_bad(alloc, texts.as_slice()))
}

fn account_text<'a>(alloc: Global, words: &'a [&'a str]) -> Result<Option<String>, AllocError> {
    match bad_account(alloc, words) {
        Ok(Some(place)) => Ok(Some(format!(in alloc;
            "error: account {place} of the words is none: NAME:PASSWORD:NUMBER is wanted, of a NAME that no other has, 32 at most{MORE}"
        )?)),
        Ok(None) | Err(_) => Ok(None),
    }
}

fn run_refused<'a>(alloc: Global, words: &'a [&'a str]) -> Result<Option<String>, AllocError> {
    let command = run_command(alloc)?.override_usage(
        "smscd --store FILE --smpp PORT --links PORT --centre NUMBER [OPTIONS] [ACCOUNT]...",
    );
    match explained(alloc, command, words, RUN)? {
        Some(text) => Ok(Some(text)),
        None => account_text(alloc, words),
    }
}

fn message_refused<'a>(
    alloc: Global,
    order: OrderWord,
    usage: &'static str,
    after_program: &'a [&'a str],
) -> Result<Option<String>, AllocError> {
    let command = order_command(alloc, order)?.override_usage(usage);
    let text = explained(alloc, command, after_program, &[])?;
    Ok(Some(or_other(alloc, text, "ID is ten decimal digits, not all 0")?))
}

fn order_refused<'a>(alloc: Global, words: &'a [&'a str]) -> Result<Option<String>, AllocError> {
    if is_second(words, "stop") {
        let command = stop_command(alloc)?.override_usage(
            "smscd stop --control PATH [--wait SECONDS]",
        );
        return explained(alloc, command, &words[1..], STOP);
    }
    if is_second(words, "end") {
        let command = end_command(alloc)?.override_usage("smscd end --control PATH SEAT");
        let text = explained(alloc, command, &words[1..], &[])?;
        return Ok(Some(or_other(alloc, text, "SEAT is 0 to 31")?));
    }
    if is_second(words, "reload") {
        let command = reload_command(alloc)?.override_usage("smscd reload --control PATH");
        return explained(alloc, command, &words[1..], &[]);
    }
    if is_second(words, "retry") {
        return message_refused(
            alloc,
            OrderWord::Retry,
            "smscd retry --control PATH ID",
            &words[1..],
        );
    }
    if is_second(words, "cancel") {
        return message_refused(
            alloc,
            OrderWord::Cancel,
            "smscd cancel --control PATH ID",
            &words[1..],
        );
    }
    if is_second(words, "password") {
        let command = Command::new(alloc, "password").override_usage("smscd password");
        return explained(alloc, command, &words[1..], &[]);
    }
    run_refused(alloc, words)
}

/// What is wrong with words that ask nothing of the server, the program's own name first: the word that is wrong, and what
/// was wanted.
pub fn why_no_server_words<'a>(alloc: Global, words: &'a [&'a str]) -> Result<String, AllocError> {
    let text = if is_second(words, "show") {
        let command = look_command(alloc)?.override_usage("smscd show --store FILE [OPTIONS]");
        explained(alloc, command, &words[1..], LOOK)?
    } else if is_second(words, "save") {
        let command = save_command(alloc)?.override_usage("smscd save --store FILE --to FILE");
        explained(alloc, command, &words[1..], &[])?
    } else {
        order_refused(alloc, words)?
    };
    or_other(alloc, text, "the words ask for nothing that it does")
}

/// What is wrong with words that ask nothing of a handset, the program's own name first.
pub fn why_no_handset_words<'a>(alloc: Global, words: &'a [&'a str]) -> Result<String, AllocError> {
    let text = if words.len() > 1 && is_show(words) {
        let command = show_command(alloc)?.override_usage("handset show --store FILE");
        explained(alloc, command, &words[1..], &[])?
    } else {
        let command = handset_command(alloc)?.override_usage(
            "handset --connect PORT --number NUMBER --centre NUMBER --slots K --store FILE --frames N [OPTIONS]",
        );
        explained(alloc, command, words, HANDSET)?
    };
    or_other(alloc, text, "the words ask for nothing that it does")
}

/// What is wrong with words that ask nothing of the simulator.
pub fn why_no_sim_words<'a>(alloc: Global, words: &'a [&'a str]) -> Result<String, AllocError> {
    let text = if is_relay(words) {
        let command = relay_command(alloc)?.override_usage(
            "smsim relay --centre NUMBER --from NUMBER --now SECONDS < LINE",
        );
        explained(alloc, command, words, RELAY)?
    } else {
        None
    };
    or_other(
        alloc,
        text,
        "relay, play, ladder, ladder --svg or capture is wanted\n\nUsage: smsim relay|play|ladder|capture",
    )
}
