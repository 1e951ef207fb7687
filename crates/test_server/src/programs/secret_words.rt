//! The words for secrets of links, and the files that have them.
use crate::rows::holds;
use smsc_cli::words::{
    FileFault, HandsetWords, ServerWords, add_secret_lines, handset_words, secret_in, server_words,
};
use std::alloc::{AllocError, Global};
use std::test::Fail;

const SERVER: &[&str] = &[
    "smscd",
    "--store",
    "c.store",
    "--smpp",
    "2775",
    "--links",
    "2776",
    "--centre",
    "447700900000",
    "--sessions",
    "2",
    "--link-secrets",
    "links.secrets",
];

const HANDSET: &[&str] = &[
    "handset",
    "--connect",
    "2776",
    "--number",
    "447700900456",
    "--centre",
    "447700900000",
    "--slots",
    "3",
    "--store",
    "b.store",
    "--frames",
    "8",
    "--secret",
    "b.secret",
];

fn server_has(alloc: Global, words: &[&str], wanted: Option<&str>) -> bool {
    match &server_words(alloc, words) {
        Ok(ServerWords::Run(run, _)) => run.link_secrets == wanted && run.accounts.is_none(),
        _ => false,
    }
}

fn handset_has(alloc: Global, words: &[&str], wanted: Option<&str>) -> bool {
    match handset_words(alloc, words) {
        Ok(HandsetWords::Run { secret, .. }) => secret == wanted,
        _ => false,
    }
}

#[test]
fn secrets_are_in_files(rt: HostRuntime) -> Result<(), Fail> {
    let alloc = rt.alloc();
    holds(server_has(alloc, SERVER, Some("links.secrets")), "a server")?;
    holds(server_has(alloc, &SERVER[..11], None), "without secrets")?;
    holds(handset_has(alloc, HANDSET, Some("b.secret")), "a handset")?;
    holds(handset_has(alloc, &HANDSET[..13], None), "without a secret")?;
    holds(server_words(alloc, &SERVER[..12]).is_err(), "no path")?;
    holds(handset_words(alloc, &HANDSET[..14]).is_err(), "no path")
}

// How many numbers a file has secrets for, if all its lines are a number and a secret and no number is there twice; else the number of the
// first that is none.
fn in_file(alloc: Global, file: &str) -> Result<usize, usize> {
    let mut secrets = Vec::new(alloc);
    match add_secret_lines(&mut secrets, file) {
        Ok(()) => Ok(secrets.len()),
        Err(FileFault::BadLine(number)) => Err(number),
        Err(FileFault::NoMemory) => Err(0),
    }
}

const FILES: &[(&str, Result<usize, usize>)] = &[
    ("", Ok(0)),
    ("447700900456:Pa55word!\n", Ok(1)),
    ("447700900456:Pa55word!\n1:x", Ok(2)),
    ("447700900456:Pa55word!\r\n1:x\r\n", Ok(2)),
    ("12345678901234567890:a:b:c\n", Ok(1)),
    (
        "1:1234567890123456789012345678901234567890123456789012345678901234\n",
        Ok(1),
    ),
    (
        "1:12345678901234567890123456789012345678901234567890123456789012345\n",
        Err(1),
    ),
    ("447700900456:Pa55word!\n\n", Err(2)),
    ("1:x\n2:y\n1:z\n", Err(3)),
    ("1:x\n1:x\n", Err(2)),
    ("1:x\n2\n", Err(2)),
    ("1:x\n2:\n", Err(2)),
    ("1:x\n:y\n", Err(2)),
    ("1:x\n2:y z\n", Err(2)),
    ("1:x\n2: y\n", Err(2)),
    ("1:x\n2 :y\n", Err(2)),
    ("1:x\n2:\u{e9}\n", Err(2)),
    ("1:x\n2:\u{7f}\n", Err(2)),
    ("1:x\n+2:y\n", Err(2)),
    ("1:x\n2a:y\n", Err(2)),
    ("123456789012345678901:x\n", Err(1)),
    ("1:x\r", Err(1)),
];

// The only line of a file, where it is a secret.
const LINES: &[(&str, Option<&str>)] = &[
    ("Pa55word!", Some("Pa55word!")),
    ("Pa55word!\n", Some("Pa55word!")),
    ("Pa55word!\r\n", Some("Pa55word!")),
    ("!", Some("!")),
    ("", None),
    ("\n", None),
    ("Pa55word!\n\n", None),
    ("Pa55word!\nPa55word!\n", None),
    (" Pa55word!\n", None),
    ("Pa55 word!\n", None),
    ("Pa55w\u{f6}rd!\n", None),
    (
        "12345678901234567890123456789012345678901234567890123456789012345\n",
        None,
    ),
];

// So many lines, each with a number of its own.
fn many(alloc: Global, count: usize) -> Result<String, AllocError> {
    let mut file = String::new(alloc);
    for number in 0..count {
        let line = format!(in alloc; "{number}:x\n")?;
        file.push_str(line.as_str())?;
    }
    Ok(file)
}

// A thousand numbers are the most.
fn are_many(alloc: Global, count: usize, wanted: Result<usize, usize>) -> bool {
    match many(alloc, count) {
        Ok(file) => in_file(alloc, file.as_str()) == wanted,
        Err(_) => false,
    }
}

#[test]
fn files_have_secrets(rt: HostRuntime) -> Result<(), Fail> {
    let alloc = rt.alloc();
    for (file, wanted) in FILES {
        holds(in_file(alloc, file) == *wanted, file)?;
    }
    for (file, wanted) in LINES {
        holds(secret_in(file) == *wanted, file)?;
    }
    holds(are_many(alloc, 1000, Ok(1000)), "a thousand numbers")?;
    holds(are_many(alloc, 1001, Err(1001)), "one too many")
}
