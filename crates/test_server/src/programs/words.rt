//! Words of a handset.
use crate::rows::holds;
use smsc_cli::words::{
    HandsetWords, Misbehaviour, Refusal, WordsFault, handset_words, misbehaviour_words,
};
use std::alloc::{AllocError, Global};
use std::test::Fail;

const WORDS: &[&str] = &[
    "handset",
    "--connect",
    "2775",
    "--number",
    "447700900456",
    "--centre",
    "447700900000",
    "--slots",
    "3",
    "--store",
    "b.store",
    "--frames",
    "8",
];

fn put_with<'a>(
    all: &mut Vec<&'a str>,
    words: &[&'a str],
    place: usize,
    word: &'a str,
) -> Result<(), AllocError> {
    let (front, rest) = words.split_at(place.min(words.len()));
    all.extend_from_slice(front)?;
    all.push(word)?;
    all.extend_from_slice(rest.get(1..).unwrap_or(&[]))
}

/// The words, with one in place of another.
pub(crate) fn with<'a>(
    alloc: Global,
    words: &[&'a str],
    place: usize,
    word: &'a str,
) -> Result<Vec<&'a str>, AllocError> {
    let mut all = Vec::new(alloc);
    put_with(&mut all, words, place, word)?;
    Ok(all)
}

// What the words are judged as.
fn judged(alloc: Global, words: &[&str]) -> &'static str {
    match handset_words(alloc, words) {
        Ok(HandsetWords::Run { .. }) => "run",
        Ok(HandsetWords::Show { .. }) => "show",
        Err(WordsFault::BadWords) => "bad",
        Err(WordsFault::NoMemory) => "no memory",
    }
}

fn says_all(alloc: Global) -> bool {
    match handset_words(alloc, WORDS) {
        Ok(
            HandsetWords::Run {
                connect,
                slots,
                store,
                frames,
                secret,
                ..
            },
        ) => {
            connect == 2775 && slots == 3 && store == "b.store" && frames == 8 && secret.is_none()
        }
        _ => false,
    }
}

const WORDS_AT: &[(usize, &str, &str)] = &[
    (2, "65535", "run"),
    (2, "0", "bad"),
    (2, "65536", "bad"),
    (2, "+1", "bad"),
    (4, "44770090045a", "bad"),
    (4, "123456789012345678901", "bad"),
    (6, "12345678901234567890", "run"),
    (8, "255", "run"),
    (8, "256", "bad"),
    (8, "0", "bad"),
    (11, "--frame", "bad"),
    (12, "0", "run"),
    (12, "4294967295", "run"),
    (12, "4294967296", "bad"),
    (12, "-1", "bad"),
];

fn is_judged(alloc: Global, place: usize, word: &str, wanted: &str) -> bool {
    match with(alloc, WORDS, place, word) {
        Ok(words) => judged(alloc, words.as_slice()) == wanted,
        Err(_) => false,
    }
}

const OTHERS: &[(&[&str], &str)] = &[
    (&[], "bad"),
    (&["handset"], "bad"),
    (&["handset", "show"], "bad"),
    (&["handset", "show", "--store", "b.store"], "show"),
    (&["handset", "show", "--store", "b.store", "more"], "bad"),
    (&["handset", "show", "--stores", "b.store"], "bad"),
    (&["handset", "--store", "b.store"], "bad"),
];

#[test]
fn words_are_judged(rt: HostRuntime) -> Result<(), Fail> {
    holds(says_all(rt.alloc()), "six options")?;
    for (place, word, wanted) in WORDS_AT {
        holds(is_judged(rt.alloc(), *place, word, wanted), word)?;
    }
    for (words, wanted) in OTHERS {
        holds(judged(rt.alloc(), words) == *wanted, wanted)?;
    }
    Ok(())
}

// The words of a run, and those two.
fn words_and<'a>(
    alloc: Global,
    option: &'a str,
    value: &'a str,
) -> Result<Vec<&'a str>, AllocError> {
    let mut all = Vec::new(alloc);
    all.extend_from_slice(WORDS)?;
    all.push(option)?;
    all.push(value)?;
    Ok(all)
}

const NOTHING: Misbehaviour = Misbehaviour {
    refuses: None,
    slow: None,
    full_after: None,
    is_silent: false,
    drops: None,
    seed: None,
};

fn refuses(cause: u8, count: Option<u32>) -> Misbehaviour {
    Misbehaviour {
        refuses: Some(Refusal { cause, count }),
        ..NOTHING
    }
}

// What a handset is to do wrong.
#[derive(Clone, Copy)]
enum Wrong {
    // It refuses with that cause, so often or always.
    Refuses(u8, Option<u32>),
    // So many of a hundred frames are lost.
    Drops(u8),
    BadWords,
}

fn is_wrong(judged: Result<Misbehaviour, WordsFault>, wanted: &Wrong) -> bool {
    match wanted {
        Wrong::Refuses(cause, count) => judged == Ok(refuses(*cause, *count)),
        Wrong::Drops(drops) => {
            judged
                == Ok(Misbehaviour {
                    drops: Some(*drops),
                    ..NOTHING
                })
        }
        Wrong::BadWords => judged == Err(WordsFault::BadWords),
    }
}

fn are_wrong(alloc: Global, option: &str, value: &str, wanted: &Wrong) -> bool {
    match words_and(alloc, option, value) {
        Ok(words) => is_wrong(misbehaviour_words(alloc, words.as_slice()), wanted),
        Err(_) => false,
    }
}

const WRONGS: &[(&str, &str, Wrong)] = &[
    ("--refuse", "27", Wrong::Refuses(27, None)),
    ("--refuse", "127:3", Wrong::Refuses(127, Some(3))),
    ("--drop", "100", Wrong::Drops(100)),
    ("--refuse", "128", Wrong::BadWords),
    ("--refuse", "27:", Wrong::BadWords),
    ("--refuse", ":1", Wrong::BadWords),
    ("--refuse", "27:1:1", Wrong::BadWords),
    ("--drop", "101", Wrong::BadWords),
    ("--slow", "a", Wrong::BadWords),
    ("--full-after", "-1", Wrong::BadWords),
    ("--seed", "4294967296", Wrong::BadWords),
    ("--silent", "1", Wrong::BadWords),
];

#[test]
fn wrongs_are_asked_for(rt: HostRuntime) -> Result<(), Fail> {
    for (option, value, wanted) in WRONGS {
        holds(are_wrong(rt.alloc(), option, value, wanted), value)?;
    }
    Ok(())
}
