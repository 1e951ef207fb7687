//! Words of the server, and lines of its accounts' file.
use crate::programs::words::with;
use crate::rows::holds;
use sms_base::MessageId;
use smsc_cli::words::{
    AccountWords, FileFault, LogDetail, OrderWord, ServerRun, ServerWords, WordsFault, add_lines,
    server_words, why_no_server_words,
};
use std::alloc::Global;
use std::test::Fail;

const WORDS: &[&str] = &[
    "smscd",
    "--store",
    "c.store",
    "--smpp",
    "2775",
    "--links",
    "2776",
    "--centre",
    "447700900000",
    "--sessions",
    "2",
    "app1:secret:447700900001",
];

// What a run's words say of messages that have ended.
fn run_of(run: &ServerRun<'_>) -> &'static str {
    match (run.keep, run.archive) {
        (None, None) => "run",
        (Some(7), Some("a")) => "run for 7 days",
        _ => "run for others",
    }
}

fn order_of(order: OrderWord, id: MessageId) -> &'static str {
    match (order, id.number()) {
        (OrderWord::Retry, 17) => "retry",
        (OrderWord::Cancel, 17) => "cancel",
        _ => "order of another",
    }
}

// What the words ask for.
fn asked(words: &ServerWords<'_>) -> &'static str {
    match words {
        ServerWords::Run(run, _) => run_of(run),
        ServerWords::Show { .. } => "show",
        ServerWords::Save { .. } => "save",
        ServerWords::Stop {
            control: "c",
            wait: None,
        } => "stop",
        ServerWords::Stop {
            control: "c",
            wait: Some(40),
        } => "stop in 40",
        ServerWords::Stop { .. } => "stop of another",
        ServerWords::End {
            control: "c",
            seat: 31,
        } => "end",
        ServerWords::End { .. } => "end of another",
        ServerWords::Reload { control: "c" } => "reload",
        ServerWords::Reload { .. } => "reload of another",
        ServerWords::Order {
            control: "c",
            order,
            id,
        } => order_of(*order, *id),
        ServerWords::Order { .. } => "order of another",
        ServerWords::Password => "password",
    }
}

// What the words are judged as.
fn judged(alloc: Global, words: &[&str]) -> &'static str {
    match server_words(alloc, words) {
        Ok(words) => asked(&words),
        Err(WordsFault::BadWords) => "bad",
        Err(WordsFault::NoMemory) => "no memory",
    }
}

fn is_written(words: &ServerWords<'_>) -> bool {
    match words {
        ServerWords::Run(run, accounts) => {
            run.store == "c.store"
                && run.smpp == 2775
                && run.links == 2776
                && run.sessions == Some(2)
                && run.accounts.is_none()
                && run.control.is_none()
                && run.status.is_none()
                && run.keep.is_none()
                && run.archive.is_none()
                && !run.is_ahead
                && !run.begins_anew
                && !run.accepts_loss
                && !run.opens_accounts
                && run.log == LogDetail::Runs
                && is_account(accounts.as_slice())
        }
        _ => false,
    }
}

fn is_account(accounts: &[AccountWords<'_>]) -> bool {
    match accounts {
        [account] => {
            account.name == "app1" && account.password == "secret" && account.sessions == 4
        }
        _ => false,
    }
}

const WORDS_AT: &[(usize, &str, &str)] = &[
    (4, "1", "run"),
    (4, "65535", "run"),
    (4, "0", "bad"),
    (4, "65536", "bad"),
    (4, "+1", "bad"),
    (6, "65535", "run"),
    (6, "0", "bad"),
    (6, "65536", "bad"),
    (6, "", "bad"),
    (8, "12345678901234567890", "run"),
    (8, "123456789012345678901", "bad"),
    (8, "44770090000a", "bad"),
    (8, "", "bad"),
    (10, "0", "run"),
    (10, "4294967295", "run"),
    (10, "4294967296", "bad"),
    (10, "-1", "bad"),
    (10, "two", "bad"),
    (9, "--session", "bad"),
    (11, "app1::447700900001", "run"),
    (11, "123456789012345:12345678:1", "run"),
    (11, "1234567890123456:secret:1", "bad"),
    (11, ":secret:447700900001", "bad"),
    (11, "app1:123456789:447700900001", "bad"),
    (11, "app1:se:cret:447700900001", "bad"),
    (11, "app1:secret:", "bad"),
    (11, "app1:secret:447700900001:1", "run"),
    (11, "app1:secret:447700900001:32", "run"),
    (11, "app1:secret:447700900001:0", "bad"),
    (11, "app1:secret:447700900001:33", "bad"),
    (11, "app1:secret:447700900001:256", "bad"),
    (11, "app1:secret:447700900001:", "bad"),
    (11, "app1:secret:447700900001:+4", "bad"),
    (11, "app1:secret:447700900001:4:4", "bad"),
    (11, "app1:secret::4", "bad"),
    (11, "app1:secret", "bad"),
    (11, "app1", "bad"),
    (11, "äpp:secret:447700900001", "bad"),
    (11, "--accounts", "bad"),
];

fn is_judged(alloc: Global, words: &[&str], place: usize, word: &str, wanted: &str) -> bool {
    match with(alloc, words, place, word) {
        Ok(words) => judged(alloc, words.as_slice()) == wanted,
        Err(_) => false,
    }
}

const OTHERS: &[(&[&str], &str)] = &[
    (&[], "bad"),
    (&["smscd"], "bad"),
    (&["smscd", "show"], "bad"),
    (&["smscd", "show", "--store", "c.store"], "show"),
    (&["smscd", "show", "--store", "c.store", "more"], "bad"),
    (&["smscd", "show", "--last", "4", "--store", "a"], "show"),
    (&["smscd", "show", "--last", "-4", "--store", "a"], "bad"),
    (&["smscd", "show", "--last", "4"], "bad"),
    (
        &["smscd", "show", "--store", "a", "--id", "0000000004"],
        "show",
    ),
    (&["smscd", "show", "--store", "a", "--id", "4"], "bad"),
    (
        &["smscd", "show", "--store", "a", "--id", "0000000000"],
        "bad",
    ),
    (
        &["smscd", "show", "--store", "a", "--state", "EXPIRED"],
        "show",
    ),
    (
        &["smscd", "show", "--store", "a", "--state", "expired"],
        "bad",
    ),
    (&["smscd", "show", "--store", "a", "--from", "Bank"], "show"),
    (&["smscd", "show", "--store", "a", "--from", ""], "bad"),
    (
        &[
            "smscd",
            "show",
            "--store",
            "a",
            "--to",
            "123456789012345678901",
        ],
        "bad",
    ),
    (&["smscd", "--store", "c.store"], "bad"),
    (
        &[
            "smscd", "--store", "c", "--smpp", "1", "--links", "2", "--centre", "1",
        ],
        "run",
    ),
    (
        &[
            "smscd",
            "--store",
            "c",
            "--smpp",
            "1",
            "--links",
            "2",
            "--centre",
            "1",
            "--keep",
            "7",
            "--archive",
            "a",
        ],
        "run for 7 days",
    ),
    (
        &[
            "smscd", "--store", "c", "--smpp", "1", "--links", "2", "--centre", "1", "--keep", "-7",
        ],
        "bad",
    ),
    (&["smscd", "save", "--store", "a"], "bad"),
    (&["smscd", "save", "--to", "b", "--store", "a"], "save"),
    (&["smscd", "stop"], "bad"),
    (&["smscd", "stop", "--control", "c"], "stop"),
    (
        &["smscd", "stop", "--wait", "40", "--control", "c"],
        "stop in 40",
    ),
    (
        &["smscd", "stop", "--control", "c", "--wait", "soon"],
        "bad",
    ),
    (&["smscd", "stop", "--control", "c", "--wait"], "bad"),
    (&["smscd", "stop", "--control", "c", "more"], "bad"),
    (&["smscd", "end", "--control", "c"], "bad"),
    (&["smscd", "end", "31"], "bad"),
    (&["smscd", "end", "31", "--control", "c"], "end"),
    (&["smscd", "end", "--control", "c", "31", "32"], "bad"),
    (&["smscd", "end", "--control", "c", "--seat", "31"], "bad"),
    (&["smscd", "end", "--control", "c", "-1"], "bad"),
    (&["smscd", "reload"], "bad"),
    (&["smscd", "reload", "--control", "c"], "reload"),
    (&["smscd", "reload", "--control", "c", "more"], "bad"),
    (&["smscd", "reload", "c"], "bad"),
    (&["smscd", "retry", "--control", "c"], "bad"),
    (&["smscd", "retry", "0000000017"], "bad"),
    (&["smscd", "retry", "0000000017", "--control", "c"], "retry"),
    (
        &["smscd", "cancel", "--control", "c", "0000000017"],
        "cancel",
    ),
    (&["smscd", "retry", "--control", "c", "17"], "bad"),
    (&["smscd", "cancel", "--control", "c", "0000000000"], "bad"),
    (
        &[
            "smscd",
            "cancel",
            "--control",
            "c",
            "0000000017",
            "0000000018",
        ],
        "bad",
    ),
    (&["smscd", "password"], "password"),
    (&["smscd", "password", "secret"], "bad"),
    (
        &[
            "smscd",
            "a::1",
            "--sessions",
            "1",
            "--centre",
            "1",
            "b::1",
            "--links",
            "2",
            "--smpp",
            "1",
            "--accounts",
            "f",
            "--store",
            "c",
        ],
        "run",
    ),
    (
        &[
            "smscd",
            "--store",
            "c",
            "--smpp",
            "1",
            "--links",
            "2",
            "--centre",
            "1",
            "--sessions",
            "1",
            "a:x:1",
            "b::1",
            "a:y:2",
        ],
        "bad",
    ),
    (
        &[
            "smscd",
            "--store",
            "c",
            "--store",
            "d",
            "--smpp",
            "1",
            "--links",
            "2",
            "--centre",
            "1",
            "--sessions",
            "1",
        ],
        "bad",
    ),
];

// A run with 33 accounts.
const MANY: &[&str] = &[
    "smscd",
    "--store",
    "c",
    "--smpp",
    "1",
    "--links",
    "2",
    "--centre",
    "1",
    "--sessions",
    "1",
    "a::1",
    "b::1",
    "c::1",
    "d::1",
    "e::1",
    "f::1",
    "g::1",
    "h::1",
    "i::1",
    "j::1",
    "k::1",
    "l::1",
    "m::1",
    "n::1",
    "o::1",
    "p::1",
    "q::1",
    "r::1",
    "s::1",
    "t::1",
    "u::1",
    "v::1",
    "w::1",
    "x::1",
    "y::1",
    "z::1",
    "A::1",
    "B::1",
    "C::1",
    "D::1",
    "E::1",
    "F::1",
    "G::1",
];

// With so many of its words.
const COUNTS: &[(usize, &str)] = &[(11, "run"), (12, "run"), (43, "run"), (44, "bad")];

// How many accounts a file has, if all its lines are accounts and no two have one name; else the number of the first that is none.
fn in_file(alloc: Global, file: &str) -> Result<usize, usize> {
    let mut accounts = Vec::new(alloc);
    match add_lines(&mut accounts, file) {
        Ok(()) => Ok(accounts.len()),
        Err(FileFault::BadLine(number)) => Err(number),
        Err(FileFault::NoMemory) => Err(0),
    }
}

const FILES: &[(&str, Result<usize, usize>)] = &[
    ("", Ok(0)),
    ("app1:secret:447700900001\n", Ok(1)),
    ("app1:secret:447700900001\napp2::1", Ok(2)),
    ("app1:secret:447700900001\n\n", Err(2)),
    ("app1:secret:447700900001\napp1::1\n", Err(2)),
    ("app1:secret:447700900001 \n", Err(1)),
    ("app1:secret:447700900001\r\napp2::1\r\n", Ok(2)),
    ("app1:secret:447700900001\napp2::1\r", Err(2)),
    ("app1:secret:447700900001:2\r\napp2::1:32\n", Ok(2)),
    ("app1:secret:447700900001:2\napp2::1:33\n", Err(2)),
];

// How many sessions the account of a line may have; 0 where it is none.
fn sessions_in(alloc: Global, line: &str) -> u8 {
    let mut accounts = Vec::new(alloc);
    match add_lines(&mut accounts, line) {
        Ok(()) => match accounts.as_slice() {
            [account] => account.sessions,
            _ => 0,
        },
        Err(_) => 0,
    }
}

const LIMITS: &[(&str, u8)] = &[
    ("app1:secret:447700900001", 4),
    ("app1:secret:447700900001:1", 1),
    ("app1:secret:447700900001:4", 4),
    ("app1:secret:447700900001:32", 32),
    ("app1::1:007", 7),
];

// A run whose rows may be ahead, that ends by an order, that has a status page, and whose log has lines of messages.
const WHOLE: &[&str] = &[
    "smscd",
    "--log",
    "messages",
    "--store",
    "c.store",
    "--smpp",
    "2775",
    "--ahead",
    "--accept-loss",
    "--accounts-open",
    "--links",
    "2776",
    "--control",
    "c.control",
    "--status",
    "8080",
    "--centre",
    "447700900000",
];

fn is_whole(words: &ServerWords<'_>) -> bool {
    match words {
        ServerWords::Run(run, _) => {
            run.control == Some("c.control")
                && run.status == Some(8080)
                && run.is_ahead
                && run.accepts_loss
                && run.opens_accounts
                && !run.begins_anew
                && run.log == LogDetail::Messages
                && run.sessions.is_none()
        }
        _ => false,
    }
}

// What words ask for.
#[derive(Clone, Copy)]
enum Meaning {
    // What was written, without four options.
    Written,
    // What was written, with four options more.
    Whole,
    // A log that has the ends of messages alone.
    Ends,
    // What waits, by handset.
    ByHandset,
    // Messages.
    Messages,
}

fn is_of_ends(words: &ServerWords<'_>) -> bool {
    match words {
        ServerWords::Run(run, _) => run.log == LogDetail::Access,
        _ => false,
    }
}

fn is_by_handset(words: &ServerWords<'_>, wanted: bool) -> bool {
    match words {
        ServerWords::Show { by_handset, .. } => *by_handset == wanted,
        _ => false,
    }
}

fn is_asked(words: &ServerWords<'_>, asked: Meaning) -> bool {
    match asked {
        Meaning::Written => is_written(words),
        Meaning::Whole => is_whole(words),
        Meaning::Ends => is_of_ends(words),
        Meaning::ByHandset => is_by_handset(words, true),
        Meaning::Messages => is_by_handset(words, false),
    }
}

fn ask(alloc: Global, words: &[&str], asked: Meaning) -> bool {
    match server_words(alloc, words) {
        Ok(words) => is_asked(&words, asked),
        Err(_) => false,
    }
}

const ASKED: &[(&[&str], Meaning, &str)] = &[
    (WORDS, Meaning::Written, "five options and an account"),
    (WHOLE, Meaning::Whole, "four more options"),
    (
        &[
            "smscd", "--store", "c", "--smpp", "1", "--links", "2", "--centre", "1", "--log",
            "access",
        ],
        Meaning::Ends,
        "the log's word",
    ),
    (
        &[
            "smscd",
            "show",
            "--stuck",
            "--store",
            "c",
            "--to",
            "447700900456",
        ],
        Meaning::ByHandset,
        "by handset",
    ),
    (
        &["smscd", "show", "--store", "c"],
        Meaning::Messages,
        "messages",
    ),
];

#[test]
fn server_words_say_what_was_written(rt: HostRuntime) -> Result<(), Fail> {
    for (words, asked, name) in ASKED {
        holds(ask(rt.alloc(), words, *asked), name)?;
    }
    Ok(())
}

// The words of a whole run with one in place of another: its log has no other lines, and its status page has a port.
const WHOLE_AT: &[(usize, &str, &str)] = &[
    (2, "texts", "bad"),
    (15, "0", "bad"),
    (15, "65536", "bad"),
    (15, "80a", "bad"),
    (15, "", "bad"),
    (15, "-1", "bad"),
];

fn are_judged(alloc: Global, words: &[&str], rows: &[(usize, &str, &str)]) -> Result<(), Fail> {
    for (place, word, wanted) in rows {
        holds(is_judged(alloc, words, *place, word, wanted), word)?;
    }
    Ok(())
}

#[test]
fn server_words_are_judged(rt: HostRuntime) -> Result<(), Fail> {
    are_judged(rt.alloc(), WORDS, WORDS_AT)?;
    are_judged(rt.alloc(), WHOLE, WHOLE_AT)?;
    for (words, wanted) in OTHERS {
        holds(judged(rt.alloc(), words) == *wanted, wanted)?;
    }
    for (count, wanted) in COUNTS {
        let words = &MANY[..(*count).min(MANY.len())];
        holds(judged(rt.alloc(), words) == *wanted, wanted)?;
    }
    Ok(())
}

// What is said of words that ask for nothing.
const WHY: &[(&[&str], &str)] = &[
    (
        &["smscd", "--stor", "c"],
        "error: unexpected argument '--stor' found",
    ),
    (
        &[
            "smscd", "--store", "c", "--smpp", "0", "--links", "2", "--centre", "1",
        ],
        "error: invalid value '0' for '--smpp': a port is 1 to 65535\n",
    ),
    (
        &[
            "smscd", "--store", "c", "--smpp", "1", "--links", "2", "--centre", "1", "--log",
            "texts",
        ],
        "error: invalid value 'texts' for '--log': messages or access is wanted\n",
    ),
    (
        &[
            "smscd", "--store", "c", "--smpp", "1", "--links", "2", "--centre", "1", "a:b:1",
            "c:secret",
        ],
        "error: account 2 of the words is none: NAME:PASSWORD:NUMBER is wanted",
    ),
    (
        &["smscd", "show", "--store", "c", "--state", "expired"],
        "error: invalid value 'expired' for '--state': ENROUTE, DELIVRD, EXPIRED, DELETED or UNDELIV is wanted\n",
    ),
    (
        &["smscd", "stop", "--control", "c", "--wait", "soon"],
        "error: invalid value 'soon' for '--wait': 0 to 4294967295 is wanted\n",
    ),
    (
        &["smscd", "end", "--control", "c", "-1"],
        "error: unexpected argument '-1' found",
    ),
];

// Whether it is said so, and no password is repeated.
fn is_said(alloc: Global, words: &[&str], wanted: &str) -> bool {
    match why_no_server_words(alloc, words) {
        Ok(text) => text.as_str().starts_with(wanted) && !text.as_str().contains("secret"),
        Err(_) => false,
    }
}

#[test]
fn bad_words_accounts_and_files_are_judged(rt: HostRuntime) -> Result<(), Fail> {
    for (words, wanted) in WHY {
        holds(is_said(rt.alloc(), words, wanted), wanted)?;
    }
    for (line, wanted) in LIMITS {
        holds(sessions_in(rt.alloc(), line) == *wanted, line)?;
    }
    for (file, wanted) in FILES {
        holds(in_file(rt.alloc(), file) == *wanted, file)?;
    }
    Ok(())
}
