//! Accounts in TOML.
use crate::rows::holds;
use smsc_cli::words::{PasswordWords, TableAccount, TableFault, add_tables};
use std::alloc::Global;
use std::test::Fail;
use toml::Table;

const HASH: &str = "0123456789abcdef0123456789abcdef0123456789abcdef0123456789ABCDEF";

// What becomes of the text of a file, where it is TOML: how many accounts it adds, or why it adds none.
fn judged(alloc: Global, text: &str) -> Option<Result<usize, TableFault>> {
    let file = toml::table_from_str(alloc, text).ok()?;
    let mut accounts = Vec::new(alloc);
    match add_tables(&mut accounts, &file) {
        Ok(()) => Some(Ok(accounts.len())),
        Err(fault) => Some(Err(fault)),
    }
}

const FIRST: &str = "[[account]]\nname = \"app1\"\nnumber = \"447700900001\"\n";

const SECOND: &str = "[[account]]\nname = \"app2\"\nnumber = \"2\"\npassword = \"\"\n";

// What stands behind the first account's name and number, and how many accounts there are then, with the second one behind it; none where it
// is a bad account.
const MORE: &[(&str, bool)] = &[
    ("password = \"secret\"", true),
    ("password = \"12345678\"", true),
    ("password = \"123456789\"", false),
    ("password = \"caf\u{e9}\"", false),
    ("password = 5", false),
    ("", false),
    ("password = \"a\"\nsessions = 1", true),
    ("password = \"a\"\nsessions = 32", true),
    ("password = \"a\"\nsessions = 33", false),
    ("password = \"a\"\nsessions = 0", false),
    ("password = \"a\"\nsessions = -1", false),
    ("password = \"a\"\nsessions = \"4\"", false),
    ("password = \"a\"\nrate = 1", true),
    ("password = \"a\"\nrate = 1000000", true),
    ("password = \"a\"\nrate = 1000001", false),
    ("password = \"a\"\nrate = 0", false),
    ("password = \"a\"\nrate = 4294967297", false),
    ("password = \"a\"\nsuspended = false", true),
    ("password = \"a\"\nsuspended = \"true\"", false),
    ("password = \"a\"\nsalt = \"b\"", false),
    ("password = \"a\"\nlimit = 4", false),
    (
        "password = \"a\"\nsources = [\"447700900002\", \"4477*\", \"Bank\"]",
        true,
    ),
    ("password = \"a\"\nsources = []", false),
    ("password = \"a\"\nsources = [5]", false),
    ("password = \"a\"\nsources = [\"\"]", false),
    ("password = \"a\"\nsources = [\"*\"]", false),
    ("password = \"a\"\nsources = [\"Bank*\"]", false),
    ("password = \"a\"\nsources = [\"B*nk\"]", true),
    ("password = \"a\"\nsources = [\"TwelveLetter\"]", false),
    ("salt = \"b\"", false),
];

fn is_so(alloc: Global, more: &str, is_good: bool) -> bool {
    let wanted: Result<usize, TableFault> = if is_good {
        Ok(2)
    } else {
        Err(TableFault::BadAccount(1))
    };
    match format!(in alloc; "{FIRST}{more}\n{SECOND}") {
        Ok(text) => judged(alloc, text.as_str()) == Some(wanted),
        Err(_) => false,
    }
}

// Whole files.
const FILES: &[(&str, Result<usize, TableFault>)] = &[
    ("", Ok(0)),
    ("[[accounts]]\n", Err(TableFault::NoAccounts)),
    ("account = 5\n", Err(TableFault::NoAccounts)),
    ("account = [5]\n", Err(TableFault::BadAccount(1))),
    (
        "account = [{name = \"a\", number = \"1\", password = \"\"}, {name = \"a\", number = \"2\", password = \"\"}]\n",
        Err(TableFault::BadAccount(2)),
    ),
];

fn is_salted(account: &TableAccount<'_>) -> bool {
    match account.password {
        PasswordWords::Salted { salt, digest } => {
            salt == "grain" && digest[0] == 0x01 && digest[7] == 0xEF && digest[31] == 0xEF
        }
        PasswordWords::Plain(_) => false,
    }
}

fn says_all(alloc: Global, file: &Table) -> bool {
    let mut accounts = Vec::new(alloc);
    match (add_tables(&mut accounts, file), accounts.as_slice()) {
        (Ok(()), [account]) => {
            account.name == "app1"
                && is_salted(account)
                && account.sessions == 8
                && account.rate == Some(50)
                && account.is_suspended
        }
        _ => false,
    }
}

fn says_all_in(alloc: Global, text: &str) -> bool {
    match toml::table_from_str(alloc, text) {
        Ok(file) => says_all(alloc, &file),
        Err(_) => false,
    }
}

// A salted account with each value.
fn is_salted_account_read(alloc: Global) -> bool {
    match format!(in alloc;
        "{FIRST}salt = \"grain\"\nhash = \"{HASH}\"\nsessions = 8\nrate = 50\nsuspended = true\n"
    ) {
        Ok(text) => says_all_in(alloc, text.as_str()),
        Err(_) => false,
    }
}

#[test]
fn tables_are_judged(rt: HostRuntime) -> Result<(), Fail> {
    for (more, is_good) in MORE {
        holds(is_so(rt.alloc(), more, *is_good), more)?;
    }
    for (text, wanted) in FILES {
        holds(judged(rt.alloc(), text) == Some(*wanted), text)?;
    }
    holds(
        is_salted_account_read(rt.alloc()),
        "each value is the written one",
    )
}
