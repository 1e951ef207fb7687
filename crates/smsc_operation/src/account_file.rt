//! The accounts that a file spells.
//!
//! A file whose name ends in `.toml`, or that has a line `[[account]]`, has a table for each account, any other a line. No line of
//! an account is `[[account]]`, since that has no colon.
use crate::run_fault::RunFault;
use crate::store_files::public_mode_at;
use smsc_cli::words::{
    AccountWords, FileFault, PasswordWords, TableAccount, TableFault, add_lines, add_tables,
    source_of,
};
use std::alloc::Global;
use std::{fs, io};
use toml::{Table, Value};

/// Refuses a file of accounts that every user may read or write, unless the words allow that.
pub fn judge_file(host: &HostRuntime, path: &str, opens_accounts: bool) -> Result<(), RunFault> {
    match public_mode_at(host, path) {
        Some(mode) if !opens_accounts => Err(RunFault::OpenToOthers(mode)),
        _ => Ok(()),
    }
}

// ---- lines

fn lines_fault(fault: FileFault) -> RunFault {
    match fault {
        FileFault::BadLine(number) => RunFault::AccountLine(number),
        FileFault::NoMemory => RunFault::NoMemory,
    }
}

// The account as a table would have it. It has no rate, is not suspended, and gives these sources.
fn table_of<'a>(account: &AccountWords<'a>, sources: &'a [Value]) -> TableAccount<'a> {
    TableAccount {
        name: account.name,
        password: PasswordWords::Plain(account.password),
        address: account.address,
        sessions: account.sessions,
        rate: None,
        is_suspended: false,
        sources,
    }
}

fn add_line<'a>(
    accounts: &mut Vec<TableAccount<'a>>,
    account: &AccountWords<'a>,
    sources: &'a [Value],
) -> Result<(), RunFault> {
    match accounts.push(table_of(account, sources)) {
        Ok(()) => Ok(()),
        Err(_) => Err(RunFault::NoMemory),
    }
}

fn add_each<'a>(
    accounts: &mut Vec<TableAccount<'a>>,
    words: &[AccountWords<'a>],
    sources: &'a [Value],
) -> Result<(), RunFault> {
    for account in words {
        add_line(accounts, account, sources)?;
    }
    Ok(())
}

// The accounts of a file of lines, each with these sources.
fn lines_in<'a>(
    alloc: Global,
    file: &'a str,
    sources: &'a [Value],
) -> Result<Vec<TableAccount<'a>>, RunFault> {
    let mut words = Vec::new(alloc);
    add_lines(&mut words, file).map_err(lines_fault)?;
    let mut accounts = Vec::new(alloc);
    match add_each(&mut accounts, words.as_slice(), sources) {
        Ok(()) => Ok(accounts),
        Err(fault) => {
            drop(accounts);
            Err(fault)
        }
    }
}

// ---- TOML

// The line at which the account of this number begins; the last one where its table has no line of its own.
fn line_of(file: &str, number: usize) -> usize {
    let mut begun = 0usize;
    let mut at = 0usize;
    for line in file.lines() {
        at = at.saturating_add(1);
        if line.trim_start().starts_with("[[") {
            begun = begun.saturating_add(1);
        }
        if begun == number {
            return at;
        }
    }
    at
}

// How many line feeds the text has.
fn feeds_in(octets: &[u8]) -> usize {
    octets.iter().filter(|octet| **octet == b'\n').count()
}

fn toml_fault(file: &str, fault: &toml::de::Error) -> RunFault {
    let Some(span) = fault.span() else {
        return RunFault::NoMemory;
    };
    match file.as_bytes().get(..span.start) {
        Some(before) => RunFault::AccountLine(feeds_in(before).saturating_add(1)),
        None => RunFault::NoText,
    }
}

// A source that looks as if it were any with this beginning, but that no number begins with.
fn is_starred(source: &Value) -> bool {
    match source.as_str() {
        Some(text) => text.ends_with('*') && source_of(text).is_none(),
        None => false,
    }
}

fn sources_in(account: &Value) -> &[Value] {
    let Some(table) = account.as_table() else {
        return &[];
    };
    let Some(sources) = table.get("sources") else {
        return &[];
    };
    match sources.as_array() {
        Some(values) => values.as_slice(),
        None => &[],
    }
}

// The account of this number, from 1.
fn account_at<'a>(document: &'a Table, number: usize) -> Option<&'a Value> {
    let accounts = document.get("account")?.as_array()?;
    accounts.get(number.checked_sub(1)?)
}

fn bad_account(file: &str, document: &Table, number: usize) -> RunFault {
    let line = line_of(file, number);
    match account_at(document, number) {
        Some(account) if sources_in(account).iter().any(|source| is_starred(source)) => {
            RunFault::StarredSource(line)
        }
        _ => RunFault::AccountLine(line),
    }
}

fn tables_fault(file: &str, document: &Table, fault: TableFault) -> RunFault {
    match fault {
        TableFault::NoAccounts => RunFault::NoTables,
        TableFault::BadAccount(number) => bad_account(file, document, number),
        TableFault::NoMemory => RunFault::NoMemory,
    }
}

// The accounts of a file of tables.
fn tables_in<'a>(
    alloc: Global,
    file: &str,
    document: &'a Table,
) -> Result<Vec<TableAccount<'a>>, RunFault> {
    let mut accounts = Vec::new(alloc);
    match add_tables(&mut accounts, document) {
        Ok(()) => Ok(accounts),
        Err(fault) => {
            drop(accounts);
            Err(tables_fault(file, document, fault))
        }
    }
}

// ---- both

fn reading_fault(error: io::Error) -> RunFault {
    match error.kind() {
        io::ErrorKind::OutOfMemory => RunFault::NoMemory,
        io::ErrorKind::InvalidData => RunFault::NoText,
        _ => RunFault::NoAccounts(error),
    }
}

fn is_toml(path: &str, file: &str) -> bool {
    path.ends_with(".toml") || file.lines().any(|line| line.trim() == "[[account]]")
}

/// What the file spells as TOML: nothing where it has lines.
pub fn document_of(alloc: Global, path: &str, file: &str) -> Result<Table, RunFault> {
    let text = if is_toml(path, file) { file } else { "" };
    match toml::table_from_str(alloc, text) {
        Ok(document) => Ok(document),
        Err(fault) => Err(toml_fault(file, &fault)),
    }
}

/// The accounts of the file, which spells that.
pub fn accounts_in<'a>(
    alloc: Global,
    path: &str,
    file: &'a str,
    document: &'a Table,
) -> Result<Vec<TableAccount<'a>>, RunFault> {
    if is_toml(path, file) {
        tables_in(alloc, file, document)
    } else {
        lines_in(alloc, file, &[])
    }
}

/// The line at which the account of this number stands, from 1.
pub fn line_at(path: &str, file: &str, number: usize) -> usize {
    if is_toml(path, file) {
        line_of(file, number)
    } else {
        number
    }
}

/// The text of the accounts' file.
pub fn read_file(host: &HostRuntime, path: &str) -> Result<String, RunFault> {
    fs::read_to_string(host, path).map_err(reading_fault)
}
