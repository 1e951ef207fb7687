//! The accounts of a run, from its words and from their file.
use crate::setup::RunAccounts;
use smsc_cli::words::{AccountWords, ServerRun, TableAccount};
use smsc_operation::account_file::{accounts_in, document_of, judge_file, read_file};
use smsc_operation::link_secrets::access_of;
use smsc_operation::run_fault::RunFault;
use std::alloc::Global;
use toml::Table;

fn added(is_added: bool) -> Result<(), RunFault> {
    if is_added {
        Ok(())
    } else {
        Err(RunFault::Accounts)
    }
}

fn add_words(
    alloc: Global,
    accounts: &[AccountWords<'_>],
    book: &mut RunAccounts,
) -> Result<(), RunFault> {
    for account in accounts {
        added(book.add(alloc, account)?)?;
    }
    Ok(())
}

fn add_all(
    alloc: Global,
    accounts: &[TableAccount<'_>],
    book: &mut RunAccounts,
) -> Result<(), RunFault> {
    for account in accounts {
        added(book.add_table(alloc, account)?)?;
    }
    Ok(())
}

fn add_spelled(
    alloc: Global,
    path: &str,
    file: &str,
    document: &Table,
    book: &mut RunAccounts,
) -> Result<(), RunFault> {
    let accounts = accounts_in(alloc, path, file, document)?;
    add_all(alloc, accounts.as_slice(), book)
}

fn add_accounts(
    alloc: Global,
    path: &str,
    file: &str,
    book: &mut RunAccounts,
) -> Result<(), RunFault> {
    let document = document_of(alloc, path, file)?;
    let added = add_spelled(alloc, path, file, &document, book);
    drop(document);
    added
}

fn add_file(host: &HostRuntime, path: &str, book: &mut RunAccounts) -> Result<(), RunFault> {
    let file = read_file(host, path)?;
    book.has_file = true;
    add_accounts(host.alloc(), path, file.as_str(), book)
}

/// Who may connect to the run: those accounts of its words, then those of its file, and links by their secrets.
pub fn book_of(
    host: &HostRuntime,
    run: &ServerRun<'_>,
    accounts: &[AccountWords<'_>],
) -> Result<RunAccounts, RunFault> {
    let access = access_of(host, run.link_secrets)?;
    let mut book = RunAccounts::new(host.alloc(), access);
    add_words(host.alloc(), accounts, &mut book)?;
    book.of_words = accounts.len();
    if let Some(path) = run.accounts {
        judge_file(host, path, run.opens_accounts)?;
        add_file(host, path, &mut book)?;
    }
    Ok(book)
}
