//! A centre that has no message yet, who may bind, and what applications ask of it.
use crate::clock_and_gate::Still;
use crate::rows::made;
use smpp_session::{Account, Accounts, Password};
use sms_base::{Address, Listed, Moment, Octets};
use sms_store_memory::centre::MemoryKeep;
use smsc_server::AccountBook;
use smsc_service::{CentreAccount, Setup};
use std::alloc::{AllocError, Global};
use std::sync::Arc;
use std::test::Fail;

// 2024-02-29 23:59:58.
const START: u64 = 1_709_251_198;

/// bind_transceiver of app1 with the password secret, sequence number 1 (SMPP v3.4 4.1.5).
pub(crate) const BIND: &[u8] = &[
    0x00, 0x00, 0x00, 0x21, 0x00, 0x00, 0x00, 0x09, 0x00, 0x00, 0x00, 0x00, 0x00, 0x00, 0x00, 0x01,
    0x61, 0x70, 0x70, 0x31, 0x00, 0x73, 0x65, 0x63, 0x72, 0x65, 0x74, 0x00, 0x00, 0x34, 0x00, 0x00,
    0x00,
];

/// submit_sm of `hello` to 447700900456, sequence number 2 (SMPP v3.4 4.4.1).
pub(crate) const SUBMIT: &[u8] = &[
    0x00, 0x00, 0x00, 0x32, 0x00, 0x00, 0x00, 0x04, 0x00, 0x00, 0x00, 0x00, 0x00, 0x00, 0x00, 0x02,
    0x00, 0x00, 0x00, 0x00, 0x01, 0x01, 0x34, 0x34, 0x37, 0x37, 0x30, 0x30, 0x39, 0x30, 0x30, 0x34,
    0x35, 0x36, 0x00, 0x00, 0x00, 0x00, 0x00, 0x00, 0x01, 0x00, 0x00, 0x00, 0x05, 0x68, 0x65, 0x6C,
    0x6C, 0x6F,
];

/// query_sm of the message 0000000001, sequence number 3 (4.8.1).
pub(crate) const QUERY: &[u8] = &[
    0x00, 0x00, 0x00, 0x1E, 0x00, 0x00, 0x00, 0x03, 0x00, 0x00, 0x00, 0x00, 0x00, 0x00, 0x00, 0x03,
    0x30, 0x30, 0x30, 0x30, 0x30, 0x30, 0x30, 0x30, 0x30, 0x31, 0x00, 0x00, 0x00, 0x00,
];

/// enquire_link, sequence number 4 (4.11.1).
pub(crate) const ENQUIRE: &[u8] = &[
    0x00, 0x00, 0x00, 0x10, 0x00, 0x00, 0x00, 0x15, 0x00, 0x00, 0x00, 0x00, 0x00, 0x00, 0x00, 0x04,
];

/// A clock that always shows the start.
pub(crate) fn clock() -> Result<Still, Fail> {
    match Moment::from_seconds(START) {
        Ok(start) => Ok(Still(start)),
        Err(_) => Err(Fail::new("a moment")),
    }
}

/// The account of that name and number.
pub(crate) fn account(alloc: Global, name: &str, number: &str) -> Option<CentreAccount> {
    let address = Address::new(1, 1, number).ok()?;
    let name = Octets::copy_of(alloc, name.as_bytes()).ok()?;
    Some(CentreAccount {
        name,
        address,
        sources: Listed::new(alloc),
    })
}

fn first_account(alloc: Global) -> Option<Vec<CentreAccount>> {
    let mut accounts = Vec::new(alloc);
    accounts.push(account(alloc, "app1", "447700900001")?).ok()?;
    Some(accounts)
}

/// The accounts with which a run begins: app1.
pub(crate) fn accounts(alloc: Global) -> Result<Vec<CentreAccount>, Fail> {
    made(first_account(alloc), "accounts")
}

fn setup(alloc: Global) -> Option<Setup> {
    Some(Setup {
        centre: Address::new(1, 1, "447700900999").ok()?,
        start: Moment::from_seconds(START).ok()?,
        first: 1,
        accounts: Listed::new(alloc),
    })
}

/// A store of a centre that has no message yet. No store has accounts.
pub(crate) fn keep(alloc: Global) -> Result<MemoryKeep, Fail> {
    match setup(alloc) {
        Some(setup) => Ok(MemoryKeep::new(alloc, setup)),
        None => Err(Fail::new("a store")),
    }
}

fn login(alloc: Global) -> Result<Account, AllocError> {
    let name = Octets::copy_of(alloc, b"app1")?;
    let password = Password::Plain(Octets::copy_of(alloc, b"secret")?);
    Ok(Account { name, password })
}

fn shared_logins(alloc: Global) -> Result<Arc<Accounts>, AllocError> {
    let logins = vec![in alloc; login(alloc)?]?;
    Ok(Arc::new(alloc, Accounts::from_vec(logins))?)
}

/// What may bind: app1 with the password secret.
pub(crate) fn logins(alloc: Global) -> Result<Arc<Accounts>, Fail> {
    made(shared_logins(alloc).ok(), "logins")
}

fn shared_book(alloc: Global) -> Result<Arc<AccountBook>, AllocError> {
    let logins = vec![in alloc; login(alloc)?]?;
    let book = AccountBook::new(alloc, logins, false)?;
    Ok(Arc::new(alloc, book)?)
}

/// What may bind in a run, where no other list takes its place.
pub(crate) fn book(alloc: Global) -> Result<Arc<AccountBook>, Fail> {
    made(shared_book(alloc).ok(), "a book of accounts")
}
