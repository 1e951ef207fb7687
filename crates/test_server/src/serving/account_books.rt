//! Lists of accounts that take the place of others in a run.
use crate::rows::{holds, made};
use smpp_session::{Account, Password};
use sms_base::Octets;
use smsc_server::AccountBook;
use std::alloc::{AllocError, Global};
use std::sync::Wait;
use std::test::Fail;

fn login(alloc: Global, name: &str) -> Result<Account, AllocError> {
    let name = Octets::copy_of(alloc, name.as_bytes())?;
    let password = Password::Plain(Octets::copy_of(alloc, b"secret")?);
    Ok(Account { name, password })
}

fn list(alloc: Global, names: &[&str]) -> Result<Vec<Account>, AllocError> {
    let mut accounts = Vec::new(alloc);
    for name in names {
        accounts.push(login(alloc, name)?)?;
    }
    Ok(accounts)
}

// A book with app1 and app2, in whose place others may come or not.
fn book(alloc: Global, is_renewed: bool) -> Result<AccountBook, AllocError> {
    let first = list(alloc, &["app1", "app2"])?;
    AccountBook::new(alloc, first, is_renewed)
}

// The lists that come in place of app1 and app2, one after the other, and whether each does.
const LISTS: &[(&[&str], bool, &str)] = &[
    (&["app1", "app2"], true, "the same names"),
    (&["app1", "app2", "app3"], true, "one name more"),
    (&["app1"], false, "one name less"),
    (&["app2", "app1"], false, "another order"),
    (&["app1", "app3", "app2"], false, "a name between"),
    (&[], false, "no name"),
];

// Whether the list comes in place of the book's.
fn comes<R: Wait>(rt: &R, alloc: Global, book: &AccountBook, names: &[&str]) -> Option<bool> {
    let accounts = list(alloc, names).ok()?;
    book.renew(rt, alloc, accounts).ok()
}

fn are_renewed<R: Wait>(rt: &R, alloc: Global, is_renewed: bool) -> Result<(), Fail> {
    let book = made(book(alloc, is_renewed).ok(), "a book of accounts")?;
    for (names, takes, name) in LISTS {
        holds(
            comes(rt, alloc, &book, names) == Some(is_renewed && *takes),
            name,
        )?;
    }
    Ok(())
}

#[test]
fn a_list_keeps_the_places_of_the_first(rt: HostRuntime) -> Result<(), Fail> {
    are_renewed(&rt, rt.alloc(), true)?;
    are_renewed(&rt, rt.alloc(), false)
}
