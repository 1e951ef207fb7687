//! A value is kept once, under a place that stays.
use crate::indexes::names::digits;
use crate::rows::holds;
use sms_base::{Digits, Octets};
use sms_rows::interning::{Accounts, Numbers};
use std::alloc::Global;
use std::test::Fail;

fn numbers_grow(numbers: &mut Numbers, alloc: Global) -> bool {
    match numbers.make_reserve(alloc, 1_000) {
        Ok(reserve) => {
            numbers.use_reserve(reserve);
            true
        }
        Err(_) => false,
    }
}

fn keeps_numbers(
    numbers: &mut Numbers,
    alloc: Global,
    one: Digits,
    other: Digits,
) -> Result<(), Fail> {
    holds(
        numbers.put(one) == Ok(0) && numbers.put(other) == Ok(1),
        "two numbers",
    )?;
    holds(numbers_grow(numbers, alloc), "memory for more")?;
    holds(numbers.put(one) == Ok(0), "a number that is there")?;
    holds(
        numbers.place(&other) == Some(1) && numbers.at(1) == Some(other) && numbers.at(2).is_none(),
        "places",
    )
}

fn accounts_grow(accounts: &mut Accounts, alloc: Global) -> bool {
    match accounts.make_reserve(alloc, 1_000) {
        Ok(reserve) => {
            accounts.use_reserve(reserve);
            true
        }
        Err(_) => false,
    }
}

fn place_of(accounts: &mut Accounts, alloc: Global, name: &[u8]) -> Option<usize> {
    let name = Octets::copy_of(alloc, name).ok()?;
    accounts.put(name).ok()
}

fn is_at(accounts: &Accounts, place: usize, name: &[u8]) -> bool {
    match accounts.at(place) {
        Some(other) => other.as_slice() == name,
        None => false,
    }
}

fn keeps_accounts(accounts: &mut Accounts, alloc: Global) -> Result<(), Fail> {
    holds(place_of(accounts, alloc, b"app1") == Some(0), "a name")?;
    holds(
        place_of(accounts, alloc, b"app2") == Some(1),
        "another name",
    )?;
    holds(accounts_grow(accounts, alloc), "memory for more")?;
    holds(
        place_of(accounts, alloc, b"app1") == Some(0),
        "a name that is there",
    )?;
    holds(is_at(accounts, 1, b"app2"), "a place")
}

#[test]
fn numbers_are_kept_once(rt: HostRuntime) -> Result<(), Fail> {
    let (Some(one), Some(other)) = (digits("447700900123"), digits("447700900456")) else {
        return Err(Fail::new("no number"));
    };
    let mut numbers = Numbers::new(rt.alloc());
    keeps_numbers(&mut numbers, rt.alloc(), one, other)
}

#[test]
fn names_of_accounts_are_kept_once(rt: HostRuntime) -> Result<(), Fail> {
    let mut accounts = Accounts::new(rt.alloc());
    keeps_accounts(&mut accounts, rt.alloc())
}
