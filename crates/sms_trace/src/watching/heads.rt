//! The places of accounts and handsets in the head of a script, and the act of an event.
use sms_base::{Digits, Octets};
use sms_script::names::spell;
use sms_script::{AccountSetup, Act, HandsetSetup, Setup, WorldEvent};
use std::alloc::{AllocError, Global};

/// The names of the accounts and the numbers of the handsets, in the order of the head.
#[derive(Drop)]
pub(crate) struct Places {
    accounts: Vec<Octets>,
    handsets: Vec<Octets>,
}

fn names_of(alloc: Global, accounts: &[AccountSetup<'_>]) -> Result<Vec<Octets>, AllocError> {
    let mut names = Vec::new(alloc);
    for account in accounts {
        names.push(Octets::copy_of(alloc, account.name.as_slice())?)?;
    }
    Ok(names)
}

fn numbers_of(alloc: Global, handsets: &[HandsetSetup<'_>]) -> Result<Vec<Octets>, AllocError> {
    let mut numbers = Vec::new(alloc);
    for handset in handsets {
        numbers.push(Octets::copy_of(alloc, handset.number.as_slice())?)?;
    }
    Ok(numbers)
}

// The place of a name among others, 0 if it is not there.
fn place_of(name: &[u8], names: &[Octets]) -> usize {
    names
        .iter()
        .position(|other| other.as_slice() == name)
        .unwrap_or(0)
}

impl Places {
    pub(crate) fn of(alloc: Global, setup: &Setup<'_>) -> Result<Places, AllocError> {
        let accounts = names_of(alloc, setup.accounts.as_slice())?;
        let handsets = numbers_of(alloc, setup.handsets.as_slice())?;
        Ok(Places { accounts, handsets })
    }

    /// The names of the accounts.
    pub(crate) fn accounts(&self) -> &[Octets] {
        self.accounts.as_slice()
    }

    /// The numbers of the handsets.
    pub(crate) fn handsets(&self) -> &[Octets] {
        self.handsets.as_slice()
    }

    /// The place of the account of that name.
    pub(crate) fn account(&self, name: &[u8]) -> usize {
        place_of(name, self.accounts.as_slice())
    }

    /// The place of the handset of that number.
    pub(crate) fn handset(&self, number: &[u8]) -> usize {
        place_of(number, self.handsets.as_slice())
    }

    /// The place of the handset of those digits.
    pub(crate) fn digits(&self, digits: &Digits) -> usize {
        self.handsets
            .as_slice()
            .iter()
            .position(|number| spell(number.as_slice(), digits))
            .unwrap_or(0)
    }
}

/// The act of an event, done or stopped.
pub(crate) fn act_of<'a, 'b>(event: &'b WorldEvent<'a>) -> Option<&'b Act<'a>> {
    match event {
        WorldEvent::Whole(act) => Some(act),
        WorldEvent::Stopped(_, act) => Some(act),
        WorldEvent::Restart(_) => None,
    }
}
