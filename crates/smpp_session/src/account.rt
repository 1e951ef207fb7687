//! Who may bind.
ghost use Rattle.std.specs.Prelude.{◌≡◌, List, Bool, true, slice_set};
ghost use Rattle.smpp_session.specs.declared.account.Account.{Account as AccountOf};
ghost use Rattle.smpp_session.specs.Logins.{admitted, is_full, login, none_full};

use crate::password::Password;
use sms_base::Octets;
use std::fmt;
use std::marker::Model;

/// An application that may bind.
#[derive(Drop)]
pub struct Account {
    /// The system_id, up to 15 octets.
    pub name: Octets,
    pub password: Password,
}

// The password is a secret, so it is not shown.
impl fmt::Debug for Account {
    fn fmt<W: fmt::Write>(&self, f: &mut fmt::Formatter<W>) -> fmt::Result {
        f.debug_struct("Account")
            .field("name", &self.name)
            .finish_non_exhaustive()
    }
}

/// The accounts in order, seen by contracts as a list. Of equal names the first counts.
///
/// All sessions of a server share one list, in an `Arc`, since each runs on a thread of its own.
#[derive(Debug, Drop)]
pub struct Accounts {
    items: Vec<Account>,
}

impl Model for Accounts {
    ghost Value = { List AccountOf };

    ghost view = { λ a. a.items.items };
}

// So many accounts may be full, the first ones.
const MOST_FULL: usize = 32;

/// Which accounts are full: as many sessions of them are bound as may be. Contracts see a list, by the places of the accounts.
#[derive(Clone, Copy, Debug)]
pub struct FullAccounts {
    places: [bool; MOST_FULL],
}

impl Model for FullAccounts {
    ghost Value = { List Bool };

    ghost view = { λ f. f.places };

    ghost inverse = { λ places. record { places = places } };
}

impl FullAccounts {
    /// None is full.
    pub fn none() -> FullAccounts
        ensures { result ≡ none_full }
    {
        FullAccounts {
            places: [false; MOST_FULL],
        }
    }

    /// The account at this place, from 0, is full too. One beyond the 32nd never is.
    pub fn put(&mut self, place: usize)
        ensures { self.new ≡ slice_set self.old place true }
    {
        if place < MOST_FULL {
            self.places[place] = true;
        }
    }

    /// Whether the account at this place, from 0, is full.
    pub fn contains(&self, place: usize) -> bool
        ensures { result ≡ is_full place self.now }
    {
        match self.places.get(place) {
            Some(full) => *full,
            None => false,
        }
    }
}

// What a name and a password say.
#[derive(Clone, Copy)]
pub(crate) enum Login {
    // Those of the account at this place, from 0.
    Known(usize),
    UnknownName,
    WrongPassword,
    // Those of an account that is full.
    Full,
}

impl Login {
    // What it says where those accounts are full.
    pub(crate) fn admitted(self, full: &FullAccounts) -> Login
        ensures { result ≡ admitted full.now self }
    {
        match self {
            Login::Known(place) if full.contains(place) => Login::Full,
            login => login,
        }
    }
}

impl Accounts {
    /// The accounts of the vector.
    pub fn from_vec(items: Vec<Account>) -> Accounts
        ensures { result ≡ items.items }
    {
        Accounts { items }
    }

    // The first account of the name, if the password is its own.
    pub(crate) fn login(&self, name: &[u8], password: &[u8]) -> Login
        ensures { result ≡ login 0 name.now password.now self.now }
    {
        let accounts = self.items.as_slice();
        for place in 0..accounts.len() {
            let account = &accounts[place];
            if account.name.as_slice() == name {
                if account.password.is_own(password) {
                    return Login::Known(place);
                }
                return Login::WrongPassword;
            }
        }
        Login::UnknownName
    }
}
