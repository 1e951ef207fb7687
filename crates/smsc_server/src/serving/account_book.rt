//! The accounts of a run.
//!
//! A run begins with a list of accounts. Where it may be renewed, another one takes its place as the run goes on. That has the same names at the
//! same places, perhaps with other passwords, and perhaps further names behind them. A connection that came before binds by the list from before.
mod named_list;

ghost use Rattle.std.specs.Prelude.{◌≡◌, ◌&&◌, true, IfOk};
ghost use Rattle.std.specs.Arc.{arc_value};
ghost use Rattle.smsc_server.specs.serving.AccountBooks.{MayAdmit};
ghost use Rattle.smsc_server.specs.serving.AccountNames.{begin_with, names_of};

use named_list::NamedList;
use smpp_session::{Account, Accounts};
use std::alloc::{AllocError, Global};
use std::marker::Model;
use std::sync::{Arc, Mutex, Wait};

/// Who may bind in a run.
#[derive(Drop)]
pub struct AccountBook {
    first: NamedList,
    is_renewed: bool,
    // The list that took the place of the first one.
    newest: Mutex<Option<NamedList>>,
}

impl Model for AccountBook {
    ghost use Rattle.std.specs.Arc.{arc_value};
    ghost use Rattle.smsc_server.specs.serving.AccountBooks.{Book};

    ghost Value = { Book };

    ghost view = { λ b. record { first = arc_value b.first.accounts; is_renewed = b.is_renewed } };
}

impl AccountBook {
    /// A run begins with these accounts. It is said whether others may take their place.
    pub fn new(
        alloc: Global,
        accounts: Vec<Account>,
        is_renewed: bool,
    ) -> Result<AccountBook, AllocError>
        ensures { IfOk result (λ book. book ≡ record { first = accounts.items; is_renewed = is_renewed }) }
    {
        let first = NamedList::of(alloc, accounts)?;
        Ok(AccountBook {
            first,
            is_renewed,
            newest: Mutex::new(None),
        })
    }

    /// The accounts take the place of those that are in force. False where none may, or where they do not begin with the names of the first list.
    pub fn renew<R: Wait>(
        &self,
        rt: &R,
        alloc: Global,
        accounts: Vec<Account>,
    ) -> Result<bool, AllocError>
        ensures { IfOk result (λ renewed. renewed ≡ (self.now.is_renewed && begin_with (names_of accounts.items) (names_of self.now.first))) }
    {
        let list = NamedList::of(alloc, accounts)?;
        let is_taken = self.takes(&list);
        self.put_if(rt, is_taken, list);
        Ok(is_taken)
    }

    // Whether the list may take the place of the one that is in force.
    fn takes(&self, list: &NamedList) -> bool
        ensures { result ≡ (self.now.is_renewed && begin_with (names_of (arc_value list.now.accounts)) (names_of self.now.first)) }
    {
        self.is_renewed && list.begins_with(&self.first)
    }

    fn put_if<R: Wait>(&self, rt: &R, is_taken: bool, list: NamedList) {
        if is_taken {
            *self.newest.lock(rt) = Some(list);
        } else {
            drop(list);
        }
    }

    // The list that is in force.
    pub(crate) fn in_force<R: Wait>(&self, rt: &R) -> Result<Arc<Accounts>, AllocError>
        ensures { IfOk result (λ accounts. MayAdmit self.now (arc_value accounts)) }
    {
        if self.is_renewed {
            self.newest(rt)
        } else {
            self.first.share()
        }
    }

    // The last list that took the place of the first, or the first.
    #[tactic(auto, using(crate::proofs::serving::SameNames::same_as_itself))]
    fn newest<R: Wait>(&self, rt: &R) -> Result<Arc<Accounts>, AllocError>
        ensures { IfOk result (λ accounts. begin_with (names_of (arc_value accounts)) (names_of self.now.first) ≡ true) }
    {
        let newest = self.newest.lock(rt);
        match &*newest {
            Some(list) if list.begins_with(&self.first) => list.share(),
            _ => self.first.share(),
        }
    }
}
