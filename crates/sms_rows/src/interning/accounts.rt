//! The names of accounts, each kept once.
ghost use Rattle.std.specs.Prelude.{◌≡◌, [], ◌<◌, IfNone, IfOk, IfSome, IsOk, OnErr, option_copied, slice_get};
ghost use Rattle.sms_rows.specs.interning.Interning.{Interned, IsAt, IsNowhere, Keeps, TookNumbers, Suffices};

use sms_base::Octets;
use std::alloc::{AllocError, Global};
use std::marker::Model;

/// The names of accounts, each once. Contracts see the list of them and how many more the memory holds. A look-up walks
/// through them: a centre has 32 accounts at most.
#[derive(Drop)]
pub struct Accounts {
    names: Vec<Octets>,
}

impl Model for Accounts {
    ghost use Rattle.std.specs.Prelude.{ℕ, List, ◌-◌, length, vec_capacity};
    ghost use Rattle.sms_rows.specs.interning.Interning.{InternedOf};

    ghost Value = { InternedOf (List ℕ) };

    ghost view = { λ a. record { values = a.names.items; room = vec_capacity a.names - length a.names.items } };
}

/// Memory for names that no list uses yet, seen by contracts as how many it holds.
#[derive(Drop)]
pub struct AccountsReserve {
    names: Vec<Octets>,
}

impl Model for AccountsReserve {
    ghost use Rattle.std.specs.Prelude.{◌≡◌, ℕ, [], vec_capacity};

    ghost Value = { ℕ };

    ghost view = { λ s. vec_capacity s.names };

    ghost invariant = { λ s. s.names.items ≡ [] };
}

impl Accounts {
    /// No names.
    pub fn new(alloc: Global) -> Accounts
        ensures { result.values ≡ [] }
    {
        Accounts {
            names: Vec::new(alloc),
        }
    }

    // The place of the name, if it is there.
    fn place(&self, name: &Octets) -> Option<usize>
        ensures some { IfSome result (λ place. IsAt name.now place self.now.values) }
        ensures none { IfNone result (IsNowhere name.now self.now.values) }
    {
        for place in 0..self.names.len() {
            if self.names[place].as_slice() == name.as_slice() {
                return Some(place);
            }
        }
        None
    }

    /// The name at the place, if there is one.
    pub fn at(&self, place: usize) -> Option<&Octets>
        ensures { option_copied result ≡ slice_get self.now.values place }
    {
        self.names.as_slice().get(place)
    }

    /// The place of the name, which is added where it is not there. Where memory is wanting, nothing has changed.
    pub fn put(&mut self, name: Octets) -> Result<usize, AllocError>
        ensures ok { IfOk result (λ place. Interned self.old name place self.new) }
        ensures err { OnErr result (self.new.values ≡ self.old.values) }
        ensures ready { 0 < self.old.room → IsOk result }
    {
        if let Some(place) = self.place(&name) {
            drop(name);
            return Ok(place);
        }
        let place = self.names.len();
        self.names.push(name)?;
        Ok(place)
    }

    /// Puts a name where there is room, without taking memory, and gives its place.
    pub fn put_ready(&mut self, name: Octets) -> usize
        requires { 0 < self.old.room }
        ensures { Interned self.old name result self.new }
    {
        match self.put(name) {
            Ok(place) => place,
            Err(_) => 0,
        }
    }

    /// Memory for that many names more where the own is too small for them, else none.
    pub fn make_reserve(&self, alloc: Global, extra: usize) -> Result<AccountsReserve, AllocError>
        ensures { IfOk result (λ reserve. Suffices extra reserve self.now) }
    {
        let len = self.names.len();
        if extra <= self.names.capacity() - len {
            let names = Vec::new(alloc);
            return Ok(AccountsReserve { names });
        }
        let Some(wanted) = len.checked_add(extra) else {
            return Err(AllocError);
        };
        let Some(capacity) = len.checked_add(wanted) else {
            return Err(AllocError);
        };
        let names = Vec::with_capacity(alloc, capacity)?;
        Ok(AccountsReserve { names })
    }

    /// Moves the names into the memory where it is larger than the own, without taking memory.
    pub fn use_reserve(&mut self, reserve: AccountsReserve)
        ensures values { Keeps self.old.values self.new.values }
        ensures same { self.new.values ≡ self.old.values }
        ensures room { TookNumbers reserve self.old self.new }
    {
        let mut names = reserve.names;
        if self.names.capacity() < names.capacity() {
            match names.append(&mut self.names) {
                Ok(()) => self.names = names,
                Err(_) => (),
            }
        }
    }
}
