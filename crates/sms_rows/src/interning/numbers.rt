//! Numbers and names, each kept once.
ghost use Rattle.std.specs.Prelude.{◌≡◌, [], ◌<◌, ℕ, IfNone, IfOk, IfSome, IsOk, OnErr, slice_get};
ghost use Rattle.sms_rows.specs.interning.Interning.{Interned, IsAt, Keeps, TookNumbers, Suffices};

use crate::interning::number::Number;
use indexmap::IndexSet;
use sms_base::Digits;
use std::alloc::{AllocError, Global};
use std::marker::Model;

/// Numbers and names, each once, seen by contracts as the list of them and how many more the memory holds.
#[derive(Drop)]
pub struct Numbers {
    set: IndexSet<Number>,
}

impl Model for Numbers {
    ghost use Rattle.std.specs.Prelude.{ℕ, List, map};
    ghost use Rattle.indexmap.specs.IndexSet.{spare};
    ghost use Rattle.sms_rows.specs.interning.Interning.{InternedOf};
    ghost use Rattle.sms_rows.specs.interning.Numbers.{digits_in};

    ghost Value = { InternedOf (List ℕ) };

    ghost view = { λ n. record { values = map digits_in n.set.keys; room = spare n.set } };
}

/// Memory for numbers that no set uses yet, seen by contracts as how many it holds.
#[derive(Drop)]
pub struct NumbersReserve {
    set: IndexSet<Number>,
}

impl Model for NumbersReserve {
    ghost use Rattle.std.specs.Prelude.{◌≡◌, ℕ, []};
    ghost use Rattle.indexmap.specs.IndexSet.{spare};

    ghost Value = { ℕ };

    ghost view = { λ s. spare s.set };

    ghost invariant = { λ s. s.set.keys ≡ [] };
}

impl Numbers {
    /// No numbers.
    pub fn new(alloc: Global) -> Numbers
        ensures { result.values ≡ [] }
    {
        Numbers {
            set: IndexSet::new(alloc),
        }
    }

    /// The place of the number, if it is there.
    pub fn place(&self, digits: &Digits) -> Option<usize>
        ensures some { IfSome result (λ place. IsAt digits.now place self.now.values) }
        ensures none { IfNone result ((place : ℕ) → ¬ IsAt digits.now place self.now.values) }
    {
        match self.set.get_full(&Number { digits: *digits }) {
            Some((place, _)) => Some(place),
            None => None,
        }
    }

    /// The number at the place, if there is one.
    pub fn at(&self, place: usize) -> Option<Digits>
        ensures { result ≡ slice_get self.now.values place }
    {
        match self.set.get_index(place) {
            Some(number) => Some(number.digits),
            None => None,
        }
    }

    /// The place of the number, which is added where it is not there. Where memory is wanting, nothing has changed.
    pub fn put(&mut self, digits: Digits) -> Result<usize, AllocError>
        ensures ok { IfOk result (λ place. Interned self.old digits place self.new) }
        ensures err { OnErr result (self.new.values ≡ self.old.values) }
        ensures ready { 0 < self.old.room → IsOk result }
    {
        let (place, _) = self.set.insert_full(Number { digits })?;
        Ok(place)
    }

    /// Puts digits where there is room, without taking memory, and gives their place.
    pub fn put_ready(&mut self, digits: Digits) -> usize
        requires { 0 < self.old.room }
        ensures { Interned self.old digits result self.new }
    {
        match self.put(digits) {
            Ok(place) => place,
            Err(_) => 0,
        }
    }

    /// Memory for that many numbers more where the own is too small for them, else none.
    pub fn make_reserve(&self, alloc: Global, extra: usize) -> Result<NumbersReserve, AllocError>
        ensures { IfOk result (λ reserve. Suffices extra reserve self.now) }
    {
        let len = self.set.len();
        if extra <= self.set.capacity() - len {
            let set = IndexSet::new(alloc);
            return Ok(NumbersReserve { set });
        }
        // A set's memory doubles by itself: its sizes go by powers of two.
        let Some(capacity) = len.checked_add(extra) else {
            return Err(AllocError);
        };
        let set = IndexSet::with_capacity(alloc, capacity)?;
        Ok(NumbersReserve { set })
    }

    /// Moves the numbers into the memory where it is larger than the own, without taking memory.
    pub fn use_reserve(&mut self, reserve: NumbersReserve)
        ensures values { Keeps self.old.values self.new.values }
        ensures same { self.new.values ≡ self.old.values }
        ensures room { TookNumbers reserve self.old self.new }
    {
        let mut set = reserve.set;
        // The call tells that no number stands twice.
        let _len = self.set.len();
        if self.set.capacity() < set.capacity() {
            match set.append(&mut self.set) {
                Ok(()) => self.set = set,
                Err(_) => (),
            }
        }
    }
}
