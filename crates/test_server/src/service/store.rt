//! A store in memory that fails on demand.
ghost use Rattle.std.specs.Prelude.{◌≡◌, ⊤, refl};
ghost use Rattle.sms_centre_spec.proofs.bodies.Bodies.{bodies_given};
ghost use Rattle.sms_store_memory.specs.centre.RowsInKeep.{rows_in};
ghost use Rattle.sms_centre_spec.specs.octets.OctetsAt.{octets_at};
ghost use Rattle.sms_centre_spec.specs.Draft.{rows_after};
ghost use Rattle.sms_rows.specs.keep.Refusing.{Counts, CountsRead};

use sms_base::Octets;
use sms_centre_spec::{Changes, Rows};
use sms_rows::keep::{BodyKeep, Keep, KeepError, Refusals, RowStore};
use sms_rows::table::Key;
use sms_store_memory::centre::MemoryKeep;
use smsc_service::CentreStore;
use std::cell::Cell;

/// More commits and bodies than any course has.
pub(crate) const MANY: u32 = 1000;

/// How much a store does. Whoever has the store may set this meanwhile.
#[derive(Drop)]
pub(crate) struct Limits {
    /// How many commits it will take; it refuses the others.
    pub(crate) commits: Cell<u32>,
    /// How many bodies it will give; it refuses the others.
    pub(crate) bodies: Cell<u32>,
}

impl Limits {
    /// A store with these fails at nothing.
    pub(crate) fn none() -> Limits {
        Limits {
            commits: Cell::new(MANY),
            bodies: Cell::new(MANY),
        }
    }
}

// One call less is left, if there was one.
fn is_left(limit: &Cell<u32>) -> bool {
    match limit.get().checked_sub(1) {
        Some(left) => {
            limit.set(left);
            true
        }
        None => false,
    }
}

/// The rows of a centre in memory.
#[derive(Drop)]
pub(crate) struct Store<'a> {
    keep: MemoryKeep,
    limits: &'a Limits,
    refusals: Refusals,
}

impl<'a> Store<'a> {
    /// A store that fails where the limits are met.
    pub(crate) fn new(keep: MemoryKeep, limits: &'a Limits) -> Store<'a> {
        Store {
            keep,
            limits,
            refusals: Refusals::none(),
        }
    }
}

// Counts a call that the rows refused.
fn count<T>(refusals: &mut Refusals, answer: &Result<T, KeepError>)
    ensures { Counts answer.now refusals.old refusals.new }
{
    match answer {
        Ok(_) => (),
        Err(_) => refusals.call(),
    }
}

// Counts a read of a body that the rows refused.
fn count_read<T>(refusals: &mut Refusals, key: Key, answer: &Result<T, KeepError>)
    ensures { CountsRead key answer.now refusals.old refusals.new }
{
    match answer {
        Ok(_) => refusals.answer(),
        Err(_) => refusals.read(key),
    }
}

impl RowStore for Store<'_> {
    type Rows = Rows;

    ghost state = { λ store. record { is_honest = ⊤; holds = λ rows. rows_in store.keep ≡ rows; is_closed = ⊥; refusals = store.refusals } };
}

impl Keep for Store<'_> {
    type Changes = Changes;

    ghost after = { λ changes rows. rows_after changes rows };

    ghost may_leave = { λ store left. rows_in store.keep ≡ left };

    fn commit(&mut self, changes: &Changes) -> Result<(), KeepError> {
        if !is_left(&self.limits.commits) {
            self.refusals.call();
            return Err(KeepError::Disk);
        }
        let committed = self.keep.commit(changes);
        count(&mut self.refusals, &committed);
        committed
    }

    fn load(&mut self) -> Result<Rows, KeepError> {
        let rows = self.keep.load();
        count(&mut self.refusals, &rows);
        rows
    }
}

impl BodyKeep for Store<'_> {
    ghost body_of = { octets_at };

    fn body(&mut self, key: Key) -> Result<Option<Octets>, KeepError> {
        if !is_left(&self.limits.bodies) {
            self.refusals.read(key);
            return Err(KeepError::Disk);
        }
        let body = self.keep.body(key);
        count_read(&mut self.refusals, key, &body);
        body
    }
}

impl CentreStore for Store<'_> {
    fn gather(&mut self) -> Result<Rows, KeepError> {
        self.load()
    }

    ghost makes = { λ changes rows. refl };

    ghost stores = { bodies_given };
}
