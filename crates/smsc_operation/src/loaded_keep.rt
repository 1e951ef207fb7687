//! A store that is read once as a run starts.
ghost use Rattle.std.specs.Prelude.{◌≡◌, ◌≢◌, None, Err, Ok, Some, IfErr, IfOk, IfSome, IsSome, OnErr, OnOk};
ghost use Rattle.sms_rows.specs.declared.keep.error.KeepError.TheVariants.{NotThisStore, OldVersion};
ghost use Rattle.sms_rows.specs.keep.StoreOutcome.{IfHeld, IsCounted, StoreOutcome, WasHonest};
ghost use Rattle.sms_centre_spec.specs.SoundRows.{IsSound};
ghost use Rattle.sms_centre_spec.specs.bodies.Storing.{IfClosed};
ghost use Rattle.sms_centre_spec.specs.declared.rows.Rows.{Rows as RowsOf};
ghost use Rattle.smsc_operation.specs.Loading.{loaded_state, read_in, store_of};

use crate::preparing::judged;
use crate::run_fault::RunFault;
use sms_base::Octets;
use sms_base::lending::put;
use sms_centre_spec::bodies::CentreStore;
use sms_centre_spec::{Changes, Rows};
use sms_rows::keep::{BodyKeep, Keep, KeepError, RowStore};
use sms_rows::table::Key;
use std::alloc::Global;

/// A centre's store that was read once. The first call that gathers its rows gets what was read, and the store is not asked. Any other
/// call lets that go first.
#[derive(Drop)]
pub struct LoadedKeep<K> {
    pub(crate) store: K,
    // What was read, until it is taken or let go.
    pub(crate) rows: Option<Rows>,
}

impl<K: CentreStore + Drop> LoadedKeep<K> {
    /// Reads the rows of the store.
    ///
    /// # Errors
    /// The store gave no rows. It is dropped then.
    pub fn of(store: K) -> Result<LoadedKeep<K>, KeepError>
        // The rows that the store had it has, and they are what was read.
        ensures held { IfOk result (λ loaded. (rows : RowsOf)
            → IfHeld rows (K.state store) (loaded_state K.state loaded) ((loaded_state K.state loaded).holds rows)) }
        ensures read { IfOk result (λ loaded. IsSome (read_in loaded)) }
        ensures before { IfOk result (λ loaded. WasHonest (K.state store) (loaded_state K.state loaded)) }
    {
        let mut store = store;
        match store.gather() {
            Ok(rows) => Ok(LoadedKeep {
                store,
                rows: Some(rows),
            }),
            Err(error) => {
                drop(store);
                Err(error)
            }
        }
    }

    /// The store. What was read is let go.
    pub fn into_store(self) -> K
        ensures { result ≡ store_of self }
    {
        let LoadedKeep { store, rows } = self;
        drop(rows);
        store
    }

    // What was read is let go.
    fn let_go(&mut self)
        ensures store { store_of self.new ≡ store_of self.old }
        ensures read { read_in self.new ≡ None }
    {
        put(&mut self.rows, None);
    }

    /// Gives what was read, and does not ask the store. Once that was taken or let go, it asks the store.
    pub fn give(&mut self) -> Result<Rows, KeepError>
        ensures once { IfSome (read_in self.old) (λ rows. (result ≡ Ok rows) × (store_of self.new ≡ store_of self.old)) }
        ensures taken { read_in self.new ≡ None }
        ensures outcome { (rows : RowsOf) → StoreOutcome (λ found. found ≡ rows) rows rows
            (loaded_state K.state self.old) (loaded_state K.state self.new) result }
        ensures closed { IfClosed (loaded_state K.state self.old) (loaded_state K.state self.new) (OnOk result ⊥) }
        ensures back { (rows : RowsOf) → IfHeld rows (loaded_state K.state self.old) (loaded_state K.state self.new) (result ≢ Err NotThisStore) }
        ensures named { IfErr result (λ error. error ≢ OldVersion) }
        ensures before { WasHonest (loaded_state K.state self.old) (loaded_state K.state self.new) }
        ensures counted { IsCounted (loaded_state K.state self.old) (loaded_state K.state self.new) result }
    {
        match self.rows.take() {
            Some(rows) => Ok(rows),
            None => self.store.gather(),
        }
    }
}

impl<K> LoadedKeep<K> {
    /// What was read.
    pub fn rows(&self) -> &Rows
        requires { IsSome (read_in self.now) }
        ensures { read_in self.now ≡ Some result.now }
    {
        self.rows.as_ref().unwrap()
    }

    /// Judges what was read, and lets go what no centre starts on.
    ///
    /// # Errors
    /// No centre starts on it, or there is no memory to judge it.
    pub fn judge(&mut self, alloc: Global) -> Result<(), RunFault>
        ensures sound { OnOk result (IfSome (read_in self.old) IsSound) }
        ensures same { OnOk result (read_in self.new ≡ read_in self.old) }
        ensures err { OnErr result (read_in self.new ≡ None) }
        ensures store { store_of self.new ≡ store_of self.old }
    {
        match self.rows.take() {
            Some(rows) => {
                let rows = judged(alloc, rows)?;
                put(&mut self.rows, Some(rows));
                Ok(())
            }
            None => Ok(()),
        }
    }
}

impl<K: CentreStore + Drop> RowStore for LoadedKeep<K> {
    type Rows = Rows;

    ghost state = { λ loaded. loaded_state K.state loaded };
}

impl<K: CentreStore + Drop> Keep for LoadedKeep<K> {
    type Changes = Changes;

    ghost after = { K.after };

    ghost may_leave = { λ loaded left. K.may_leave (store_of loaded) left };

    fn commit(&mut self, changes: &Changes) -> Result<(), KeepError> {
        self.let_go();
        self.store.commit(changes)
    }

    fn load(&mut self) -> Result<Rows, KeepError> {
        self.let_go();
        self.store.load()
    }
}

impl<K: CentreStore + Drop> BodyKeep for LoadedKeep<K> {
    ghost body_of = { K.body_of };

    fn body(&mut self, key: Key) -> Result<Option<Octets>, KeepError> {
        self.let_go();
        self.store.body(key)
    }
}

impl<K: CentreStore + Drop> CentreStore for LoadedKeep<K> {
    fn gather(&mut self) -> Result<Rows, KeepError> {
        self.give()
    }

    ghost makes = { K.makes };

    ghost stores = { K.stores };
}
