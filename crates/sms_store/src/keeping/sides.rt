//! What one side keeps, and how a database becomes its store.
ghost use Rattle.std.specs.Prelude.{◌≡◌, false, IfErr, IfOk, OnOk};
ghost use Rattle.sqlite.specs.Held.{state};
ghost use Rattle.sqlite.specs.State.{HasCleanDisk, IsUnchanged};
ghost use Rattle.sms_store_sql.specs.listing.Causes.{IsOfNoRow};
ghost use Rattle.sms_store_sql.specs.listing.Inside.{MakesStep, Keeps, Spares, SparesOwn, StaysOutside};
ghost use Rattle.sms_store_sql.specs.listing.Transaction.{Leads};
ghost use Rattle.sms_store.specs.keeping.Opened.{IsAsItWas, IsOpened, LeavesStore};
ghost use Rattle.sms_store.specs.keeping.Stores.{AreStores, FindsRows, Founds, HasRows, StoresOf, Turns};

use sms_rows::keep::KeepError;
use sqlite::{Alter, Connection, Error, Transaction};
use std::alloc::Global;

/// What one side keeps: a centre, or a handset. A side is known by its setup, which is handed in and not stored.
pub trait Kept: Drop {
    /// The rows, and the setup among them.
    type Rows: Drop;

    /// What an event changes of them.
    type Changes;

    /// What the side's stores are.
    ghost stores: { StoresOf Self Self.Rows };

    /// The rows after the changes.
    ghost after: { Self.Changes → Self.Rows → Self.Rows };

    /// Makes the tables of a new store, and its first rows.
    fn make<S: Alter>(alloc: Global, tx: &mut Transaction<'_, S>) -> Result<(), Error>
        ensures same_reference { tx.new.conn.ghost_name ≡ tx.old.conn.ghost_name }
        ensures done { MakesStep S.Store tx.old.conn.now tx.new.conn.now (Leads (Founds stores)) result }
        ensures uncommitted { Keeps S.Store tx.old.conn.now tx.new.conn.now }
        ensures survives { Spares S.Store tx.old.conn.now tx.new.conn.now };

    /// Writes the changes of an event.
    fn write<S: Alter>(
        alloc: Global,
        tx: &mut Transaction<'_, S>,
        changes: &Self::Changes,
    ) -> Result<(), Error>
        ensures same_reference { tx.new.conn.ghost_name ≡ tx.old.conn.ghost_name }
        ensures done { MakesStep S.Store tx.old.conn.now tx.new.conn.now (Leads (Turns stores (after changes.now))) result }
        ensures uncommitted { Keeps S.Store tx.old.conn.now tx.new.conn.now }
        ensures survives { Spares S.Store tx.old.conn.now tx.new.conn.now };

    /// Reads all rows, outside a transaction.
    fn read<S: Alter>(&self, alloc: Global, conn: &mut Connection<S>) -> Result<Self::Rows, Error>
        ensures mode { conn.old.in_transaction ≡ false → conn.new.in_transaction ≡ false }
        ensures found { HasCleanDisk (state S.Store conn.new) → (state S.Store conn.old).now.schema ≡ stores.schema
            → IfOk result (λ found. IsUnchanged (state S.Store conn.old) (state S.Store conn.new) × FindsRows stores self.now
            (state S.Store conn.old).now found) }
        ensures back { HasCleanDisk (state S.Store conn.new) → (state S.Store conn.old).now.schema ≡ stores.schema
            → HasRows stores self.now (state S.Store conn.old).now → IfErr result IsOfNoRow }
        ensures stays { HasCleanDisk (state S.Store conn.new) → (state S.Store conn.old).now.schema ≡ stores.schema
            → StaysOutside (state S.Store conn.old) (state S.Store conn.new) }
        ensures survives { SparesOwn stores.schema (state S.Store conn.old) (state S.Store conn.new) };

    /// The stores are of one set of rows each.
    ghost lawful: { AreStores stores };

    /// Changes leave the setup.
    ghost same_setup: { (changes : Self.Changes) (rows : Self.Rows) → stores.setup_of (after changes rows) ≡ stores.setup_of rows };
}

/// A side whose stores can be opened.
pub trait Openable: Kept {
    /// Makes the database ready to be a store of the side: an empty one becomes the store of the first rows. Every other
    /// must say that it is such a store.
    fn ready<S: Alter>(alloc: Global, conn: &mut Connection<S>) -> Result<(), KeepError>
        ensures mode { conn.old.in_transaction ≡ false → conn.new.in_transaction ≡ false }
        ensures clean { HasCleanDisk (state S.Store conn.new) → HasCleanDisk (state S.Store conn.old) }
        ensures ok { HasCleanDisk (state S.Store conn.new) → OnOk result (IsOpened Self.stores (state S.Store conn.old).now (state S.Store conn.new)) }
        ensures err { HasCleanDisk (state S.Store conn.new) → IfErr result (λ error. Self.stores.Refuses error (state S.Store conn.old).now
            × IsAsItWas (state S.Store conn.old) (state S.Store conn.new)) }
        ensures stop { LeavesStore Self.stores (state S.Store conn.old) (state S.Store conn.new) };
}
