//! A store of an earlier version becomes one of version 3.
ghost use Rattle.sms_rows.specs.declared.keep.error.KeepError.TheVariants.{NotThisStore, OldVersion};
ghost use Rattle.std.specs.Prelude.{◌≡◌, ◌≢◌, ◌⊎◌, false, IfErr, IsTrue, OnErr, OnOk};
ghost use Rattle.sqlite.specs.Held.{state};
ghost use Rattle.sqlite.specs.State.{HasCleanDisk};
ghost use Rattle.sqlite.specs.Tree.{Trees};
ghost use Rattle.sms_store_sql.specs.listing.Inside.{MakesStep, Keeps, Spares};
ghost use Rattle.sms_store_sql.specs.listing.Transaction.{Committed, IsOpenStore, Leads};
ghost use Rattle.sms_store_migration.specs.Migrating.{Migrates, MigratesSecond, Ranks, Renames, migrated};
ghost use Rattle.sms_store_migration.specs.Versions.{AreStore, IsFirstStore, IsSecondStore};
ghost use Rattle.sms_store_migration.specs.Types.{Rows as RowsOf};

use sms_rows::keep::KeepError;
use sms_rows::table::Key;
use sms_store_sql::listing::{Meta, StoreKind, Work, put, remove, run, transact, write_cause_of};
use sms_store_tables::centre::{CentreStore, complete_tables, make_bar_table};
use sqlite::{Alter, Connection, Error, Transaction};
use std::alloc::Global;

/// What version 1 lacks: the table of priorities, each 0, the index of reports, the table of bars, and the new version.
#[derive(Drop)]
struct Migration;

impl Work for Migration {
    ghost changes = { λ work. Migrates };

    fn run<S: Alter>(&self, alloc: Global, tx: &mut Transaction<'_, S>) -> Result<(), Error> {
        complete_tables(tx)?;
        rank_messages(tx)?;
        rename(alloc, tx, 1)
    }
}

/// What version 2 lacks: the table of bars, and the new version.
#[derive(Drop)]
struct SecondMigration;

impl Work for SecondMigration {
    ghost changes = { λ work. MigratesSecond };

    fn run<S: Alter>(&self, alloc: Global, tx: &mut Transaction<'_, S>) -> Result<(), Error> {
        make_bar_table(tx)?;
        rename(alloc, tx, 2)
    }
}

// Each message has the lowest priority.
fn rank_messages<S: Alter>(tx: &mut Transaction<'_, S>) -> Result<(), Error>
    ensures same_reference { tx.new.conn.ghost_name ≡ tx.old.conn.ghost_name }
    ensures done { MakesStep S.Store tx.old.conn.now tx.new.conn.now (Leads Ranks) result }
    ensures uncommitted { Keeps S.Store tx.old.conn.now tx.new.conn.now }
    ensures survives { Spares S.Store tx.old.conn.now tx.new.conn.now }
{
    run(
        tx,
        "INSERT INTO priority (message, priority) SELECT id, 0 FROM message",
        &[],
    )
}

// The store said that version.
fn rename<S: Alter>(alloc: Global, tx: &mut Transaction<'_, S>, version: u64) -> Result<(), Error>
    ensures same_reference { tx.new.conn.ghost_name ≡ tx.old.conn.ghost_name }
    ensures done { MakesStep S.Store tx.old.conn.now tx.new.conn.now (Leads (Renames version)) result }
    ensures uncommitted { Keeps S.Store tx.old.conn.now tx.new.conn.now }
    ensures survives { Spares S.Store tx.old.conn.now tx.new.conn.now }
{
    let meta = Meta {
        version: 3,
        kind: StoreKind::Centre,
    };
    remove::<CentreStore, Meta, S>(tx, Key::of(version))?;
    put::<CentreStore, Meta, S>(alloc, tx, &meta)
}

/// Makes a store of version 1 one of version 3, in one transaction: each message has priority 0, there are no bars, and all
/// other rows stay. A failure changes nothing, and a stop inside the call leaves the store as it was, or as it is then.
pub fn raise<S: Alter>(alloc: Global, conn: &mut Connection<S>) -> Result<(), KeepError>
    ensures mode { conn.old.in_transaction ≡ false → conn.new.in_transaction ≡ false }
    ensures ok { HasCleanDisk (state S.Store conn.new) → OnOk result (Committed Migrates (state S.Store conn.old) (state S.Store conn.new)) }
    ensures err { HasCleanDisk (state S.Store conn.new) → IsTrue (state S.Store conn.new).is_open
        → OnErr result (((state S.Store conn.new).now ≡ (state S.Store conn.old).now) ×
        ((state S.Store conn.new).committed ≡ (state S.Store conn.old).committed)) }
    ensures stop { HasCleanDisk (state S.Store conn.new) → (rows : RowsOf) → IsOpenStore IsFirstStore (state S.Store conn.old) rows → (left : Trees)
        → (state S.Store conn.new).may_leave left
        → (left ≡ (state S.Store conn.old).now.trees) ⊎ AreStore left (migrated rows) }
    ensures clean { HasCleanDisk (state S.Store conn.new) → HasCleanDisk (state S.Store conn.old) }
    ensures named { IfErr result (λ error. (error ≢ OldVersion) × (error ≢ NotThisStore)) }
{
    match transact(alloc, conn, &Migration) {
        Ok(()) => Ok(()),
        Err(error) => Err(write_cause_of(error)),
    }
}

/// Makes a store of version 2 one of version 3, in one transaction: there are no bars, and all other rows stay. A failure
/// changes nothing, and a stop inside the call leaves the store as it was, or as it is then.
pub fn raise_second<S: Alter>(alloc: Global, conn: &mut Connection<S>) -> Result<(), KeepError>
    ensures mode { conn.old.in_transaction ≡ false → conn.new.in_transaction ≡ false }
    ensures ok { HasCleanDisk (state S.Store conn.new) → OnOk result (Committed MigratesSecond (state S.Store conn.old) (state S.Store conn.new)) }
    ensures err { HasCleanDisk (state S.Store conn.new) → IsTrue (state S.Store conn.new).is_open
        → OnErr result (((state S.Store conn.new).now ≡ (state S.Store conn.old).now) ×
        ((state S.Store conn.new).committed ≡ (state S.Store conn.old).committed)) }
    ensures stop { HasCleanDisk (state S.Store conn.new) → (rows : RowsOf) → IsOpenStore IsSecondStore (state S.Store conn.old) rows → (left : Trees)
        → (state S.Store conn.new).may_leave left
        → (left ≡ (state S.Store conn.old).now.trees) ⊎ AreStore left rows }
    ensures clean { HasCleanDisk (state S.Store conn.new) → HasCleanDisk (state S.Store conn.old) }
    ensures named { IfErr result (λ error. (error ≢ OldVersion) × (error ≢ NotThisStore)) }
{
    match transact(alloc, conn, &SecondMigration) {
        Ok(()) => Ok(()),
        Err(error) => Err(write_cause_of(error)),
    }
}
