//! A keep of a store of an earlier version, which becomes one of version 3.
ghost use Rattle.std.specs.Prelude.{◌≡◌, false, IfErr, IfOk, MatchOption, OnOk};
ghost use Rattle.sqlite.specs.Files.{file_state};
ghost use Rattle.sqlite.specs.Held.{state};
ghost use Rattle.sqlite.specs.Effect.{Database, IsDatabase};
ghost use Rattle.sqlite.specs.State.{HasCleanDisk};
ghost use Rattle.sqlite_wal.specs.Files.{image_at};
ghost use Rattle.sms_store_sql.specs.listing.Transaction.{Committed};
ghost use Rattle.sms_store_migration.specs.Migrating.{Migrates, MigratesSecond};
ghost use Rattle.sms_store.specs.centre.Migrating.{IsMigrated, Migrated};
ghost use Rattle.sms_store_tables.specs.centre.CentreSchema.{first_schema, second_schema};
ghost use Rattle.sms_store_tables.specs.centre.MetaList.{first_list, second_list};
ghost use Rattle.sms_store_sql.specs.declared.listing.meta.StoreKind.TheVariants.{Centre};
ghost use Rattle.sms_store.specs.centre.CentreRows.{centre_stores};
ghost use Rattle.sms_store.specs.centre.Refusing.{Refuses, SaysFirst, SaysSecond};
ghost use Rattle.sms_store.specs.centre.Stopping.{LeavesRaised};
ghost use Rattle.sms_store.specs.keeping.InKeep.{connection_in, setup_in, state_in};
ghost use Rattle.sms_store.specs.keeping.Opened.{IsAsItWas, IsIn, IsOfNoStore, LeavesStore};
ghost use Rattle.sms_store.specs.keeping.Refusing.{RefusesSaid};

use crate::centre::CentreKeep;
use crate::centre::readying::ready_current;
use crate::keeping::{Said, StoreKeep, judge_said};
use sms_centre_spec::Setup;
use sms_rows::keep::{KeepError, Refusals};
use sms_store_migration::{raise, raise_second};
use sms_store_sql::listing::{Health, StoreKind, write_cause_of};
use sms_store_tables::centre::{
    FirstCentreStore, SecondCentreStore, is_first_schema, is_second_schema,
};
use sqlite::{Alter, Connection, File, FileFrom, FileStore, Start, Unknown};
use std::alloc::Global;
use std::marker::PhantomData;

// Makes a store that says that it is of version 1 one of version 3.
fn raise_first<S: Alter>(alloc: Global, conn: &mut Connection<S>) -> Result<(), KeepError>
    ensures mode { conn.old.in_transaction ≡ false → conn.new.in_transaction ≡ false }
    ensures clean { HasCleanDisk (state S.Store conn.new) → HasCleanDisk (state S.Store conn.old) }
    ensures ok { HasCleanDisk (state S.Store conn.new) → (state S.Store conn.old).now.schema ≡ first_schema
        → OnOk result (Committed Migrates (state S.Store conn.old) (state S.Store conn.new) × SaysFirst 1 (Ok tt) (state S.Store conn.old).now) }
    ensures err { HasCleanDisk (state S.Store conn.new) → (state S.Store conn.old).now.schema ≡ first_schema
        → IfErr result (λ error. RefusesSaid first_schema first_list Centre 1 error (state S.Store conn.old).now
        × IsAsItWas (state S.Store conn.old) (state S.Store conn.new)) }
    ensures stop { (state S.Store conn.old).now.schema ≡ first_schema → LeavesStore centre_stores (state S.Store conn.old) (state S.Store conn.new) }
{
    let said = Said::<FirstCentreStore> {
        kind: StoreKind::Centre,
        version: 1,
        of: PhantomData,
    };
    match judge_said::<Setup, Said<FirstCentreStore>, S>(alloc, conn, &said) {
        Ok(()) => raise(alloc, conn),
        Err(error) => Err(error),
    }
}

// Makes a store that says that it is of version 2 one of version 3.
fn raise_second_said<S: Alter>(alloc: Global, conn: &mut Connection<S>) -> Result<(), KeepError>
    ensures mode { conn.old.in_transaction ≡ false → conn.new.in_transaction ≡ false }
    ensures clean { HasCleanDisk (state S.Store conn.new) → HasCleanDisk (state S.Store conn.old) }
    ensures ok { HasCleanDisk (state S.Store conn.new) → (state S.Store conn.old).now.schema ≡ second_schema
        → OnOk result (Committed MigratesSecond (state S.Store conn.old) (state S.Store conn.new) × SaysSecond 2 (Ok tt) (state S.Store conn.old).now) }
    ensures err { HasCleanDisk (state S.Store conn.new) → (state S.Store conn.old).now.schema ≡ second_schema
        → IfErr result (λ error. RefusesSaid second_schema second_list Centre 2 error (state S.Store conn.old).now
        × IsAsItWas (state S.Store conn.old) (state S.Store conn.new)) }
    ensures stop { (state S.Store conn.old).now.schema ≡ second_schema → LeavesStore centre_stores (state S.Store conn.old) (state S.Store conn.new) }
{
    let said = Said::<SecondCentreStore> {
        kind: StoreKind::Centre,
        version: 2,
        of: PhantomData,
    };
    match judge_said::<Setup, Said<SecondCentreStore>, S>(alloc, conn, &said) {
        Ok(()) => raise_second(alloc, conn),
        Err(error) => Err(error),
    }
}

// Makes a database ready as `ready` does, and a store of an earlier version one of version 3.
fn ready_raised<S: Alter>(alloc: Global, conn: &mut Connection<S>) -> Result<(), KeepError>
    ensures mode { conn.old.in_transaction ≡ false → conn.new.in_transaction ≡ false }
    ensures clean { HasCleanDisk (state S.Store conn.new) → HasCleanDisk (state S.Store conn.old) }
    ensures ok { HasCleanDisk (state S.Store conn.new) → OnOk result (IsMigrated (state S.Store conn.old).now (state S.Store conn.new)) }
    ensures err { HasCleanDisk (state S.Store conn.new) → IfErr result (λ error. Refuses 1 error (state S.Store conn.old).now
        × IsAsItWas (state S.Store conn.old) (state S.Store conn.new)) }
    ensures stop { LeavesStore centre_stores (state S.Store conn.old) (state S.Store conn.new) }
{
    if is_first_schema(conn.schema()) {
        return raise_first(alloc, conn);
    }
    if is_second_schema(conn.schema()) {
        return raise_second_said(alloc, conn);
    }
    ready_current(alloc, conn)
}

impl<S: Alter + Drop> CentreKeep<S> {
    /// Opens as `over` does, and makes a store of version 1 or 2 one of version 3 first. An error gives the connection
    /// back, unchanged or closed. A stop inside the call leaves the store of that version, or one of version 3 with its rows.
    /// Once the keep is there, a stop leaves what the keep has.
    pub fn migrate_over(
        alloc: Global,
        conn: Connection<S>,
        setup: Setup,
    ) -> Result<CentreKeep<S>, (KeepError, Connection<S>)>
        ensures migrated { IfOk result (λ keep. HasCleanDisk (state_in S.Store keep) → Migrated setup (state S.Store conn).now (state_in S.Store keep)) }
        ensures setup { IfOk result (λ keep. setup_in keep ≡ setup) }
        ensures clean { IfOk result (λ keep. HasCleanDisk (state_in S.Store keep) → HasCleanDisk (state S.Store conn)) }
        ensures settled { IfOk result (λ keep. HasCleanDisk (state_in S.Store keep) → LeavesRaised setup (state S.Store conn).now (state_in S.Store keep)) }
        ensures was_clean { IfErr result (λ e. HasCleanDisk (state S.Store e.1) → HasCleanDisk (state S.Store conn)) }
        ensures mode { IfErr result (λ e. conn.in_transaction ≡ false → e.1.in_transaction ≡ false) }
        ensures refused { IfErr result (λ e. HasCleanDisk (state S.Store e.1) → Refuses 1 e.0 (state S.Store conn).now) }
        ensures unchanged { IfErr result (λ e. HasCleanDisk (state S.Store e.1) → IsAsItWas (state S.Store conn) (state S.Store e.1)) }
        ensures stop { IfErr result (λ e. LeavesStore centre_stores (state S.Store conn) (state S.Store e.1)) }
    {
        let mut conn = conn;
        match ready_raised(alloc, &mut conn) {
            Ok(()) => Ok(StoreKeep {
                conn,
                setup,
                alloc,
                refusals: Refusals::none(),
                health: Health::Sound,
            }),
            Err(error) => Err((error, conn)),
        }
    }
}

impl<T: Start> CentreKeep<FileStore<FileFrom<T>>> {
    /// Opens the file at the path as `open_from` does, and makes a store of version 1 or 2 one of version 3 first.
    pub fn migrate_from(
        rt: &HostRuntime,
        path: &str,
        start: T,
        setup: Setup,
    ) -> Result<
        CentreKeep<FileStore<FileFrom<T>>>,
        (KeepError, Option<Connection<FileStore<FileFrom<T>>>>),
    >
        ensures migrated { IfOk result (λ keep. (old : Database)
            × (HasCleanDisk (file_state (connection_in keep)) → IsDatabase old × IsIn (image_at T.Start) old
            × Migrated setup old (file_state (connection_in keep)) × LeavesRaised setup old (file_state (connection_in keep)))) }
        ensures setup { IfOk result (λ keep. setup_in keep ≡ setup) }
        ensures refused { IfErr result (λ e. MatchOption e.1 (IsOfNoStore e.0) (λ conn. (old : Database)
            × (HasCleanDisk (file_state conn) → IsDatabase old × IsIn (image_at T.Start) old × Refuses 1 e.0 old))) }
    {
        let conn = match Connection::open_from(rt, path, false, start) {
            Ok(conn) => conn,
            Err((error, _)) => return Err((write_cause_of(error), None)),
        };
        match CentreKeep::migrate_over(rt.alloc(), conn, setup) {
            Ok(keep) => Ok(keep),
            Err((error, conn)) => Err((error, Some(conn))),
        }
    }
}

impl CentreKeep<FileStore<File>> {
    /// Opens the file at the path as `open` does, and makes a store of version 1 or 2 one of version 3 first.
    pub fn migrate(
        rt: &HostRuntime,
        path: &str,
        setup: Setup,
    ) -> Result<CentreKeep<FileStore<File>>, (KeepError, Option<Connection<FileStore<File>>>)>
        ensures migrated { IfOk result (λ keep. (old : Database)
            × (HasCleanDisk (file_state (connection_in keep)) → IsDatabase old × Migrated setup old (file_state (connection_in keep))
            × LeavesRaised setup old (file_state (connection_in keep)))) }
        ensures setup { IfOk result (λ keep. setup_in keep ≡ setup) }
        ensures refused { IfErr result (λ e. MatchOption e.1 (IsOfNoStore e.0) (λ conn. (old : Database)
            × (HasCleanDisk (file_state conn) → IsDatabase old × Refuses 1 e.0 old))) }
    {
        CentreKeep::migrate_from(rt, path, Unknown, setup)
    }
}
