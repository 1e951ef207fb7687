//! Opens a keep.
ghost use Rattle.std.specs.Prelude.{◌≡◌, false, IfErr, IfOk, MatchOption};
ghost use Rattle.sqlite.specs.Files.{file_state};
ghost use Rattle.sqlite.specs.Held.{state};
ghost use Rattle.sqlite.specs.Effect.{Database, IsDatabase};
ghost use Rattle.sqlite.specs.State.{HasCleanDisk};
ghost use Rattle.sqlite.specs.Steps.{over_memory};
ghost use Rattle.sqlite_wal.specs.Files.{image_at};
ghost use Rattle.sms_store_sql.specs.listing.Transaction.{IsOpenStore};
ghost use Rattle.sms_store.specs.keeping.Opened.{IsAsItWas, IsIn, IsOfNoStore, LeavesStore, Opened};
ghost use Rattle.sms_store.specs.keeping.Stores.{IsStoreWith};
ghost use Rattle.sms_store.specs.keeping.InKeep.{connection_in, setup_in, state_in};

use crate::keeping::keep::StoreKeep;
use crate::keeping::readying::found;
use crate::keeping::sides::{Kept, Openable};
use sms_rows::keep::{KeepError, Refusals};
use sms_store_sql::listing::{Health, write_cause_of};
use sqlite::{Alter, Connection, File, FileFrom, FileStore, MemStore, Start, Unknown};
use std::alloc::Global;

impl<P: Openable, S: Alter + Drop> StoreKeep<P, S> {
    /// Keeps the rows of the connection's database: those of a store of this version, or the first rows where it has no
    /// tables. It refuses every other database. An error gives the connection back, unchanged or closed. A stop inside
    /// the call leaves the database as it was, or the store of the first rows where it had no tables.
    pub fn over(
        alloc: Global,
        conn: Connection<S>,
        setup: P,
    ) -> Result<StoreKeep<P, S>, (KeepError, Connection<S>)>
        ensures opened { IfOk result (λ keep. HasCleanDisk (state_in S.Store keep) → Opened P.stores setup (state S.Store conn).now (state_in S.Store keep)) }
        ensures setup { IfOk result (λ keep. setup_in keep ≡ setup) }
        ensures clean { IfOk result (λ keep. HasCleanDisk (state_in S.Store keep) → HasCleanDisk (state S.Store conn)) }
        ensures settled { IfOk result (λ keep. LeavesStore P.stores (state S.Store conn) (state_in S.Store keep)) }
        ensures was_clean { IfErr result (λ e. HasCleanDisk (state S.Store e.1) → HasCleanDisk (state S.Store conn)) }
        ensures mode { IfErr result (λ e. conn.in_transaction ≡ false → e.1.in_transaction ≡ false) }
        ensures refused { IfErr result (λ e. HasCleanDisk (state S.Store e.1) → P.stores.Refuses e.0 (state S.Store conn).now) }
        ensures unchanged { IfErr result (λ e. HasCleanDisk (state S.Store e.1) → IsAsItWas (state S.Store conn) (state S.Store e.1)) }
        ensures stop { IfErr result (λ e. LeavesStore P.stores (state S.Store conn) (state S.Store e.1)) }
    {
        let mut conn = conn;
        match P::ready(alloc, &mut conn) {
            Ok(()) => Ok(StoreKeep {
                conn,
                setup,
                alloc,
                refusals: Refusals::none(),
                health: Health::Sound,
            }),
            Err(error) => Err((error, conn)),
        }
    }
}

impl<P: Openable, T: Start> StoreKeep<P, FileStore<FileFrom<T>>> {
    /// Opens the file at the path, or makes it, and keeps the rows there. An error has the connection that `over` gives
    /// back, or none where the file can't be opened.
    pub fn open_from(
        rt: &HostRuntime,
        path: &str,
        start: T,
        setup: P,
    ) -> Result<
        StoreKeep<P, FileStore<FileFrom<T>>>,
        (KeepError, Option<Connection<FileStore<FileFrom<T>>>>),
    >
        ensures opened { IfOk result (λ keep. (old : Database)
            × (HasCleanDisk (file_state (connection_in keep)) → IsDatabase old × IsIn (image_at T.Start) old
            × Opened P.stores setup old (file_state (connection_in keep)))) }
        ensures setup { IfOk result (λ keep. setup_in keep ≡ setup) }
        ensures refused { IfErr result (λ e. MatchOption e.1 (IsOfNoStore e.0) (λ conn. (old : Database)
            × (HasCleanDisk (file_state conn) → IsDatabase old × IsIn (image_at T.Start) old × P.stores.Refuses e.0 old))) }
    {
        let conn = match Connection::open_from(rt, path, false, start) {
            Ok(conn) => conn,
            Err((error, _)) => return Err((write_cause_of(error), None)),
        };
        match StoreKeep::over(rt.alloc(), conn, setup) {
            Ok(keep) => Ok(keep),
            Err((error, conn)) => Err((error, Some(conn))),
        }
    }
}

impl<P: Openable> StoreKeep<P, FileStore<File>> {
    /// Opens the file at the path, or makes it, and keeps the rows there. It supposes of the disk that a torn write leaves
    /// each byte old or new; `open_from` with `Wary` does not.
    pub fn open(
        rt: &HostRuntime,
        path: &str,
        setup: P,
    ) -> Result<StoreKeep<P, FileStore<File>>, (KeepError, Option<Connection<FileStore<File>>>)>
        ensures opened { IfOk result (λ keep. (old : Database)
            × (HasCleanDisk (file_state (connection_in keep)) → IsDatabase old × Opened P.stores setup old (file_state (connection_in keep)))) }
        ensures setup { IfOk result (λ keep. setup_in keep ≡ setup) }
        ensures refused { IfErr result (λ e. MatchOption e.1 (IsOfNoStore e.0) (λ conn. (old : Database)
            × (HasCleanDisk (file_state conn) → IsDatabase old × P.stores.Refuses e.0 old))) }
    {
        StoreKeep::open_from(rt, path, Unknown, setup)
    }
}

/// A keep in memory, of the first rows.
pub fn in_memory<P: Kept>(alloc: Global, setup: P) -> Result<StoreKeep<P, MemStore>, KeepError>
    ensures founded { IfOk result (λ keep. IsOpenStore (IsStoreWith P.stores setup) (state_in over_memory keep) (P.stores.first_rows setup)) }
    ensures setup { IfOk result (λ keep. setup_in keep ≡ setup) }
    ensures refused { IfErr result IsOfNoStore }
{
    let mut conn = match Connection::open_in_memory(alloc) {
        Ok(conn) => conn,
        Err(_) => return Err(KeepError::NoMemory),
    };
    match found::<P, MemStore>(alloc, &mut conn) {
        Ok(()) => Ok(StoreKeep {
            conn,
            setup,
            alloc,
            refusals: Refusals::none(),
            health: Health::Sound,
        }),
        Err(error) => Err(error),
    }
}
