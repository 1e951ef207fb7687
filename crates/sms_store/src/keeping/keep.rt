//! The keep of a side's rows.
ghost use Rattle.std.specs.Prelude.{◌≡◌, ◌≢◌, ◌⊎◌, ⊤, Err, IfErr};
ghost use Rattle.sms_rows.specs.declared.keep.error.KeepError.TheVariants.{Closed, NotThisStore, OldVersion};
ghost use Rattle.sms_rows.specs.keep.StoreOutcome.{IfHeld, IsCounted, StoreOutcome, WasHonest};
ghost use Rattle.sms_centre_spec.specs.bodies.Storing.{IfClosed};
ghost use Rattle.sms_store_sql.specs.listing.Transaction.{MayLeave};
ghost use Rattle.sms_store.specs.keeping.Stores.{FindsRows, HasRows, IsStoreWith, LeavesBeforeOrAfter, LeavesRows, Turns};
ghost use Rattle.sms_store.specs.keeping.InKeep.{IsClosed, connection_in, setup_in, state_in, state_of};

use crate::keeping::sides::Kept;
use sms_rows::keep::{Keep, KeepError, Refusals, RowStore};
use sms_store_sql::listing::{Health, Survey, Work, look_or_close, transact_or_close};
use sqlite::{Alter, Connection, Error, ErrorCode, Transaction};
use std::alloc::Global;

/// The rows of a side in a database: a file, or memory.
#[derive(Drop)]
pub struct StoreKeep<P, S: Alter> {
    pub(crate) conn: Connection<S>,
    // Handed in at the opening, not stored.
    pub(crate) setup: P,
    pub(crate) alloc: Global,
    pub(crate) refusals: Refusals,
    pub(crate) health: Health,
}

impl<P: Drop, S: Alter> StoreKeep<P, S> {
    /// Gives the connection back.
    pub fn into_connection(self) -> Connection<S>
        ensures { result ≡ connection_in self }
    {
        let StoreKeep {
            conn,
            setup: _,
            alloc: _,
            refusals: _,
            health: _,
        } = self;
        conn
    }
}

/// The changes of an event, to be made in one transaction.
#[derive(Drop)]
struct Commit<'a, P: Kept> {
    changes: &'a P::Changes,
}

impl<'a, P: Kept> Work for Commit<'a, P> {
    ghost changes = { λ work. Turns P.stores (P.after work.changes.now) };

    fn run<S: Alter>(&self, alloc: Global, tx: &mut Transaction<'_, S>) -> Result<(), Error> {
        P::write(alloc, tx, self.changes)
    }
}

/// All rows, with the setup that was handed in.
#[derive(Drop)]
struct All<'a, P: Kept> {
    setup: &'a P,
}

impl<'a, P: Kept> Survey for All<'a, P> {
    type Found = P::Rows;

    ghost schema = { λ all. P.stores.schema };

    ghost has = { λ all db. HasRows P.stores all.setup.now db };

    ghost finds = { λ all db found. FindsRows P.stores all.setup.now db found };

    fn survey<S: Alter>(&self, alloc: Global, conn: &mut Connection<S>) -> Result<P::Rows, Error> {
        if !conn.is_autocommit() {
            return Err(Error::SqliteFailure(ErrorCode::TransactionState));
        }
        self.setup.read(alloc, conn)
    }
}

impl<P: Kept, S: Alter> RowStore for StoreKeep<P, S> {
    type Rows = P::Rows;

    ghost state = { λ keep. state_of P.stores S.Store keep };
}

impl<P: Kept, S: Alter> Keep for StoreKeep<P, S> {
    type Changes = P::Changes;

    ghost after = { λ changes rows. P.after changes rows };

    ghost may_leave = { λ keep left. MayLeave (IsStoreWith P.stores (setup_in keep)) (state_in S.Store keep) left };

    fn commit(&mut self, changes: &P::Changes) -> Result<(), KeepError>
        ensures outcome { (rows : P.Rows) → StoreOutcome (λ done. ⊤) rows (P.after changes.now rows)
            (state_of P.stores S.Store self.old) (state_of P.stores S.Store self.new) result }
        ensures stop { (rows : P.Rows) → IfHeld rows (state_of P.stores S.Store self.old) (state_of P.stores S.Store self.new) ((left : P.Rows)
            → MayLeave (IsStoreWith P.stores (setup_in self.new)) (state_in S.Store self.new) left → (left ≡ rows) ⊎ (left ≡ P.after changes.now rows)) }
        ensures disk { (rows : P.Rows) → IfHeld rows (state_of P.stores S.Store self.old) (state_of P.stores S.Store self.new)
            (LeavesBeforeOrAfter P.stores (state_in S.Store self.new) rows (P.after changes.now rows)) }
        ensures closed { IfClosed (state_of P.stores S.Store self.old) (state_of P.stores S.Store self.new) (result ≡ Err Closed) }
        ensures shut { result ≡ Err Closed → IsClosed S.Store self.new }
        ensures named { IfErr result (λ error. (error ≢ OldVersion) × (error ≢ NotThisStore)) }
        ensures before { WasHonest (state_of P.stores S.Store self.old) (state_of P.stores S.Store self.new) }
        ensures setup { setup_in self.new ≡ setup_in self.old }
        ensures counted { IsCounted (state_of P.stores S.Store self.old) (state_of P.stores S.Store self.new) result }
    {
        let work = Commit::<P> { changes };
        match transact_or_close(self.alloc, &mut self.conn, &mut self.health, &work) {
            Ok(()) => Ok(()),
            Err(error) => {
                self.refusals.call();
                Err(error)
            }
        }
    }

    fn load(&mut self) -> Result<P::Rows, KeepError>
        ensures outcome { (rows : P.Rows)
            → StoreOutcome (λ found. found ≡ rows) rows rows (state_of P.stores S.Store self.old) (state_of P.stores S.Store self.new) result }
        ensures stop { (rows : P.Rows) → IfHeld rows (state_of P.stores S.Store self.old) (state_of P.stores S.Store self.new) ((left : P.Rows)
            → MayLeave (IsStoreWith P.stores (setup_in self.new)) (state_in S.Store self.new) left → left ≡ rows) }
        ensures disk { (rows : P.Rows) → IfHeld rows (state_of P.stores S.Store self.old) (state_of P.stores S.Store self.new)
            (LeavesRows P.stores (state_in S.Store self.new) rows) }
        ensures closed { IfClosed (state_of P.stores S.Store self.old) (state_of P.stores S.Store self.new) (result ≡ Err Closed) }
        ensures shut { result ≡ Err Closed → IsClosed S.Store self.new }
        ensures back { (rows : P.Rows) → IfHeld rows (state_of P.stores S.Store self.old) (state_of P.stores S.Store self.new) (result ≢ Err NotThisStore) }
        ensures named { IfErr result (λ error. error ≢ OldVersion) }
        ensures before { WasHonest (state_of P.stores S.Store self.old) (state_of P.stores S.Store self.new) }
        ensures setup { setup_in self.new ≡ setup_in self.old }
        ensures counted { IsCounted (state_of P.stores S.Store self.old) (state_of P.stores S.Store self.new) result }
    {
        let all = All { setup: &self.setup };
        match look_or_close(self.alloc, &mut self.conn, &mut self.health, &all) {
            Ok(rows) => Ok(rows),
            Err(error) => {
                self.refusals.call();
                Err(error)
            }
        }
    }
}
