//! What makes a database ready, whatever the side.
ghost use Rattle.std.specs.Prelude.{◌≡◌, ◌≢◌, ◌⊎◌, false, IfErr, OnErr, OnOk, Ok, Err};
ghost use Rattle.sms_rows.specs.declared.keep.error.KeepError.TheVariants.{NotThisStore, OldVersion};
ghost use Rattle.sqlite.specs.Held.{state};
ghost use Rattle.sqlite.specs.State.{HasCleanDisk, Shows};
ghost use Rattle.sms_store_sql.specs.schema.Blank.{no_tables};
ghost use Rattle.sms_store.specs.keeping.Opened.{IsAsItWas, IsFounded, IsOfNoStore, LeavesStore};
ghost use Rattle.sms_store.specs.keeping.Stores.{Founds};

use crate::keeping::sides::Kept;
use sms_rows::keep::KeepError;
use sms_store_sql::listing::{Lookup, Work, look, transact, write_cause_of};
use sqlite::{Alter, Connection, Error, Transaction};
use std::alloc::Global;
use std::marker::PhantomData;

/// The tables and the first rows of a new store.
#[derive(Drop)]
struct Founding<P> {
    of: PhantomData<P>,
}

impl<P: Kept> Work for Founding<P> {
    ghost changes = { λ work. Founds P.stores };

    fn run<S: Alter>(&self, alloc: Global, tx: &mut Transaction<'_, S>) -> Result<(), Error> {
        P::make(alloc, tx)
    }
}

/// Makes an empty database the store of the first rows.
pub(crate) fn found<P: Kept, S: Alter>(
    alloc: Global,
    conn: &mut Connection<S>,
) -> Result<(), KeepError>
    ensures mode { conn.old.in_transaction ≡ false → conn.new.in_transaction ≡ false }
    ensures clean { HasCleanDisk (state S.Store conn.new) → HasCleanDisk (state S.Store conn.old) }
    ensures ok { HasCleanDisk (state S.Store conn.new) → (state S.Store conn.old).now.schema ≡ no_tables
        → OnOk result (IsFounded P.stores (state S.Store conn.new)) }
    ensures err { HasCleanDisk (state S.Store conn.new) → OnErr result (IsAsItWas (state S.Store conn.old) (state S.Store conn.new)) }
    ensures stop { (state S.Store conn.old).now.schema ≡ no_tables → LeavesStore P.stores (state S.Store conn.old) (state S.Store conn.new) }
    ensures named { IfErr result (λ error. (error ≢ OldVersion) × (error ≢ NotThisStore)) }
{
    let founding = Founding::<P> { of: PhantomData };
    match transact(alloc, conn, &founding) {
        Ok(()) => Ok(()),
        Err(error) => Err(write_cause_of(error)),
    }
}

/// Judges a store by what it says of itself. An error that says nothing about a store may take the place of the judgement.
pub(crate) fn judge_said<P: Kept, L: Lookup<Found = Result<(), KeepError>>, S: Alter>(
    alloc: Global,
    conn: &mut Connection<S>,
    said: &L,
) -> Result<(), KeepError>
    ensures mode { conn.old.in_transaction ≡ false → conn.new.in_transaction ≡ false }
    ensures clean { HasCleanDisk (state S.Store conn.new) → HasCleanDisk (state S.Store conn.old) }
    ensures ok { HasCleanDisk (state S.Store conn.new) → (state S.Store conn.old).now.schema ≡ L.schema said.now
        → OnOk result (Shows (state S.Store conn.old) (state S.Store conn.new) (state S.Store conn.old).now (state S.Store conn.old).now false
        × L.finds said.now (state S.Store conn.old).now (Ok tt)) }
    ensures err { HasCleanDisk (state S.Store conn.new) → (state S.Store conn.old).now.schema ≡ L.schema said.now
        → IfErr result (λ error. (IsOfNoStore error ⊎ L.finds said.now (state S.Store conn.old).now (Err error))
        × IsAsItWas (state S.Store conn.old) (state S.Store conn.new)) }
    ensures stop { (state S.Store conn.old).now.schema ≡ L.schema said.now → LeavesStore P.stores (state S.Store conn.old) (state S.Store conn.new) }
{
    match look(alloc, conn, said) {
        Ok(judgement) => judgement,
        Err(error) => Err(write_cause_of(error)),
    }
}
