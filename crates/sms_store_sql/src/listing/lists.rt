//! Lists that are read one behind another.
ghost use Rattle.std.specs.Prelude.{◌≡◌, false, IfErr, IfOk};
ghost use Rattle.sqlite.specs.Effect.{Database};
ghost use Rattle.sqlite.specs.Held.{state};
ghost use Rattle.sqlite.specs.State.{HasCleanDisk, IsUnchanged, Survives};
ghost use Rattle.sms_store_sql.specs.listing.Causes.{IsOfNoRow};
ghost use Rattle.sms_store_sql.specs.listing.Inside.{StaysOutside};
ghost use Rattle.sms_store_sql.specs.listing.Lists.{FindsList, HoldsList, KnowsList};

use crate::listing::list::StoredRow;
use crate::listing::loading::load;
use sqlite::{Alter, Connection, Error};
use std::alloc::Global;
use std::marker::PhantomData;

/// Some lists of a kind of store.
pub trait StoredLists<K> {
    /// The rows of each.
    type Rows: Drop;

    /// The database has the tables of their schema.
    ghost knows: { Database → Type 0 };

    /// The database holds each of them.
    ghost holds: { Database → Type 0 };

    /// What they find in a database.
    ghost finds: { Database → Self.Rows → Type 0 };

    /// Reads them one behind another, outside a transaction. Rows that `put` has put are never refused as those of no store.
    fn load_all<S: Alter>(alloc: Global, conn: &mut Connection<S>) -> Result<Self::Rows, Error>
        ensures mode { conn.old.in_transaction ≡ false → conn.new.in_transaction ≡ false }
        ensures found { HasCleanDisk (state S.Store conn.new) → knows (state S.Store conn.old).now
            → IfOk result (λ rows. IsUnchanged (state S.Store conn.old) (state S.Store conn.new) × finds (state S.Store conn.old).now rows) }
        ensures back { HasCleanDisk (state S.Store conn.new) → knows (state S.Store conn.old).now → holds (state S.Store conn.old).now
            → IfErr result IsOfNoRow }
        ensures stays { HasCleanDisk (state S.Store conn.new) → knows (state S.Store conn.old).now
            → StaysOutside (state S.Store conn.old) (state S.Store conn.new) }
        ensures survives { Survives (state S.Store conn.old) (state S.Store conn.new) (λ _. knows (state S.Store conn.old).now → ⊥) };
}

/// The last list. No value of it is made.
pub struct Last<T> {
    of: PhantomData<T>,
}

/// A list, and those behind it. No value of it is made.
pub struct Then<T, More> {
    of: PhantomData<T>,
    more: PhantomData<More>,
}

impl<K, T: Drop + StoredRow<K>> StoredLists<K> for Last<T> {
    type Rows = Vec<T>;

    ghost knows = { λ db. KnowsList T.list db };

    ghost holds = { λ db. HoldsList T.list db };

    ghost finds = { λ db rows. FindsList T.list db rows.items };

    fn load_all<S: Alter>(alloc: Global, conn: &mut Connection<S>) -> Result<Vec<T>, Error> {
        load::<K, T, S>(alloc, conn)
    }
}

impl<K, T: Drop + StoredRow<K>, More: StoredLists<K>> StoredLists<K> for Then<T, More> {
    type Rows = (Vec<T>, More::Rows);

    ghost knows = { λ db. KnowsList T.list db × More.knows db };

    ghost holds = { λ db. HoldsList T.list db × More.holds db };

    ghost finds = { λ db rows. FindsList T.list db rows.0.items × More.finds db rows.1 };

    fn load_all<S: Alter>(
        alloc: Global,
        conn: &mut Connection<S>,
    ) -> Result<(Vec<T>, More::Rows), Error> {
        let first = load::<K, T, S>(alloc, conn)?;
        let more = More::load_all(alloc, conn)?;
        Ok((first, more))
    }
}
