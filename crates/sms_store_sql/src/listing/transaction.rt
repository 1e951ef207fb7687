//! Whole transactions.
ghost use Rattle.std.specs.Prelude.{◌≡◌, false, IsTrue, IfErr, IfOk, OnOk, OnErr};
ghost use Rattle.sqlite.specs.State.{HasCleanDisk, IsUnchanged, KeepsCommit, Shows, Survives};
ghost use Rattle.sqlite.specs.Effect.{Database};
ghost use Rattle.sqlite.specs.Schema.{Schema};
ghost use Rattle.sqlite.specs.Held.{state};
ghost use Rattle.sms_store_sql.specs.listing.Causes.{IsOfNoRow};
ghost use Rattle.sms_store_sql.specs.listing.Inside.{MakesStep, Keeps, Spares};
ghost use Rattle.sms_store_sql.specs.listing.Transaction.{Committed, Leads, Leaves};

use sqlite::{Alter, Connection, Error, ErrorCode, Transaction};
use std::alloc::Global;

/// What one transaction changes.
pub trait Work {
    /// The database before it and after it.
    ghost changes: { Self → Database → Database → Type 0 };

    /// Makes the change, in as many statements as it takes.
    fn run<S: Alter>(&self, alloc: Global, tx: &mut Transaction<'_, S>) -> Result<(), Error>
        ensures same_reference { tx.new.conn.ghost_name ≡ tx.old.conn.ghost_name }
        ensures done { MakesStep S.Store tx.old.conn.now tx.new.conn.now (Leads (changes self.now)) result }
        ensures uncommitted { Keeps S.Store tx.old.conn.now tx.new.conn.now }
        ensures survives { Spares S.Store tx.old.conn.now tx.new.conn.now };
}

/// What one transaction reads.
pub trait Lookup {
    type Found: Drop;

    /// The schema of the databases in which it finds something.
    ghost schema: { Self → Schema };

    /// What it finds in a database.
    ghost finds: { Self → Database → Self.Found → Type 0 };

    /// Whether a database has what is looked for, so that it is read unless the disk or memory fails.
    ghost has: { Self → Database → Type 0 };

    /// Reads, in as many queries as it takes.
    fn read<S: Alter>(
        &self,
        alloc: Global,
        tx: &mut Transaction<'_, S>,
    ) -> Result<Self::Found, Error>
        ensures same_reference { tx.new.conn.ghost_name ≡ tx.old.conn.ghost_name }
        ensures found { HasCleanDisk (state S.Store tx.new.conn.now) → (state S.Store tx.old.conn.now).now.schema ≡ schema self.now
            → IfOk result (λ found. IsUnchanged (state S.Store tx.old.conn.now) (state S.Store tx.new.conn.now) × finds self.now
            (state S.Store tx.old.conn.now).now found) }
        ensures back { HasCleanDisk (state S.Store tx.new.conn.now) → (state S.Store tx.old.conn.now).now.schema ≡ schema self.now
            → has self.now (state S.Store tx.old.conn.now).now → IfErr result IsOfNoRow }
        ensures uncommitted { HasCleanDisk (state S.Store tx.new.conn.now) → (state S.Store tx.old.conn.now).now.schema ≡ schema self.now
            → KeepsCommit (state S.Store tx.old.conn.now) (state S.Store tx.new.conn.now) }
        ensures survives { Spares S.Store tx.old.conn.now tx.new.conn.now };
}

/// What is read of a database, in one transaction (`InTransaction`) or by queries one behind another.
pub trait Survey {
    type Found: Drop;

    /// The schema of the databases in which it finds something.
    ghost schema: { Self → Schema };

    /// What it finds in a database.
    ghost finds: { Self → Database → Self.Found → Type 0 };

    /// Whether a database has what is looked for, so that it is read unless the disk or memory fails.
    ghost has: { Self → Database → Type 0 };

    /// Reads, which changes nothing.
    fn survey<S: Alter>(
        &self,
        alloc: Global,
        conn: &mut Connection<S>,
    ) -> Result<Self::Found, Error>
        ensures mode { conn.old.in_transaction ≡ false → conn.new.in_transaction ≡ false }
        ensures ok { HasCleanDisk (state S.Store conn.new) → (state S.Store conn.old).now.schema ≡ schema self.now
            → IfOk result (λ found. Shows (state S.Store conn.old) (state S.Store conn.new) (state S.Store conn.old).now (state S.Store conn.old).now false
            × finds self.now (state S.Store conn.old).now found) }
        ensures err { HasCleanDisk (state S.Store conn.new) → (state S.Store conn.old).now.schema ≡ schema self.now → IsTrue (state S.Store conn.new).is_open
            → OnErr result (((state S.Store conn.new).now ≡ (state S.Store conn.old).now) ×
            ((state S.Store conn.new).committed ≡ (state S.Store conn.old).committed)) }
        ensures back { HasCleanDisk (state S.Store conn.new) → (state S.Store conn.old).now.schema ≡ schema self.now
            → has self.now (state S.Store conn.old).now → IfErr result IsOfNoRow }
        ensures stop { Survives (state S.Store conn.old) (state S.Store conn.new) (λ trees. (state S.Store conn.old).now.schema ≡ schema self.now
            → trees ≡ (state S.Store conn.old).now.trees) };
}

/// Makes the change in one transaction: all of it or nothing. A stop inside the call leaves the database as it was,
/// or as the change makes it.
pub fn transact<W: Work, S: Alter>(
    alloc: Global,
    conn: &mut Connection<S>,
    work: &W,
) -> Result<(), Error>
    ensures mode { conn.old.in_transaction ≡ false → conn.new.in_transaction ≡ false }
    ensures ok { HasCleanDisk (state S.Store conn.new) → OnOk result (Committed (W.changes work.now) (state S.Store conn.old) (state S.Store conn.new)) }
    ensures err { HasCleanDisk (state S.Store conn.new) → IsTrue (state S.Store conn.new).is_open
        → OnErr result (((state S.Store conn.new).now ≡ (state S.Store conn.old).now) ×
        ((state S.Store conn.new).committed ≡ (state S.Store conn.old).committed)) }
    ensures stop { Survives (state S.Store conn.old) (state S.Store conn.new) (λ trees. IsTrue (state S.Store conn.old).is_open
        → Leaves (W.changes work.now) (state S.Store conn.old) trees) }
{
    if !conn.is_autocommit() {
        return Err(Error::SqliteFailure(ErrorCode::TransactionState));
    }
    let mut tx = conn.transaction();
    work.run(alloc, &mut tx)?;
    tx.commit()
}

/// Reads in one transaction, which changes nothing.
pub fn look<L: Lookup, S: Alter>(
    alloc: Global,
    conn: &mut Connection<S>,
    lookup: &L,
) -> Result<L::Found, Error>
    ensures mode { conn.old.in_transaction ≡ false → conn.new.in_transaction ≡ false }
    ensures ok { HasCleanDisk (state S.Store conn.new) → (state S.Store conn.old).now.schema ≡ L.schema lookup.now
        → IfOk result (λ found. Shows (state S.Store conn.old) (state S.Store conn.new) (state S.Store conn.old).now (state S.Store conn.old).now false
        × L.finds lookup.now (state S.Store conn.old).now found) }
    ensures err { HasCleanDisk (state S.Store conn.new) → (state S.Store conn.old).now.schema ≡ L.schema lookup.now → IsTrue (state S.Store conn.new).is_open
        → OnErr result (((state S.Store conn.new).now ≡ (state S.Store conn.old).now) ×
        ((state S.Store conn.new).committed ≡ (state S.Store conn.old).committed)) }
    ensures back { HasCleanDisk (state S.Store conn.new) → (state S.Store conn.old).now.schema ≡ L.schema lookup.now
        → L.has lookup.now (state S.Store conn.old).now → IfErr result IsOfNoRow }
    ensures stop { Survives (state S.Store conn.old) (state S.Store conn.new) (λ trees. (state S.Store conn.old).now.schema ≡ L.schema lookup.now
        → trees ≡ (state S.Store conn.old).now.trees) }
{
    if !conn.is_autocommit() {
        return Err(Error::SqliteFailure(ErrorCode::TransactionState));
    }
    let mut tx = conn.transaction();
    let found = lookup.read(alloc, &mut tx)?;
    tx.commit()?;
    Ok(found)
}

/// What one transaction reads.
#[derive(Drop)]
pub struct InTransaction<'a, L: Lookup> {
    pub lookup: &'a L,
}

impl<'a, L: Lookup> Survey for InTransaction<'a, L> {
    type Found = L::Found;

    ghost schema = { λ it. L.schema it.lookup.now };

    ghost has = { λ it db. L.has it.lookup.now db };

    ghost finds = { λ it db found. L.finds it.lookup.now db found };

    fn survey<S: Alter>(&self, alloc: Global, conn: &mut Connection<S>) -> Result<L::Found, Error> {
        look(alloc, conn, self.lookup)
    }
}
