//! Transactions of a keep, which a failure may close.
//!
//! A failed call leaves the database as it was, or a closed connection, and its error does not say which. So the next
//! call of the keep first asks the connection, by a transaction that changes nothing. A keep that was found closed
//! refuses every call with `Closed`.
ghost use Rattle.std.specs.Prelude.{◌≡◌, ◌≢◌, false, IfErr, IfOk, IsTrue, OnErr, OnOk};
ghost use Rattle.sqlite.specs.State.{HasCleanDisk, Shows, Survives};
ghost use Rattle.sqlite.specs.Held.{state};
ghost use Rattle.sms_rows.specs.declared.keep.error.KeepError.TheVariants as refusal;
ghost use Rattle.sms_store_sql.specs.declared.listing.closing.Health.TheVariants as known;
ghost use Rattle.sms_store_sql.specs.listing.Closing.{IsAsItWas, IsShut, LeavesEither, Rested, Rests, health_after};
ghost use Rattle.sms_store_sql.specs.listing.Transaction.{Committed};

use crate::listing::cause::{load_cause_of, write_cause_of};
use crate::listing::transaction::{Survey, Work, transact};
use sms_rows::keep::KeepError;
use sqlite::{Alter, Connection, Error, Transaction};
use std::alloc::Global;

/// What a keep knows of its connection.
#[derive(Clone, Copy, PartialEq, Eq)]
pub enum Health {
    /// No call has failed since the connection was last asked.
    Sound,
    /// A call has failed, which may have closed the connection.
    InDoubt,
    /// The connection is closed.
    Closed,
}

impl Health {
    /// A call was refused.
    pub(crate) fn fail(&mut self, error: KeepError)
        ensures { self.new ≡ health_after error }
    {
        *self = match error {
            KeepError::Closed => Health::Closed,
            KeepError::OldVersion
            | KeepError::NotThisStore
            | KeepError::Disk
            | KeepError::Full
            | KeepError::NoMemory
            | KeepError::Interrupted => Health::InDoubt,
        };
    }
}

/// Nothing: a connection that is closed refuses even that.
#[derive(Drop)]
struct Rest;

impl Work for Rest {
    ghost changes = { λ work. Rests };

    fn run<S: Alter>(&self, _alloc: Global, _tx: &mut Transaction<'_, S>) -> Result<(), Error> {
        Ok(())
    }
}

// Asks a connection in doubt.
fn ask<S: Alter>(
    alloc: Global,
    conn: &mut Connection<S>,
    health: &mut Health,
) -> Result<(), KeepError>
    ensures ok { HasCleanDisk (state S.Store conn.new) → OnOk result (Committed Rests (state S.Store conn.old) (state S.Store conn.new)) }
    ensures sound { OnOk result (health.new ≡ known.Sound) }
    ensures err { HasCleanDisk (state S.Store conn.new) → OnErr result (IsAsItWas (state S.Store conn.old) (state S.Store conn.new)) }
    ensures refused { IfErr result (λ e. (e ≡ refusal.Closed) × (health.new ≡ known.Closed)) }
    ensures mode { conn.old.in_transaction ≡ false → conn.new.in_transaction ≡ false }
    ensures stop { Survives (state S.Store conn.old) (state S.Store conn.new)
        (λ trees. IsTrue (state S.Store conn.old).is_open → trees ≡ (state S.Store conn.old).now.trees) }
{
    match transact(alloc, conn, &Rest) {
        Ok(()) => {
            *health = Health::Sound;
            Ok(())
        }
        Err(_) => {
            *health = Health::Closed;
            Err(KeepError::Closed)
        }
    }
}

// A keep that is closed refuses. Otherwise the database is as it was.
fn admit<S: Alter>(
    alloc: Global,
    conn: &mut Connection<S>,
    health: &mut Health,
) -> Result<(), KeepError>
    ensures ok { HasCleanDisk (state S.Store conn.new) → OnOk result (Rested (state S.Store conn.old) (state S.Store conn.new)) }
    ensures sound { OnOk result (health.new ≡ known.Sound) }
    ensures closed { HasCleanDisk (state S.Store conn.new) → IsShut health.old (state S.Store conn.old) → OnOk result ⊥ }
    ensures err { HasCleanDisk (state S.Store conn.new) → OnErr result (IsAsItWas (state S.Store conn.old) (state S.Store conn.new)) }
    ensures refused { IfErr result (λ e. (e ≡ refusal.Closed) × (health.new ≡ known.Closed)) }
    ensures mode { conn.old.in_transaction ≡ false → conn.new.in_transaction ≡ false }
    ensures stop { Survives (state S.Store conn.old) (state S.Store conn.new)
        (λ trees. IsTrue (state S.Store conn.old).is_open → trees ≡ (state S.Store conn.old).now.trees) }
{
    match *health {
        Health::Sound => Ok(()),
        Health::InDoubt => ask(alloc, conn, health),
        Health::Closed => Err(KeepError::Closed),
    }
}

/// Makes the change in one transaction, as `transact` does, for a keep. A keep that is closed refuses with `Closed`, and a
/// keep that refused so is closed.
pub fn transact_or_close<W: Work, S: Alter>(
    alloc: Global,
    conn: &mut Connection<S>,
    health: &mut Health,
    work: &W,
) -> Result<(), KeepError>
    ensures ok { HasCleanDisk (state S.Store conn.new) → OnOk result (Committed (W.changes work.now) (state S.Store conn.old) (state S.Store conn.new)) }
    ensures sound { OnOk result (health.new ≡ known.Sound) }
    ensures closed { HasCleanDisk (state S.Store conn.new) → IsShut health.old (state S.Store conn.old) → result ≡ Err refusal.Closed }
    ensures err { HasCleanDisk (state S.Store conn.new) → OnErr result (IsAsItWas (state S.Store conn.old) (state S.Store conn.new)) }
    ensures refused { IfErr result (λ e. health.new ≡ health_after e) }
    ensures named { IfErr result (λ e. (e ≢ refusal.OldVersion) × (e ≢ refusal.NotThisStore)) }
    ensures mode { conn.old.in_transaction ≡ false → conn.new.in_transaction ≡ false }
    ensures stop { Survives (state S.Store conn.old) (state S.Store conn.new)
        (λ trees. IsTrue (state S.Store conn.old).is_open → LeavesEither (W.changes work.now) (state S.Store conn.old) trees) }
{
    admit(alloc, conn, health)?;
    match transact(alloc, conn, work) {
        Ok(()) => Ok(()),
        Err(error) => {
            let cause = write_cause_of(error);
            health.fail(cause);
            Err(cause)
        }
    }
}

/// Reads for a keep. A keep that is closed refuses with `Closed`, and a keep that refused so is closed.
pub fn look_or_close<V: Survey, S: Alter>(
    alloc: Global,
    conn: &mut Connection<S>,
    health: &mut Health,
    wanted: &V,
) -> Result<V::Found, KeepError>
    ensures ok { HasCleanDisk (state S.Store conn.new) → (state S.Store conn.old).now.schema ≡ V.schema wanted.now
        → IfOk result (λ found. Shows (state S.Store conn.old) (state S.Store conn.new) (state S.Store conn.old).now (state S.Store conn.old).now false
        × V.finds wanted.now (state S.Store conn.old).now found) }
    ensures sound { OnOk result (health.new ≡ known.Sound) }
    ensures closed { HasCleanDisk (state S.Store conn.new) → IsShut health.old (state S.Store conn.old) → result ≡ Err refusal.Closed }
    ensures err { HasCleanDisk (state S.Store conn.new) → (state S.Store conn.old).now.schema ≡ V.schema wanted.now
        → OnErr result (IsAsItWas (state S.Store conn.old) (state S.Store conn.new)) }
    ensures back { HasCleanDisk (state S.Store conn.new) → (state S.Store conn.old).now.schema ≡ V.schema wanted.now
        → V.has wanted.now (state S.Store conn.old).now → result ≢ Err refusal.NotThisStore }
    ensures refused { IfErr result (λ e. health.new ≡ health_after e) }
    ensures named { IfErr result (λ e. e ≢ refusal.OldVersion) }
    ensures mode { conn.old.in_transaction ≡ false → conn.new.in_transaction ≡ false }
    ensures stop { Survives (state S.Store conn.old) (state S.Store conn.new)
        (λ trees. IsTrue (state S.Store conn.old).is_open → (state S.Store conn.old).now.schema ≡ V.schema wanted.now → trees ≡
        (state S.Store conn.old).now.trees) }
{
    admit(alloc, conn, health)?;
    match wanted.survey(alloc, conn) {
        Ok(found) => Ok(found),
        Err(error) => {
            let cause = load_cause_of(error);
            health.fail(cause);
            Err(cause)
        }
    }
}
