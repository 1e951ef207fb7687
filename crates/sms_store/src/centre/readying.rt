//! Makes a database ready to be a store: an empty one gets its tables, and a store must say that it is the wanted one.
ghost use Rattle.std.specs.Prelude.{◌≡◌, false, IfErr, OnOk};
ghost use Rattle.sqlite.specs.Held.{state};
ghost use Rattle.sqlite.specs.State.{HasCleanDisk};
ghost use Rattle.sms_store.specs.centre.CentreRows.{centre_stores};
ghost use Rattle.sms_store.specs.centre.Refusing.{RefusesEarlier, RefusesNow};
ghost use Rattle.sms_store.specs.keeping.Opened.{IsAsItWas, IsOpened, LeavesStore};

use crate::keeping::{Openable, Said, found, judge_said};
use sms_centre_spec::Setup;
use sms_rows::keep::KeepError;
use sms_store_sql::listing::{KindOfStore, StoreKind};
use sms_store_sql::schema::is_blank;
use sms_store_tables::centre::{
    CentreStore, FirstCentreStore, SecondCentreStore, is_centre_schema, is_first_schema,
    is_second_schema,
};
use sqlite::{Alter, Connection};
use std::alloc::Global;
use std::marker::PhantomData;

/// An empty database becomes the store of a centre's first rows. One with the tables of version 3 must say that it is a
/// centre's store.
pub(crate) fn ready_current<S: Alter>(
    alloc: Global,
    conn: &mut Connection<S>,
) -> Result<(), KeepError>
    ensures mode { conn.old.in_transaction ≡ false → conn.new.in_transaction ≡ false }
    ensures clean { HasCleanDisk (state S.Store conn.new) → HasCleanDisk (state S.Store conn.old) }
    ensures ok { HasCleanDisk (state S.Store conn.new) → OnOk result (IsOpened centre_stores (state S.Store conn.old).now (state S.Store conn.new)) }
    ensures err { HasCleanDisk (state S.Store conn.new) → IfErr result (λ error. RefusesNow error (state S.Store conn.old).now
        × IsAsItWas (state S.Store conn.old) (state S.Store conn.new)) }
    ensures stop { LeavesStore centre_stores (state S.Store conn.old) (state S.Store conn.new) }
{
    if is_blank(conn.schema()) {
        return found::<Setup, S>(alloc, conn);
    }
    if !is_centre_schema(conn.schema()) {
        return Err(KeepError::NotThisStore);
    }
    let said = Said::<CentreStore> {
        kind: StoreKind::Centre,
        version: 3,
        of: PhantomData,
    };
    judge_said::<Setup, Said<CentreStore>, S>(alloc, conn, &said)
}

// One with the tables of an earlier version is refused, whatever it says of itself.
fn refuse_earlier<K: KindOfStore, S: Alter>(
    alloc: Global,
    conn: &mut Connection<S>,
) -> Result<(), KeepError>
    ensures mode { conn.old.in_transaction ≡ false → conn.new.in_transaction ≡ false }
    ensures clean { HasCleanDisk (state S.Store conn.new) → HasCleanDisk (state S.Store conn.old) }
    ensures ok { OnOk result (IsOpened centre_stores (state S.Store conn.old).now (state S.Store conn.new)) }
    ensures err { HasCleanDisk (state S.Store conn.new) → (state S.Store conn.old).now.schema ≡ K.schema
        → IfErr result (λ error. RefusesEarlier K.schema error (state S.Store conn.old).now × IsAsItWas (state S.Store conn.old) (state S.Store conn.new)) }
    ensures stop { (state S.Store conn.old).now.schema ≡ K.schema → LeavesStore centre_stores (state S.Store conn.old) (state S.Store conn.new) }
{
    let said = Said::<K> {
        kind: StoreKind::Centre,
        version: 3,
        of: PhantomData,
    };
    match judge_said::<Setup, Said<K>, S>(alloc, conn, &said) {
        Ok(()) => Err(KeepError::NotThisStore),
        Err(error) => Err(error),
    }
}

impl Openable for Setup {
    fn ready<S: Alter>(alloc: Global, conn: &mut Connection<S>) -> Result<(), KeepError> {
        if is_first_schema(conn.schema()) {
            return refuse_earlier::<FirstCentreStore, S>(alloc, conn);
        }
        if is_second_schema(conn.schema()) {
            return refuse_earlier::<SecondCentreStore, S>(alloc, conn);
        }
        ready_current(alloc, conn)
    }
}
