//! A look at the database of a connection.
ghost use Rattle.std.specs.Prelude.{◌≡◌, IfOk};
ghost use Rattle.sqlite.specs.Effect.{IsDatabase};
ghost use Rattle.sqlite.specs.Held.{state};
ghost use Rattle.sqlite.specs.State.{HasCleanDisk};
ghost use Rattle.sqlite_wal.specs.Recovery.{Image};
ghost use Rattle.sms_store_migration.specs.Versions.{IsStore};
ghost use Rattle.sms_store.specs.centre.CentreRows.{centre_stores};
ghost use Rattle.sms_store.specs.keeping.Closing.{HoldsStore};
ghost use Rattle.sms_store.specs.keeping.Opened.{IsIn, Opened};
ghost use Rattle.sms_store.specs.keeping.Stores.{IsStoreWith};
ghost use Rattle.sms_store.specs.centre.Types.{Rows as RowsOf};
ghost use Rattle.sms_store_sql.specs.listing.Transaction.{IsOpenStore};
ghost use Rattle.sms_store.specs.keeping.InKeep.{setup_in, state_in};

use crate::centre::CentreKeep;
use sms_centre_spec::{Rows, Setup};
use sms_rows::keep::{Keep, KeepError};
use sms_store_tables::centre::{is_centre_schema, is_first_schema, is_second_schema};
use sqlite::{Alter, Connection};
use std::alloc::Global;

/// What was found, and the connection by which it was found.
#[derive(Drop)]
pub struct Looked<S: Alter> {
    pub rows: Rows,
    pub conn: Connection<S>,
}

// The keep of a store that is there. A database without tables would become a new store, so it is refused.
fn keep_over<S: Alter + Drop>(
    alloc: Global,
    conn: Connection<S>,
    setup: Setup,
) -> Result<CentreKeep<S>, KeepError>
    ensures opened { IfOk result (λ keep. HasCleanDisk (state_in S.Store keep) → Opened centre_stores setup (state S.Store conn).now (state_in S.Store keep)) }
    ensures setup { IfOk result (λ keep. setup_in keep ≡ setup) }
    ensures clean { IfOk result (λ keep. HasCleanDisk (state_in S.Store keep) → HasCleanDisk (state S.Store conn)) }
{
    if is_centre_schema(conn.schema())
        || is_second_schema(conn.schema())
        || is_first_schema(conn.schema())
    {
        match CentreKeep::over(alloc, conn, setup) {
            Ok(keep) => Ok(keep),
            Err((error, _)) => Err(error),
        }
    } else {
        Err(KeepError::NotThisStore)
    }
}

// All rows of a keep.
fn look_in<S: Alter + Drop>(keep: CentreKeep<S>) -> Result<Looked<S>, KeepError>
    ensures clean { IfOk result (λ looked. HasCleanDisk (state S.Store looked.conn) → HasCleanDisk (state_in S.Store keep)) }
    ensures found { IfOk result (λ looked. HasCleanDisk (state S.Store looked.conn) → (rows : RowsOf)
        → IsOpenStore (IsStoreWith centre_stores (setup_in keep)) (state_in S.Store keep) rows
        → (looked.rows ≡ rows) × IsOpenStore IsStore (state S.Store looked.conn) rows) }
{
    let mut keep = keep;
    let rows = keep.load()?;
    Ok(Looked {
        rows,
        conn: keep.into_connection(),
    })
}

/// The rows of the centre's store that the connection is to. The setup is not stored: the one that is handed in is
/// among the rows. A store of version 1 or 2 is `OldVersion`, and what is no store of a centre `NotThisStore`.
pub fn look_over<S: Alter + Drop>(
    alloc: Global,
    conn: Connection<S>,
    setup: Setup,
) -> Result<Looked<S>, KeepError>
    // Whatever rows the database is the store of, they are found, and it is the store of them still.
    ensures found { IfOk result (λ looked. HasCleanDisk (state S.Store looked.conn) → (rows : RowsOf)
        → IsStoreWith centre_stores setup (state S.Store conn).now rows → (looked.rows ≡ rows) × IsOpenStore IsStore (state S.Store looked.conn) rows) }
    ensures clean { IfOk result (λ looked. HasCleanDisk (state S.Store looked.conn) → HasCleanDisk (state S.Store conn)) }
    // So are those of the store that two files hold, where the database is what these files hold.
    ensures held { IfOk result (λ looked. HasCleanDisk (state S.Store looked.conn) → (image : Image) (rows : RowsOf) → HoldsStore centre_stores image rows
        → IsDatabase (state S.Store conn).now → IsIn image (state S.Store conn).now → looked.rows ≡ record rows { setup = setup }) }
{
    let keep = keep_over(alloc, conn, setup)?;
    let looked = look_in(keep)?;
    Ok(looked)
}
