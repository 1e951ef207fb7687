//! What one who also opens a store of version 1 finds of a keep that was closed.
ghost use Rattle.sqlite.specs.Effect.{Database, IsDatabase};
ghost use Rattle.sqlite_wal.specs.Recovery.{Image};
ghost use Rattle.sms_store_sql.specs.listing.Transaction.{IsOpenStore};
ghost use Rattle.sms_store.specs.centre.CentreRows.{centre_stores};
ghost use Rattle.sms_store.specs.centre.Migrating.{Migrated};
ghost use Rattle.sms_store.specs.centre.Types.{Rows, Setup};
ghost use Rattle.sms_store.specs.keeping.Closing.{HoldsStore};
ghost use Rattle.sms_store.specs.keeping.InKeep.{state_in};
ghost use Rattle.sms_store.specs.keeping.Opened.{IsIn};
ghost use Rattle.sms_store.specs.keeping.Stores.{IsStoreWith};

use crate::centre::CentreKeep;
use sqlite::Alter;

/// A keep that is migrated over files which hold a centre's store of some rows has these rows, with the setup that is
/// handed in.
pub fn what_was_left_is_not_raised<S: Alter>(keep: &CentreKeep<S>)
    ensures { (image : Image) (rows : Rows) (setup : Setup) (old : Database) → HoldsStore centre_stores image rows → IsDatabase old
        → IsIn image old → Migrated setup old (state_in S.Store keep.now)
        → IsOpenStore (IsStoreWith centre_stores setup) (state_in S.Store keep.now) (record rows { setup = setup }) }
{}
