//! Ends a keep.
ghost use Rattle.std.specs.Prelude.{IfErr, IfOk, IsTrue};
ghost use Rattle.sqlite.specs.Effect.{Database, IsDatabase};
ghost use Rattle.sqlite.specs.Files.{FailsToClose, IsClosed, over_files};
ghost use Rattle.sqlite_trees.specs.View.{IsClean};
ghost use Rattle.sqlite_wal.specs.Reads.{AreClean};
ghost use Rattle.sqlite_wal.specs.Recovery.{Image};
ghost use Rattle.sms_store_sql.specs.listing.Transaction.{IsOpenStore};
ghost use Rattle.sms_store.specs.keeping.Closing.{HoldsStore, IsWhole};
ghost use Rattle.sms_store.specs.keeping.InKeep.{HoldsRows, connection_in, state_in};
ghost use Rattle.sms_store.specs.keeping.Opened.{IsIn, Opened};
ghost use Rattle.sms_store.specs.keeping.Stores.{IsStoreWith};

use crate::keeping::keep::StoreKeep;
use crate::keeping::sides::Kept;
use sqlite::{Alter, Error, FileStore, Files};
use sqlite_disk::Disk;

impl<P: Kept, D: Disk + Drop> StoreKeep<P, FileStore<D>> {
    /// Ends the keep. Its connection copies what the log holds into the database file, and cuts the log to its head. From
    /// then on the database file alone is the store of the rows, also after a stop.
    ///
    /// # Errors
    /// The disk refused it, or there was no memory. What is given back has both files, and a stop leaves nothing else of
    /// them than before.
    pub fn close(self) -> Result<Files<D>, (Error, FileStore<D>)>
        ensures whole { IfOk result (λ files. AreClean D.Disk files.log files.db
            → (rows : P.Rows) → HoldsRows P.stores over_files self rows → IsWhole P.stores D.Disk files rows) }
        ensures usable { IfOk result (λ files. IsTrue (D.Disk.is_usable files.log) × IsTrue (D.Disk.is_usable files.db)) }
        ensures refused { IfErr result (λ e. IsClosed (connection_in self) e.1
            × (IsClean (over_files.view e.1) → FailsToClose (connection_in self) e.1 e.0)) }
    {
        // Its clause says that the database of an open connection obeys its schema.
        let _ = self.conn.schema();
        self.conn.close_files()
    }
}

/// A keep that is opened over files which hold the store of some rows has these rows, with the setup that is handed in.
pub fn what_was_left_is_found<P: Kept, S: Alter>(keep: &StoreKeep<P, S>)
    ensures { (image : Image) (rows : P.Rows) (setup : P) (old : Database) → HoldsStore P.stores image rows → IsDatabase old → IsIn image old
        → Opened P.stores setup old (state_in S.Store keep.now)
        → IsOpenStore (IsStoreWith P.stores setup) (state_in S.Store keep.now) (P.stores.with_setup setup rows) }
{}
