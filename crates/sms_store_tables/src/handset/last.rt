//! What was accepted last.
ghost use Rattle.std.specs.Prelude.{refl};
ghost use Rattle.sms_store_tables.specs.handset.LastAcceptedList.{last_is_list, last_list};

use crate::fields;
use crate::handset::kind::HandsetStore;
use sms_handset_rows::inbox::LastAccepted;
use sms_store_sql::listing::{Counted, StoredRow, octet_at, octets_at, run_counted};
use sms_store_sql::schema::StoredTable;
use sms_store_sql::table;
use sqlite::{Alter, Error, Row, Transaction, params};
use std::alloc::Global;

impl StoredRow<HandsetStore> for LastAccepted {
    ghost list = { last_list };

    fn table() -> StoredTable {
        table!(last_accepted in 4, key reference,
            reference INTEGER NOT NULL, tpdu BLOB NOT NULL,
        )
    }

    fn write<S: Alter>(&self, _alloc: Global, tx: &mut Transaction<'_, S>, text: &str) -> Counted {
        run_counted(
            tx,
            text,
            params![u32::from(self.reference), self.tpdu.as_slice()],
        )
    }

    fn read(_alloc: Global, row: &Row) -> Result<LastAccepted, Error> {
        fields!(LastAccepted in row, reference: octet_at(0), tpdu: octets_at(1))
    }

    ghost one_key = { λ x. refl };

    ghost is_list = { last_is_list };
}
