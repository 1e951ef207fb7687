//! The handsets that were given a reference.
ghost use Rattle.std.specs.Prelude.{refl};
ghost use Rattle.sms_store_tables.specs.centre.HandsetList.{handset_is_list, handset_list};

use crate::centre::kind::CentreStore;
use crate::fields;
use sms_centre_rows::waiting::HandsetRow;
use sms_store_sql::listing::{
    Counted, StoredRow, handset_at, handset_text, octet_at, run_counted, word_at,
};
use sms_store_sql::schema::StoredTable;
use sms_store_sql::table;
use sqlite::{Alter, Error, Row, Transaction, params};
use std::alloc::Global;

impl StoredRow<CentreStore> for HandsetRow {
    ghost list = { handset_list };

    fn table() -> StoredTable {
        table!(handset in 8, key place,
            place INTEGER NOT NULL, number TEXT NOT NULL, last_reference INTEGER NOT NULL,
        )
    }

    fn write<S: Alter>(&self, alloc: Global, tx: &mut Transaction<'_, S>, text: &str) -> Counted {
        let number = handset_text(alloc, &self.number)?;
        run_counted(
            tx,
            text,
            params![self.place, &number, u32::from(self.last_reference)],
        )
    }

    fn read(_alloc: Global, row: &Row) -> Result<HandsetRow, Error> {
        fields!(HandsetRow in row,
            place: word_at(0), number: handset_at(1), last_reference: octet_at(2),
        )
    }

    ghost one_key = { λ x. refl };

    ghost is_list = { handset_is_list };
}
