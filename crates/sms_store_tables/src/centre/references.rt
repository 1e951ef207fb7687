//! The references that were given.
ghost use Rattle.std.specs.Prelude.{refl};
ghost use Rattle.sms_store_tables.specs.centre.ReferenceList.{reference_is_list, reference_list};

use crate::centre::kind::CentreStore;
use crate::fields;
use crate::key::moment_value;
use sms_centre_rows::waiting::ReferenceRow;
use sms_store_sql::listing::{Counted, StoredRow, moment_at, octet_at, run_counted, word_at};
use sms_store_sql::schema::StoredTable;
use sms_store_sql::table;
use sqlite::{Alter, Error, Row, Transaction, params};
use std::alloc::Global;

impl StoredRow<CentreStore> for ReferenceRow {
    ghost list = { reference_list };

    fn table() -> StoredTable {
        table!(given_reference in 6, key place reference,
            place INTEGER NOT NULL, reference INTEGER NOT NULL, last_given INTEGER NOT NULL,
        )
    }

    fn write<S: Alter>(&self, _alloc: Global, tx: &mut Transaction<'_, S>, text: &str) -> Counted {
        let last = moment_value(self.last)?;
        run_counted(
            tx,
            text,
            params![self.place, u32::from(self.reference), &last],
        )
    }

    fn read(_alloc: Global, row: &Row) -> Result<ReferenceRow, Error> {
        fields!(ReferenceRow in row, place: word_at(0), reference: octet_at(1), last: moment_at(2))
    }

    ghost one_key = { λ x. refl };

    ghost is_list = { reference_is_list };
}
