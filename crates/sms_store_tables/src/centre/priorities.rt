//! The priorities of messages.
ghost use Rattle.std.specs.Prelude.{refl};
ghost use Rattle.sms_store_tables.specs.centre.PriorityList.{priority_is_list, priority_list};

use crate::centre::kind::CentreStore;
use crate::centre::pieces::id_at;
use crate::fields;
use crate::key::id_value;
use sms_centre_rows::messages::PriorityRow;
use sms_store_sql::listing::{Counted, StoredRow, octet_at, run_counted};
use sms_store_sql::schema::StoredTable;
use sms_store_sql::table;
use sqlite::{Alter, Error, Row, Transaction, params};
use std::alloc::Global;

impl StoredRow<CentreStore> for PriorityRow {
    ghost list = { priority_list };

    fn table() -> StoredTable {
        table!(priority in 12, key message,
            message INTEGER NOT NULL, priority INTEGER NOT NULL,
        )
    }

    fn write<S: Alter>(&self, _alloc: Global, tx: &mut Transaction<'_, S>, text: &str) -> Counted {
        let id = id_value(self.id)?;
        run_counted(tx, text, params![&id, u32::from(self.priority)])
    }

    // It is put with its message.
    fn is_first(&self) -> bool {
        true
    }

    fn read(_alloc: Global, row: &Row) -> Result<PriorityRow, Error> {
        fields!(PriorityRow in row, id: id_at(0), priority: octet_at(1))
    }

    ghost one_key = { λ x. refl };

    ghost is_list = { priority_is_list };
}
