//! The groups that the owner discarded.
ghost use Rattle.std.specs.Prelude.{refl};
ghost use Rattle.sms_store_tables.specs.handset.DiscardedGroupList.{mark_is_list, mark_list};

use crate::fields;
use crate::handset::group::group_at;
use crate::handset::kind::HandsetStore;
use crate::references::{reference_bits, reference_number};
use sms_handset_rows::inbox::DiscardedGroup;
use sms_store_sql::listing::{Counted, StoredRow, octets_at, run_counted, text_of, word_at};
use sms_store_sql::schema::StoredTable;
use sms_store_sql::table;
use sqlite::{Alter, Error, Row, Transaction, params};
use std::alloc::Global;

impl StoredRow<HandsetStore> for DiscardedGroup {
    ghost list = { mark_list };

    fn table() -> StoredTable {
        table!(discarded_group in 8, key number,
            number INTEGER NOT NULL, source_ton INTEGER NOT NULL, source_npi INTEGER NOT NULL,
            source TEXT NOT NULL, reference_bits INTEGER NOT NULL, reference INTEGER NOT NULL,
            total INTEGER NOT NULL, seen BLOB NOT NULL,
        )
    }

    fn write<S: Alter>(&self, alloc: Global, tx: &mut Transaction<'_, S>, text: &str) -> Counted {
        let group = &self.group;
        let source = text_of(alloc, group.source.digits.as_few())?;
        run_counted(
            tx,
            text,
            params![
                self.number,
                u32::from(group.source.ton.number()),
                u32::from(group.source.npi),
                &source,
                reference_bits(group.reference),
                reference_number(group.reference),
                u32::from(group.total),
                self.seen.as_slice()
            ],
        )
    }

    fn read(_alloc: Global, row: &Row) -> Result<DiscardedGroup, Error> {
        fields!(DiscardedGroup in row, number: word_at(0), group: group_at(1), seen: octets_at(7))
    }

    ghost one_key = { λ x. refl };

    ghost is_list = { mark_is_list };
}
