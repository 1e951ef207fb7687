//! The messages that were accepted.
ghost use Rattle.std.specs.Prelude.{refl};
ghost use Rattle.sms_store_tables.specs.centre.MessageList.{message_is_list, message_list};

use crate::centre::kind::CentreStore;
use crate::centre::pieces::{
    account_of, id_at, mark_of, originator_at, short_of, state_at, state_word, wish_at, wish_word,
};
use crate::fields;
use crate::key::{id_value, moment_value, seconds_of};
use sms_centre_rows::messages::MessageRow;
use sms_store_sql::listing::{
    Counted, StoredRow, address_at, handset_at, handset_text, moment_at, octet_at,
    optional_moment_at, optional_short_at, run_counted, text_of,
};
use sms_store_sql::schema::StoredTable;
use sms_store_sql::table;
use sqlite::{Alter, Error, Row, Transaction, params};
use std::alloc::Global;

impl StoredRow<CentreStore> for MessageRow {
    ghost list = { message_list };

    fn table() -> StoredTable {
        table!(message in 2, key id,
            id INTEGER NOT NULL, account BLOB, message_reference INTEGER,
            source_ton INTEGER NOT NULL, source_npi INTEGER NOT NULL, source TEXT NOT NULL,
            handset TEXT NOT NULL, data_coding_scheme INTEGER NOT NULL,
            protocol_identifier INTEGER NOT NULL, wish TEXT NOT NULL, submitted INTEGER NOT NULL,
            expires INTEGER NOT NULL, split_reference INTEGER, state TEXT NOT NULL, done INTEGER,
        )
    }

    fn write<S: Alter>(&self, alloc: Global, tx: &mut Transaction<'_, S>, text: &str) -> Counted {
        let id = id_value(self.id)?;
        let submitted = moment_value(self.submitted)?;
        let limit = moment_value(self.limit)?;
        let source = text_of(alloc, self.source.digits.as_few())?;
        let handset = handset_text(alloc, &self.handset)?;
        run_counted(
            tx,
            text,
            params![
                &id,
                account_of(&self.originator),
                mark_of(&self.originator),
                u32::from(self.source.ton.number()),
                u32::from(self.source.npi),
                &source,
                &handset,
                u32::from(self.data_coding_scheme),
                u32::from(self.protocol_identifier),
                wish_word(self.wish),
                &submitted,
                &limit,
                short_of(self.split_reference),
                state_word(self.state),
                seconds_of(self.done)
            ],
        )
    }

    // A message is put once while it is pending, and again as it ends.
    fn is_first(&self) -> bool {
        self.state.is_none()
    }

    fn read(_alloc: Global, row: &Row) -> Result<MessageRow, Error> {
        fields!(MessageRow in row,
            id: id_at(0), originator: originator_at(1), source: address_at(3),
            handset: handset_at(6), data_coding_scheme: octet_at(7),
            protocol_identifier: octet_at(8), wish: wish_at(9), submitted: moment_at(10),
            limit: moment_at(11), split_reference: optional_short_at(12), state: state_at(13),
            done: optional_moment_at(14),
        )
    }

    ghost one_key = { λ x. refl };

    ghost is_list = { message_is_list };
}
