//! Whether a database has the tables of a handset's store.
ghost use Rattle.std.specs.Prelude.{◌≡◌, ◌≢◌, false, length, IsTrue};
ghost use Rattle.sms_store_sql.specs.schema.StoredTable.{index_planned, table_planned};
ghost use Rattle.sms_store_sql.specs.tabled.TablePlan.{defined, key_index};
ghost use Rattle.sms_store_sql.specs.tabled.Texts.{create_text, delete_text, insert_text, select_text, update_text};
ghost use Rattle.sms_store_tables.specs.handset.HandsetSchema.{count_plan, handset_made, handset_schema};

use crate::handset::kind::HandsetStore;
use sms_handset_rows::inbox::{DiscardedGroup, Entry, LastAccepted};
use sms_handset_rows::outbox::OutEntry;
use sms_store_sql::listing::{Meta, StoredRow};
use sms_store_sql::schema::{StoredTable, is_schema};
use sms_store_sql::table;
use sqlite_schema::schema::Schema;

/// The table of what a handset counts.
pub fn counters_table() -> StoredTable
    ensures planned { table_planned result ≡ defined 10 count_plan }
    ensures index { index_planned result.index ≡ key_index 10 count_plan }
    ensures create { result.create.now ≡ create_text count_plan }
    ensures delete { result.delete.now ≡ delete_text count_plan }
    ensures update { result.update.now ≡ update_text count_plan }
    ensures insert { result.insert.now ≡ insert_text count_plan }
    ensures select { result.select.now ≡ select_text count_plan }
    ensures key { length result.key.now ≡ 1 }
{
    table!(counters in 10, key place,
        place INTEGER NOT NULL, next_entry INTEGER NOT NULL, next_message_reference INTEGER NOT NULL,
        next_reference INTEGER NOT NULL, next_concat_reference INTEGER NOT NULL,
        next_notice INTEGER NOT NULL, is_memory_full INTEGER NOT NULL,
    )
}

// The tables and their indexes, and no view.
fn has_tables(schema: &Schema) -> bool
    ensures yes { IsTrue result → schema.now ≡ handset_made }
    ensures always { schema.now ≡ handset_made → IsTrue result }
{
    let meta = <Meta as StoredRow<HandsetStore>>::table();
    let entry = Entry::table();
    let last = LastAccepted::table();
    let out = OutEntry::table();
    let mark = DiscardedGroup::table();
    let count = counters_table();
    let indexes = [
        meta.index,
        entry.index,
        last.index,
        out.index,
        mark.index,
        count.index,
    ];
    is_schema(schema, &[meta, entry, last, out, mark, count], &indexes)
}

/// Whether the tables are those of a handset's store, and no others are beside them.
pub fn is_handset_schema(schema: &Schema) -> bool
    ensures yes { IsTrue result → schema.now ≡ handset_schema }
    ensures no { result ≡ false → schema.now ≢ handset_schema }
{
    has_tables(schema)
}
