//! Whether a database has the tables of a centre's store.
ghost use Rattle.std.specs.Prelude.{◌≡◌, ◌≢◌, ◌≤◌, false, IsTrue};
ghost use Rattle.sms_store_tables.specs.centre.CentreSchema.{centre_schema, first_made, first_schema, second_schema};

use crate::centre::kind::CentreStore;
use sms_centre_rows::messages::{BarRow, MessageRow, PartRow, PriorityRow};
use sms_centre_rows::reports::ReportRow;
use sms_centre_rows::waiting::{HandsetRow, ReferenceRow};
use sms_store_sql::listing::{Meta, StoredRow};
use sms_store_sql::schema::{IndexPlan, is_schema};
use sqlite_schema::schema::Schema;

// Whether the tables and indexes are so many of a centre's store, the first that are made, and no others are beside them.
fn has_first(schema: &Schema, tables: usize, indexes: usize) -> bool
    requires { (tables ≤ 8) × (indexes ≤ 9) }
    ensures yes { IsTrue result → schema.now ≡ first_made tables indexes }
    ensures always { schema.now ≡ first_made tables indexes → IsTrue result }
{
    let meta = <Meta as StoredRow<CentreStore>>::table();
    let message = MessageRow::table();
    let part = PartRow::table();
    let reference = ReferenceRow::table();
    let handset = HandsetRow::table();
    let report = ReportRow::table();
    let priority = PriorityRow::table();
    let bar = BarRow::table();
    // By it the octets of a status report are found without a walk over all reports.
    let report_message = IndexPlan {
        name: "report_message",
        tree: 14,
        table: 10,
        columns: &[2],
        is_unique: false,
    };
    let all = [
        meta, message, part, reference, handset, report, priority, bar,
    ];
    let all_indexes = [
        meta.index,
        message.index,
        part.index,
        reference.index,
        handset.index,
        report.index,
        priority.index,
        report_message,
        bar.index,
    ];
    is_schema(schema, &all[..tables], &all_indexes[..indexes])
}

/// Whether the tables are those of a centre's store of version 1, and no others are beside them.
pub fn is_first_schema(schema: &Schema) -> bool
    ensures yes { IsTrue result → schema.now ≡ first_schema }
    ensures no { result ≡ false → schema.now ≢ first_schema }
{
    has_first(schema, 6, 6)
}

/// Whether the tables are those of a centre's store of version 2, and no others are beside them.
pub fn is_second_schema(schema: &Schema) -> bool
    ensures yes { IsTrue result → schema.now ≡ second_schema }
    ensures no { result ≡ false → schema.now ≢ second_schema }
{
    has_first(schema, 7, 8)
}

/// Whether the tables are those of a centre's store of version 3, and no others are beside them.
pub fn is_centre_schema(schema: &Schema) -> bool
    ensures yes { IsTrue result → schema.now ≡ centre_schema }
    ensures no { result ≡ false → schema.now ≢ centre_schema }
{
    has_first(schema, 8, 9)
}
