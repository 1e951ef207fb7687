//! Databases without tables.
ghost use Rattle.std.specs.Prelude.{◌≡◌, ◌≢◌, MatchBool};
ghost use Rattle.sms_store_sql.specs.schema.Blank.{no_tables};

use sqlite_schema::schema::Schema;

/// Whether there is neither a table nor anything else.
pub fn is_blank(schema: &Schema) -> bool
    ensures { MatchBool result (schema.now ≡ no_tables) (schema.now ≢ no_tables) }
{
    schema.tables.is_empty() && schema.indexes.is_empty() && schema.views.is_empty()
}
