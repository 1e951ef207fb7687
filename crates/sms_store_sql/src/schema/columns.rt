//! Columns.
ghost use Rattle.sms_store_sql.specs.schema.ColumnPlan.{column_of};

use crate::schema::plan::Plan;
use sqlite_schema::schema::{Column, Kind};
use sqlite_value::keys::Collation;
use sqlite_value::value::Value;

/// A column that a table is to have.
#[derive(Clone, Copy)]
pub struct ColumnPlan {
    pub name: &'static str,
    pub kind: Kind,
    /// Whether it may hold NULL.
    pub is_optional: bool,
}

impl Plan for ColumnPlan {
    type Made = Column;

    ghost planned = { column_of };

    fn is(&self, made: &Column) -> bool {
        if made.name.as_slice() != self.name.as_bytes() || made.kind != self.kind {
            return false;
        }
        if !made.is_strict || made.not_null == self.is_optional {
            return false;
        }
        matches!(&made.default, Value::Null) && made.collation == Collation::Binary
    }
}
