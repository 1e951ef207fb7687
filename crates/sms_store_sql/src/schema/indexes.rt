//! Indexes.
ghost use Rattle.sms_store_sql.specs.schema.StoredTable.{index_planned};

use crate::schema::plan::Plan;
use sqlite_schema::schema::Index;
use sqlite_value::keys::Order;

/// An index that a store is to have.
#[derive(Clone, Copy)]
pub struct IndexPlan {
    pub name: &'static str,
    /// The number of its tree.
    pub tree: u32,
    /// The number of its table's tree.
    pub table: u32,
    /// The places of its columns in the table, from 1.
    pub columns: &'static [usize],
    /// Whether it is for a key.
    pub is_unique: bool,
}

impl Plan for IndexPlan {
    type Made = Index;

    ghost planned = { index_planned };

    fn is(&self, made: &Index) -> bool {
        made.name.as_slice() == self.name.as_bytes()
            && made.tree == self.tree
            && made.table == self.table
            && made.columns.as_slice() == self.columns
            && (made.order == Order::PLAIN)
            && made.is_unique == self.is_unique
    }
}
