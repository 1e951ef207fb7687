//! Tables and whole schemas.
ghost use Rattle.std.specs.Prelude.{◌≡◌, IsTrue, [], ◌∷◌};
ghost use Rattle.sqlite_value.specs.Keys.{plain};
ghost use Rattle.sms_store_sql.specs.listing.Listing.{keyed_table};
ghost use Rattle.sms_store_sql.specs.schema.StoredTable.{schema_planned, table_planned};

use crate::schema::columns::ColumnPlan;
use crate::schema::indexes::IndexPlan;
use crate::schema::plan::{Plan, are_planned};
use sqlite_items::Items;
use sqlite_schema::code::Terms;
use sqlite_schema::schema::{Schema, Stamps, Table};
use sqlite_value::keys::Order;

fn are_places(places: &Items<usize>, key: &[usize]) -> bool
    ensures yes { IsTrue result → places.now ≡ key.now }
    ensures always { places.now ≡ key.now → IsTrue result }
{
    places.as_slice() == key
}

// One list of places is a key.
fn has_one_key(uniques: &Items<Items<usize>>, key: &[usize]) -> bool
    ensures yes { IsTrue result → uniques.now ≡ key.now ∷ [] }
    ensures always { uniques.now ≡ key.now ∷ [] → IsTrue result }
{
    let [places] = uniques.as_slice() else {
        return false;
    };
    are_places(places, key)
}

fn has_no_stamps(stamps: &Stamps) -> bool
    ensures yes { IsTrue result → stamps.now ≡ record { places = []; terms = []; formats = [] } }
    ensures always { stamps.now ≡ record { places = []; terms = []; formats = [] } → IsTrue result }
{
    stamps.places.is_empty() && stamps.terms.roots.is_empty() && stamps.formats.is_empty()
}

fn has_no_checks(terms: &Terms) -> bool
    ensures yes { IsTrue result → terms.now ≡ [] }
    ensures always { terms.now ≡ [] → IsTrue result }
{
    terms.roots.is_empty()
}

fn is_in_plain_order(orders: &Items<Order>) -> bool
    ensures yes { IsTrue result → orders.now ≡ plain ∷ [] }
    ensures always { orders.now ≡ plain ∷ [] → IsTrue result }
{
    let [order] = orders.as_slice() else {
        return false;
    };
    *order == Order::PLAIN
}

// The table has one key and no other rule.
fn is_keyed(table: &Table, name: &str, tree: u32, key: &[usize]) -> bool
    ensures yes { IsTrue result → table.now ≡ keyed_table name.now tree table.now.columns key.now }
    ensures always { table.now ≡ keyed_table name.now tree table.now.columns key.now → IsTrue result }
{
    if table.name.as_slice() != name.as_bytes() || table.tree != tree || table.is_counted {
        return false;
    }
    if table.key.is_some() || !table.primary.is_empty() || !table.references.is_empty() {
        return false;
    }
    if !has_one_key(&table.uniques, key) || !is_in_plain_order(&table.orders) {
        return false;
    }
    table.computed.is_empty() && has_no_checks(&table.checks) && has_no_stamps(&table.stamps)
}

/// A table that a store is to have, with its texts. `table!` makes it of one list of its columns.
#[derive(Clone, Copy)]
pub struct StoredTable {
    pub name: &'static str,
    /// The number of its tree.
    pub tree: u32,
    pub columns: &'static [ColumnPlan],
    /// The places of the columns that make its key, from 1.
    pub key: &'static [usize],
    /// The index that SQLite makes for its key.
    pub index: IndexPlan,
    /// The text that makes the table.
    pub create: &'static str,
    /// The text that removes the row of a key.
    pub delete: &'static str,
    /// The text that changes the row of a key. Its values are those of the text that adds one.
    pub update: &'static str,
    /// The text that adds a row.
    pub insert: &'static str,
    /// The text that reads all rows.
    pub select: &'static str,
}

impl Plan for StoredTable {
    type Made = Table;

    ghost planned = { table_planned };

    fn is(&self, made: &Table) -> bool {
        is_keyed(made, self.name, self.tree, self.key)
            && are_planned(made.columns.as_slice(), self.columns)
    }
}

/// Whether the schema has these tables and indexes, in this order, and no view.
pub fn is_schema(schema: &Schema, tables: &[StoredTable], indexes: &[IndexPlan]) -> bool
    ensures yes { IsTrue result → schema.now ≡ schema_planned tables.now indexes.now }
    ensures always { schema.now ≡ schema_planned tables.now indexes.now → IsTrue result }
{
    schema.views.is_empty()
        && are_planned(schema.tables.as_slice(), tables)
        && are_planned(schema.indexes.as_slice(), indexes)
}
