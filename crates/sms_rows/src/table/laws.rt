//! Laws of tables and keys, over their definitions alone.
ghost use Rattle.std.specs.Prelude.{◌≡◌, ◌<◌, ◌≤◌, ℕ, List, length, max};
ghost use Rattle.sms_base.specs.Msisdn.{AllDigits};
ghost use Rattle.sms_rows.specs.table.Keys.{digits_key, pair_key};
ghost use Rattle.sms_rows.specs.table.Since.{oldest_first, rows_after};
ghost use Rattle.sms_rows.specs.table.Table.{HasRoom, RowsInMemory, Rises, all_applied, left_by, newest_of, row_at, reserve_for};
ghost use Rattle.sms_rows.specs.declared.table.change.Change.{Change};

use crate::table::Row;

/// Changes leave ordered rows in order.
pub fn changes_keep_order<T: Row + Drop>()
    ensures { (changes : List (Change T)) (rows : List T) → Rises T.key rows → Rises T.key (all_applied T.key changes rows) }
{}

/// After changes a key has the row that the newest change of it left, or else its row from before.
pub fn row_after_changes<T: Row + Drop>()
    ensures { (n : ℕ) (changes : List (Change T)) (rows : List T)
        → row_at T.key n (all_applied T.key changes rows) ≡ left_by (newest_of T.key n changes) (row_at T.key n rows) }
{}

/// Memory that was taken for more rows has room for them.
pub fn reserve_has_room<T: Row + Drop>()
    ensures { (extra capacity : ℕ) (table : RowsInMemory T) → max table.capacity (reserve_for extra table) ≤ capacity
        → HasRoom extra (record table { capacity = capacity }) }
{}

/// Keys of two parts are equal only where the parts are.
pub fn equal_pairs()
    ensures { (first other second another : ℕ) → second < 256 → another < 256 → pair_key first second ≡ pair_key other another → (first ≡ other)
        × (second ≡ another) }
{}

/// Keys of digits are equal only where the digits are.
pub fn equal_digits()
    ensures { (digits others : List ℕ) → AllDigits digits → AllDigits others → digits_key digits ≡ digits_key others → digits ≡ others }
{}

/// The changes of a table, committed the oldest first, lead to its present rows.
pub fn news_are_committed<T: Row + Drop>()
    ensures { (news : List (Change T)) (base : List T) → all_applied T.key (oldest_first news) base ≡ rows_after T.key news base }
{}
