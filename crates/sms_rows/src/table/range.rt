//! Keys among those of rows.
ghost use Rattle.std.specs.Prelude.{◌≡◌, ◌≤◌};
ghost use Rattle.sms_rows.specs.table.Table.{IsRange, is_there};

use crate::table::Row;
use crate::table::key::Key;

// The numbers of keys from one to another.
#[derive(Clone, Copy)]
pub(crate) struct KeyRange {
    pub(crate) low: u128,
    pub(crate) high: u128,
}

fn lower(one: u128, other: u128) -> u128
    ensures one { result ≤ one }
    ensures other { result ≤ other }
{
    if one < other { one } else { other }
}

fn higher(one: u128, other: u128) -> u128
    ensures one { one ≤ result }
    ensures other { other ≤ result }
{
    if one < other { other } else { one }
}

// From the lowest key of these rows to the highest.
pub(crate) fn range_of<C: Row>(rows: &[C]) -> KeyRange
    ensures { IsRange C.key result.low result.high rows.now }
{
    let mut low = u128::MAX;
    let mut high = 0;
    for row in rows {
        let number = row.key().number();
        low = lower(low, number);
        high = higher(high, number);
    }
    KeyRange { low, high }
}

// Whether one of these rows, of keys in that range, has that key.
pub(crate) fn is_in<C: Row>(rows: &[C], range: KeyRange, key: Key) -> bool
    ensures { IsRange C.key range.low range.high rows.now → result ≡ is_there C.key key rows.now }
{
    if key.number() < range.low {
        return false;
    }
    if range.high < key.number() {
        return false;
    }
    has_key(rows, key)
}

fn has_key<C: Row>(rows: &[C], key: Key) -> bool
    ensures { result ≡ is_there C.key key rows.now }
{
    for row in rows {
        if row.key().number() == key.number() {
            return true;
        }
    }
    false
}
