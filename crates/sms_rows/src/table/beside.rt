//! A search that looks beside a place before it goes by halves.
ghost use Rattle.std.specs.Prelude.{◌≡◌, ◌≤◌, true, false, nat_lt, length};
ghost use Rattle.std.specs.List.{AllWithin};
ghost use Rattle.std.specs.List.Sorted.{IsPartitionPoint};
ghost use Rattle.sms_rows.specs.table.Table.{Rises};

use crate::table::{Key, Row};

/// How many rows are looked at one after another.
const STEPS: usize = 8;

// Whether a row stands there, of a lower key.
fn is_lower<T: Row>(rows: &[T], place: usize, key: Key) -> bool {
    match rows.get(place) {
        Some(row) => row.key().number() < key.number(),
        None => false,
    }
}

// The first place from that one on where no row of a lower key stands, or a place before it.
fn guess<T: Row>(rows: &[T], place: usize, key: Key) -> usize {
    let mut at = place;
    for _ in 0..STEPS {
        if !is_lower(rows, at, key) {
            return at;
        }
        at = at.saturating_add(1);
    }
    at
}

// Whether all rows before the place have lower keys.
fn all_are_lower<T: Row>(rows: &[T], place: usize, key: Key) -> bool
    requires { Rises T.key rows.now }
    ensures bound { result ≡ true → place ≤ length rows.now }
    ensures lower { result ≡ true → AllWithin (λ x. nat_lt (T.key x) key ≡ true) rows.now 0 place }
{
    if place == 0 {
        return true;
    }
    if rows.len() < place {
        return false;
    }
    rows[place - 1].key().number() < key.number()
}

// Whether no row from the place on has a lower key.
fn none_is_lower<T: Row>(rows: &[T], place: usize, key: Key) -> bool
    requires { Rises T.key rows.now }
    ensures { result ≡ true → AllWithin (λ x. nat_lt (T.key x) key ≡ false) rows.now place (length rows.now) }
{
    if rows.len() <= place {
        return true;
    }
    key.number() <= rows[place].key().number()
}

/// How many rows have lower keys. Those at the place and behind it are looked at first: any place gives the same answer.
pub(crate) fn start_in<T: Row>(rows: &[T], place: usize, key: Key) -> usize
    requires { Rises T.key rows.now }
    ensures bound { result ≤ length rows.now }
    ensures point { IsPartitionPoint (λ x. nat_lt (T.key x) key ≡ true) (λ x. nat_lt (T.key x) key ≡ false) rows.now result }
{
    let place = guess(rows, place, key);
    if all_are_lower(rows, place, key) && none_is_lower(rows, place, key) {
        return place;
    }
    rows.partition_point(
        |row: &T| -> bool
            ensures { result ≡ nat_lt (T.key row.now) key }
        { row.key().number() < key.number() },
    )
}
