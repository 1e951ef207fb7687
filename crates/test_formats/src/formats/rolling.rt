//! Tables in a ring, over rows of a number.
use crate::rows::holds;
use sms_rows::table::{Key, RollingTable, Row};
use std::alloc::{AllocError, Global};
use std::test::Fail;

#[derive(Clone, Copy, PartialEq, Eq)]
struct Entry {
    number: u64,
}

impl Row for Entry {
    ghost key = { λ e. e.number };

    fn key(&self) -> Key {
        Key::of(self.number)
    }
}

fn number_of(row: Option<&Entry>) -> Option<u64> {
    match row {
        Some(row) => Some(row.number),
        None => None,
    }
}

// The numbers from the one on, before the other.
fn put_all(table: &mut RollingTable<Entry>, from: u64, to: u64) -> bool {
    for number in from..to {
        if table.put(Entry { number }).is_err() {
            return false;
        }
    }
    true
}

// The rows are those of so many numbers from that one on.
fn are_from(table: &RollingTable<Entry>, first: u64, count: usize) -> bool {
    for place in 0..count {
        if number_of(table.get(place)) != first.checked_add(place as u64) {
            return false;
        }
    }
    table.len() == count && table.get(count).is_none()
}

// Memory for more rows is taken beside the table's own.
fn reserves(table: &mut RollingTable<Entry>, alloc: Global) -> Result<(), AllocError> {
    let reserve = table.make_reserve(alloc, 5_000)?;
    table.use_reserve(reserve);
    Ok(())
}

// A step of a course of a table.
#[derive(Clone, Copy)]
enum Step {
    // The numbers from the one on, before the other.
    Puts(u64, u64),
    Removes(u64, Option<u64>),
    RemovesAll(&'static [Entry]),
    // So many numbers from that one on, in order.
    Has(u64, usize),
    Finds(u64, Option<u64>),
    // So many rows have lower numbers.
    Places(u64, usize),
    Ends(Option<u64>),
    Reserves,
}

fn goes(table: &mut RollingTable<Entry>, alloc: Global, step: &Step) -> bool {
    match step {
        Step::Puts(from, to) => put_all(table, *from, *to),
        Step::Removes(number, row) => {
            table.remove(Key::of(*number)) == row.map(|number| Entry { number })
        }
        Step::RemovesAll(rows) => {
            table.remove_all(rows);
            true
        }
        Step::Has(first, count) => are_from(table, *first, *count),
        Step::Finds(number, row) => number_of(table.find(Key::of(*number))) == *row,
        Step::Places(number, place) => table.place_of(Key::of(*number)) == *place,
        Step::Ends(row) => number_of(table.last()) == *row,
        Step::Reserves => reserves(table, alloc).is_ok(),
    }
}

const COURSES: &[(&str, &[Step])] = &[
    (
        "no rows",
        &[Step::Has(0, 0), Step::Ends(None), Step::Places(7, 0)],
    ),
    (
        "rows are put at the end, and leave at the front",
        &[
            Step::Puts(1, 1_001),
            Step::RemovesAll(&[
                Entry { number: 1 },
                Entry { number: 2 },
                Entry { number: 3 },
            ]),
            Step::Puts(1_001, 1_003),
            Step::Has(4, 999),
            Step::Ends(Some(1_002)),
        ],
    ),
    (
        "far rows leave in one pass",
        &[
            Step::Puts(1, 1_001),
            Step::RemovesAll(&[Entry { number: 1 }, Entry { number: 1_000 }]),
            Step::Has(2, 998),
        ],
    ),
    (
        "a row is found and leaves once",
        &[
            Step::Puts(5, 9),
            Step::Puts(7, 8),
            Step::Finds(7, Some(7)),
            Step::Places(8, 3),
            Step::Removes(8, Some(8)),
            Step::Removes(8, None),
            Step::Finds(8, None),
            Step::Has(5, 3),
        ],
    ),
    (
        "rows are put before others",
        &[Step::Puts(50, 60), Step::Puts(40, 50), Step::Has(40, 20)],
    ),
    (
        "larger memory keeps the rows of a ring that has turned",
        &[
            Step::Puts(1, 65),
            Step::RemovesAll(&[Entry { number: 1 }, Entry { number: 2 }]),
            Step::Puts(65, 67),
            Step::Reserves,
            Step::Puts(67, 2_003),
            Step::Has(3, 2_000),
        ],
    ),
];

fn go(alloc: Global, steps: &[Step]) -> bool {
    let mut table = RollingTable::new(alloc);
    for step in steps {
        if !goes(&mut table, alloc, step) {
            return false;
        }
    }
    true
}

#[test]
fn tables_in_rings_go_their_courses(rt: HostRuntime) -> Result<(), Fail> {
    for (name, steps) in COURSES {
        holds(go(rt.alloc(), steps), name)?;
    }
    Ok(())
}
