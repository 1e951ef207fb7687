//! Tables, over rows of a number and a letter.
use crate::rows::holds;
use sms_rows::table::{Change, Key, Row, Table, TableDraft, adopt, rises};
use std::alloc::{AllocError, Global};
use std::test::Fail;

#[derive(Drop)]
struct Entry {
    number: u32,
    text: u8,
}

impl Row for Entry {
    ghost key = { λ e. e.number };

    fn key(&self) -> Key {
        Key::of(u64::from(self.number))
    }
}

fn text_of(row: Option<&Entry>) -> Option<u8> {
    match row {
        Some(row) => Some(row.text),
        None => None,
    }
}

fn removed(table: &mut Table<Entry>, number: u64) -> Option<u8> {
    match table.remove(Key::of(number)) {
        Some(row) => Some(row.text),
        None => None,
    }
}

fn put(table: &mut Table<Entry>, number: u32, text: u8) -> bool {
    table.put(Entry { number, text }).is_ok()
}

fn grows(table: &mut Table<Entry>) -> bool {
    for number in 0..2_000_u32 {
        if !put(table, 2_000 - number, 0) {
            return false;
        }
    }
    true
}

fn are_numbered(rows: &[Entry], numbers: &[u32]) -> bool {
    if rows.len() != numbers.len() {
        return false;
    }
    for (row, number) in rows.iter().zip(numbers) {
        if row.number != *number {
            return false;
        }
    }
    true
}

// Row 9 is put, and row 4 removed.
fn some_changes(alloc: Global) -> Result<Vec<Change<Entry>>, AllocError> {
    let mut changes = Vec::new(alloc);
    changes.push(Change::Put(Entry { number: 9, text: 1 }))?;
    changes.push(Change::Remove(Key::of(4)))?;
    Ok(changes)
}

// The changes are carried out over memory that was taken before.
fn apply(
    table: &mut Table<Entry>,
    alloc: Global,
    changes: Vec<Change<Entry>>,
) -> Result<(), AllocError> {
    let spare = table.make_reserve(alloc, changes.len())?;
    table.use_reserve(spare);
    table.apply_all(changes);
    Ok(())
}

// Whether the row is found while the changes wait, which are carried out then.
fn changes(table: &mut Table<Entry>, alloc: Global) -> Result<bool, AllocError> {
    let changes = some_changes(alloc)?;
    let is_found = text_of(table.find_after(changes.as_slice(), Key::of(9))) == Some(1);
    apply(table, alloc, changes)?;
    Ok(is_found)
}

fn is_seen(pending: &TableDraft<'_, Entry>) -> bool {
    text_of(pending.find(Key::of(3))) == None && text_of(pending.find(Key::of(4))) == Some(2)
}

// Row 4 is put and row 3 removed, in the middle of an event; the changes are adopted.
fn settles(table: &mut Table<Entry>, alloc: Global) -> Result<bool, AllocError> {
    let mut pending = TableDraft::of(alloc, table);
    pending.put(Entry { number: 4, text: 2 })?;
    pending.remove(Key::of(3))?;
    let is_seen = is_seen(&pending);
    let settled = pending.settle(alloc)?;
    let are_two = settled.changes().len() == 2;
    adopt(table, settled);
    Ok(is_seen && are_two)
}

// A step of a course of a table.
#[derive(Clone, Copy)]
enum Step {
    Puts(u32, u8),
    // The row of that number has that text, if it is there.
    Finds(u64, Option<u8>),
    Removes(u64, Option<u8>),
    // So many rows, in order.
    Has(usize),
    // The rows from the first number on, before the second.
    Between(u64, u64, &'static [u32]),
    // Two thousand rows, the last first.
    Grows,
    // Row 9 is put and row 4 removed, without memory.
    Changes,
    // Row 4 is put and row 3 removed, by a draft.
    Settles,
}

fn goes(table: &mut Table<Entry>, alloc: Global, step: &Step) -> bool {
    match step {
        Step::Puts(number, text) => put(table, *number, *text),
        Step::Finds(number, text) => text_of(table.find(Key::of(*number))) == *text,
        Step::Removes(number, text) => removed(table, *number) == *text,
        Step::Has(count) => table.as_slice().len() == *count && rises(table.as_slice()),
        Step::Between(from, to, numbers) => {
            are_numbered(table.rows_between(Key::of(*from), Key::of(*to)), numbers)
        }
        Step::Grows => grows(table),
        Step::Changes => changes(table, alloc) == Ok(true),
        Step::Settles => settles(table, alloc) == Ok(true),
    }
}

const COURSES: &[(&str, &[Step])] = &[
    (
        "rows are put and found, the later of a key",
        &[
            Step::Puts(7, 1),
            Step::Puts(3, 2),
            Step::Puts(7, 3),
            Step::Has(2),
            Step::Finds(7, Some(3)),
            Step::Finds(4, None),
        ],
    ),
    ("many rows", &[Step::Grows, Step::Has(2_000)]),
    (
        "rows between",
        &[
            Step::Puts(9, 0),
            Step::Puts(3, 0),
            Step::Puts(7, 0),
            Step::Puts(5, 0),
            Step::Between(4, 9, &[5, 7]),
        ],
    ),
    (
        "changes need no memory",
        &[Step::Changes, Step::Removes(9, Some(1))],
    ),
    (
        "changes wait until they are adopted",
        &[
            Step::Puts(3, 1),
            Step::Settles,
            Step::Has(1),
            Step::Finds(4, Some(2)),
        ],
    ),
];

fn go(alloc: Global, steps: &[Step]) -> bool {
    let mut table = Table::new(alloc);
    for step in steps {
        if !goes(&mut table, alloc, step) {
            return false;
        }
    }
    true
}

#[test]
fn tables_go_their_courses(rt: HostRuntime) -> Result<(), Fail> {
    for (name, steps) in COURSES {
        holds(go(rt.alloc(), steps), name)?;
    }
    Ok(())
}
