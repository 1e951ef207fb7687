//! What waits for a handset, beside a plain search.
use crate::rows::{failed_at, holds};
use sms_base::{MessageId, Moment};
use sms_centre_rows::waiting::QueuedPart;
use sms_rows::table::Row;
use sms_schedule::retry_after;
use sms_schedule::waiting::WaitingParts;
use std::alloc::Global;
use std::test::Fail;

// 2024-02-29 23:59:58.
const START: u64 = 1_709_251_198;

fn queued(message: u64, number: u8, priority: u8, due: u64) -> Option<QueuedPart> {
    Some(QueuedPart {
        id: MessageId::new(message)?,
        number,
        reference: 0,
        priority,
        due: Moment::from_seconds(due).ok()?,
    })
}

// The row of that number: due in turn, of every priority.
fn row(number: u64) -> Option<QueuedPart> {
    let due = START + number % 1_000 * 37 % 1_000;
    queued(number, (number % 3) as u8, (number % 4) as u8, due)
}

// Whether one row goes before another.
fn goes_before(one: &QueuedPart, other: &QueuedPart) -> bool {
    if one.priority != other.priority {
        return one.priority > other.priority;
    }
    if one.due.seconds() != other.due.seconds() {
        return one.due.seconds() < other.due.seconds();
    }
    one.key().number() < other.key().number()
}

// The first of the rows that are due, by going through all.
fn plain_next(rows: &[QueuedPart], now: Moment) -> Option<QueuedPart> {
    let mut best: Option<QueuedPart> = None;
    for row in rows {
        if row.due.seconds() <= now.seconds() {
            best = match best {
                Some(before) if goes_before(&before, row) => Some(before),
                _ => Some(*row),
            };
        }
    }
    best
}

// A thousand rows.
fn thousand(alloc: Global) -> Option<Vec<QueuedPart>> {
    let mut rows = Vec::new(alloc);
    for number in 1..1_001 {
        rows.push(row(number)?).ok()?;
    }
    Some(rows)
}

fn waiting_of(alloc: Global, rows: &[QueuedPart]) -> Option<WaitingParts> {
    let mut waiting = WaitingParts::new(alloc);
    for row in rows {
        waiting.put(*row).ok()?;
    }
    Some(waiting)
}

// Takes every second row out of both.
fn thin(alloc: Global, waiting: &mut WaitingParts, rows: &[QueuedPart]) -> Option<Vec<QueuedPart>> {
    let mut left = Vec::new(alloc);
    for row in rows {
        if row.id.number() % 2 == 0 {
            waiting.remove(row.key()).ok()?;
        } else {
            left.push(*row).ok()?;
        }
    }
    Some(left)
}

// At each second what waits says what the plain search says.
fn agrees(waiting: &WaitingParts, rows: &[QueuedPart], start: Moment) -> bool {
    for second in 0..1_001 {
        let now = start.plus(second);
        if waiting.next(now) != plain_next(rows, now) {
            return false;
        }
    }
    true
}

fn copy_agrees(waiting: &WaitingParts, rows: &[QueuedPart], start: Moment) -> bool {
    match waiting.copy() {
        Ok(copy) => agrees(&copy, rows, start),
        Err(_) => false,
    }
}

// Every second row is taken out, and what is left is offered in turn, by a copy as well.
fn the_rest_agrees(
    alloc: Global,
    waiting: &mut WaitingParts,
    rows: &[QueuedPart],
    start: Moment,
) -> bool {
    match thin(alloc, waiting, rows) {
        Some(left) => {
            agrees(waiting, left.as_slice(), start) && copy_agrees(waiting, left.as_slice(), start)
        }
        None => false,
    }
}

fn all_agree(alloc: Global, rows: &[QueuedPart], start: Moment) -> bool {
    match waiting_of(alloc, rows) {
        Some(mut waiting) => {
            agrees(&waiting, rows, start) && the_rest_agrees(alloc, &mut waiting, rows, start)
        }
        None => false,
    }
}

fn thousand_agree(alloc: Global, start: Moment) -> bool {
    match thousand(alloc) {
        Some(rows) => all_agree(alloc, rows.as_slice(), start),
        None => false,
    }
}

// A part: its message, its number and its priority. It is due at the start.
type Part = (u64, u8, u8);

// A step of a course of what waits.
#[derive(Clone, Copy)]
enum Step {
    Puts(Part),
    Removes(Part),
    // Whether another one waits beside that part.
    Beside(Part, bool),
    Next(Part),
    // Nothing is next, at the start or a second before.
    Nothing,
    NothingBefore,
}

fn part((message, number, priority): Part) -> Option<QueuedPart> {
    queued(message, number, priority, START)
}

fn goes(waiting: &mut WaitingParts, start: Moment, step: &Step) -> Option<bool> {
    match step {
        Step::Puts(wanted) => Some(waiting.put(part(*wanted)?).is_ok()),
        Step::Removes(wanted) => Some(waiting.remove(part(*wanted)?.key()).is_ok()),
        Step::Beside(wanted, is_so) => {
            Some(waiting.waits_beside(start, &part(*wanted)?) == *is_so)
        }
        Step::Next(wanted) => Some(waiting.next(start) == Some(part(*wanted)?)),
        Step::Nothing => Some(waiting.next(start).is_none()),
        Step::NothingBefore => {
            let before = Moment::from_seconds(START - 1).ok()?;
            Some(waiting.next(before).is_none())
        }
    }
}

const COURSES: &[(&str, &[Step])] = &[
    // The first part of a message waits alone, then with the second, which has the highest priority, then alone again.
    (
        "another one waits beside",
        &[
            Step::Puts((7, 1, 0)),
            Step::Beside((7, 1, 0), false),
            Step::Beside((7, 2, 3), true),
            Step::Puts((7, 2, 3)),
            Step::Beside((7, 1, 0), true),
            Step::Next((7, 2, 3)),
            Step::Removes((7, 2, 3)),
            Step::Next((7, 1, 0)),
        ],
    ),
    // By message, and then by number.
    (
        "parts of one moment go in order",
        &[
            Step::Puts((10, 0, 0)),
            Step::Puts((2, 1, 0)),
            Step::Puts((1, 2, 0)),
            Step::Puts((1, 1, 0)),
            Step::NothingBefore,
            Step::Next((1, 1, 0)),
            Step::Removes((1, 1, 0)),
            Step::Next((1, 2, 0)),
            Step::Removes((1, 2, 0)),
            Step::Next((2, 1, 0)),
            Step::Removes((2, 1, 0)),
            Step::Next((10, 0, 0)),
            Step::Removes((10, 0, 0)),
            Step::Nothing,
        ],
    ),
];

fn plays(alloc: Global, start: Moment, name: &str, steps: &[Step]) -> Result<(), Fail> {
    let mut waiting = WaitingParts::new(alloc);
    for (at, step) in steps.iter().enumerate() {
        if goes(&mut waiting, start, step) != Some(true) {
            return Err(failed_at(name, at));
        }
    }
    Ok(())
}

const WAITS: &[(u8, u64)] = &[(1, 60), (2, 300), (3, 900), (4, 3_600), (5, 3_600)];

#[test]
fn what_waits_is_offered_in_turn(rt: HostRuntime) -> Result<(), Fail> {
    let start = Moment::from_seconds(START)?;
    holds(thousand_agree(rt.alloc(), start), "a thousand rows")?;
    for (name, steps) in COURSES {
        plays(rt.alloc(), start, name, steps)?;
    }
    for (attempts, seconds) in WAITS {
        let again = retry_after(*attempts, start).seconds();
        holds(again.saturating_sub(START) == *seconds, "the next attempt")?;
    }
    Ok(())
}
