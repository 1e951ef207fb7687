//! What is pending, by handset, as one commit after another says.
use crate::rows::turn_holds;
use sms_base::{Address, FinalState, Listed, MessageId, Moment, Msisdn, Octets, Originator, Wish};
use sms_centre_rows::messages::{MessageRow, PartRow};
use sms_centre_rows::waiting::{Progress, Revision};
use sms_centre_spec::Changes;
use sms_rows::table::{Change, Key};
use smsc_observer::{PendingTable, WaitingHandset};
use std::alloc::Global;
use std::sync::Wait;
use std::test::Fail;

// 2026-11-26T04:46:01Z, and so many seconds.
fn at(seconds: u64) -> Option<Moment> {
    Moment::from_seconds(1_795_668_361 + seconds % 100_000).ok()
}

fn digits(handset: &str) -> Option<Msisdn> {
    Msisdn::of(handset.as_bytes())
}

// ---- rows

// The message was submitted as many seconds after the first moment as its number says.
fn message(
    alloc: Global,
    number: u64,
    handset: &str,
    state: Option<FinalState>,
) -> Option<MessageRow> {
    let account = Octets::copy_of(alloc, b"bank").ok()?;
    Some(MessageRow {
        id: MessageId::new(number)?,
        originator: Originator::Application { account },
        source: Address::new(1, 1, "447700900001").ok()?,
        handset: digits(handset)?,
        data_coding_scheme: 0,
        protocol_identifier: 0,
        wish: Wish::Nothing,
        submitted: at(number)?,
        limit: at(90_000)?,
        split_reference: None,
        state,
        done: None,
    })
}

fn progress(is_done: bool, attempts: u8, due: u64) -> Option<Progress> {
    Some(Progress {
        is_done,
        attempts,
        due: at(due)?,
    })
}

fn part(alloc: Global, message: u64, number: u8, progress: Progress) -> Option<PartRow> {
    Some(PartRow {
        id: MessageId::new(message)?,
        number,
        reference: 0,
        tpdu: Octets::copy_of(alloc, b"x").ok()?,
        key: None,
        progress,
    })
}

fn no_changes(alloc: Global) -> Changes {
    Changes {
        messages: Listed::new(alloc),
        parts: Listed::new(alloc),
        references: Listed::new(alloc),
        handsets: Listed::new(alloc),
        reports: Listed::new(alloc),
        priorities: Listed::new(alloc),
        bars: Listed::new(alloc),
    }
}

// ---- courses

// A commit, and what is seen behind it.
#[derive(Clone, Copy)]
enum Step {
    // A message of that number to that handset, with so many parts.
    Begins(u64, &'static str, u8),
    // The part of that number of that message failed so often, and is due then.
    Fails(u64, u8, u8, u64),
    // The part is done.
    Done(u64, u8),
    // The part's row is removed.
    Removes(u64, u8),
    // The message to that handset has ended.
    Ends(u64, &'static str),
    // The first handsets, two at most: which, how many parts wait, since when, how often the worst failed, and when the next is due.
    Most(&'static [Line]),
    // The number of the oldest message.
    Oldest(Option<u64>),
}

fn put_message(
    alloc: Global,
    changes: &mut Changes,
    number: u64,
    handset: &str,
    state: Option<FinalState>,
) -> Option<()> {
    let row = message(alloc, number, handset, state)?;
    changes.messages.push(Change::Put(row)).ok()
}

fn put_parts(alloc: Global, changes: &mut Changes, message: u64, count: u8) -> Option<()> {
    for number in 1..=count {
        let row = part(alloc, message, number, progress(false, 0, message)?)?;
        changes.parts.push(Revision::Put(row)).ok()?;
    }
    Some(())
}

fn amend(changes: &mut Changes, message: u64, number: u8, progress: Progress) -> Option<()> {
    let key = Key::pair(message, number);
    changes.parts.push(Revision::Amend { key, progress }).ok()
}

fn remove(changes: &mut Changes, message: u64, number: u8) -> Option<()> {
    let key = Key::pair(message, number);
    changes.parts.push(Revision::Remove(key)).ok()
}

fn put_step(alloc: Global, changes: &mut Changes, step: &Step) -> Option<()> {
    match step {
        Step::Begins(number, handset, parts) => {
            put_message(alloc, changes, *number, handset, None)?;
            put_parts(alloc, changes, *number, *parts)
        }
        Step::Fails(message, number, attempts, due) => {
            amend(
                changes,
                *message,
                *number,
                progress(false, *attempts, *due)?,
            )
        }
        Step::Done(message, number) => amend(changes, *message, *number, progress(true, 0, 0)?),
        Step::Removes(message, number) => remove(changes, *message, *number),
        Step::Ends(number, handset) => {
            put_message(alloc, changes, *number, handset, Some(FinalState::Expired))
        }
        Step::Most(_) | Step::Oldest(_) => Some(()),
    }
}

// A handset, how many parts wait, since when, how often the worst failed, and when the next is due.
type Line = (&'static str, u64, u64, u8, u64);

fn is_line(line: &WaitingHandset, wanted: &Line) -> bool {
    let (handset, waiting, since, failed, due) = *wanted;
    digits(handset) == Some(line.handset)
        && line.waiting == waiting
        && at(since) == Some(line.since)
        && line.failed == failed
        && at(due) == Some(line.due)
}

fn are_lines(lines: &[WaitingHandset], wanted: &[Line]) -> bool {
    if lines.len() != wanted.len() {
        return false;
    }
    for (line, wanted) in lines.iter().zip(wanted.iter()) {
        if !is_line(line, wanted) {
            return false;
        }
    }
    true
}

fn are_most<R: Wait>(rt: &R, alloc: Global, table: &PendingTable, wanted: &[Line]) -> bool {
    match table.most(rt, alloc, 2) {
        Ok(lines) => are_lines(lines.as_slice(), wanted),
        Err(_) => false,
    }
}

// Whether what the step puts is taken.
fn is_taken<R: Wait>(rt: &R, alloc: Global, table: &PendingTable, step: &Step) -> bool {
    let mut changes = no_changes(alloc);
    put_step(alloc, &mut changes, step).is_some() && table.take(rt, &changes).is_ok()
}

// Whether the step goes as it says.
fn goes<R: Wait>(rt: &R, alloc: Global, table: &PendingTable, step: &Step) -> bool {
    if !is_taken(rt, alloc, table, step) {
        return false;
    }
    match step {
        Step::Most(wanted) => are_most(rt, alloc, table, wanted),
        Step::Oldest(wanted) => table.oldest(rt).map(|oldest| oldest.id.number()) == *wanted,
        _ => true,
    }
}

const NEAR: &str = "447700900456";

const FAR: &str = "447700900999";

const LAST: &str = "447700900998";

// Each course with its steps; a step that fails is named by its course.
type Course = (&'static str, &'static [Step]);

const COURSES: &[Course] = &[
    ("nothing is pending", &[Step::Most(&[]), Step::Oldest(None)]),
    (
        "that for which most waits is the first, and two at most are shown",
        &[
            Step::Begins(1, NEAR, 1),
            Step::Begins(2, FAR, 2),
            Step::Begins(3, LAST, 3),
            Step::Most(&[(LAST, 3, 3, 0, 3), (FAR, 2, 2, 0, 2)]),
            Step::Oldest(Some(1)),
        ],
    ),
    (
        "the oldest of several messages, the worst part, the next try",
        &[
            Step::Begins(5, NEAR, 2),
            Step::Begins(9, NEAR, 1),
            Step::Most(&[(NEAR, 3, 5, 0, 5)]),
            Step::Fails(5, 1, 4, 300),
            Step::Fails(5, 2, 1, 60),
            Step::Most(&[(NEAR, 3, 5, 4, 9)]),
            Step::Fails(9, 1, 2, 200),
            Step::Most(&[(NEAR, 3, 5, 4, 60)]),
        ],
    ),
    (
        "a part that is done waits no more, nor one that is removed",
        &[
            Step::Begins(1, NEAR, 3),
            Step::Done(1, 2),
            Step::Most(&[(NEAR, 2, 1, 0, 1)]),
            Step::Removes(1, 1),
            Step::Most(&[(NEAR, 1, 1, 0, 1)]),
            Step::Done(1, 3),
            Step::Most(&[]),
        ],
    ),
    (
        "an end takes what waits of its message, and of no other",
        &[
            Step::Begins(1, NEAR, 2),
            Step::Begins(2, NEAR, 1),
            Step::Ends(1, NEAR),
            Step::Most(&[(NEAR, 1, 2, 0, 2)]),
            Step::Oldest(Some(2)),
            Step::Fails(1, 1, 7, 70),
            Step::Most(&[(NEAR, 1, 2, 0, 2)]),
            Step::Ends(2, NEAR),
            Step::Most(&[]),
            Step::Oldest(None),
        ],
    ),
];

#[test]
fn what_is_pending_follows_the_commits(rt: HostRuntime) -> Result<(), Fail> {
    for (name, steps) in COURSES {
        let table = PendingTable::new(rt.alloc());
        for (turn, step) in steps.iter().enumerate() {
            turn_holds(goes(&rt, rt.alloc(), &table, step), name, turn)?;
        }
    }
    Ok(())
}
