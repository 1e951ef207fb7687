//! What the events of a group changed, over a keep in memory.
use crate::indexes::names::{at, message};
use crate::rows::failed_at;
use sms_base::{Address, Listed, Octets};
use sms_centre_group::GroupKeep;
use sms_centre_rows::messages::PartRow;
use sms_centre_rows::waiting::{Progress, Revision};
use sms_centre_spec::{Changes, Setup};
use sms_rows::keep::BodyKeep;
use sms_rows::table::Key;
use sms_store_memory::centre::MemoryKeep;
use std::alloc::Global;
use std::test::Fail;

fn setup(alloc: Global) -> Option<Setup> {
    Some(Setup {
        centre: Address::new(1, 1, "447700900099").ok()?,
        start: at(0)?,
        first: 1,
        accounts: Listed::new(alloc),
    })
}

fn progress(attempts: u8) -> Option<Progress> {
    Some(Progress {
        is_done: false,
        attempts,
        due: at(0)?,
    })
}

// A part of message 1 with a TPDU of one octet.
fn part(alloc: Global, number: u8, octet: u8) -> Option<PartRow> {
    Some(PartRow {
        id: message(1)?,
        number,
        reference: 0,
        tpdu: Octets::copy_of(alloc, &[octet]).ok()?,
        key: None,
        progress: progress(0)?,
    })
}

fn key(number: u8) -> Option<Key> {
    Some(Key::pair(message(1)?.number(), number))
}

// What an event changes of the parts of message 1, and what is seen then.
#[derive(Clone, Copy)]
enum Step {
    // An event puts the part of that number, with a TPDU of that octet.
    Puts(u8, u8),
    // So many attempts at the part of that number are noted.
    Amends(u8, u8),
    Removes(u8),
    Flushes,
    // The part of that number has a TPDU of that octet, or is none.
    Has(u8, Option<u8>),
    // So many parts are committed, and what is held is let go.
    Commits(usize),
}

// What the step revises.
fn revision_of(alloc: Global, step: &Step) -> Option<Revision<PartRow>> {
    match step {
        Step::Puts(number, octet) => Some(Revision::Put(part(alloc, *number, *octet)?)),
        Step::Amends(number, attempts) => Some(Revision::Amend {
            key: key(*number)?,
            progress: progress(*attempts)?,
        }),
        Step::Removes(number) => Some(Revision::Remove(key(*number)?)),
        _ => None,
    }
}

// The changes of an event that revises one part.
fn changes_of(alloc: Global, step: &Step) -> Option<Changes> {
    let mut parts = Listed::new(alloc);
    parts.push(revision_of(alloc, step)?).ok()?;
    Some(Changes {
        messages: Listed::new(alloc),
        parts,
        references: Listed::new(alloc),
        handsets: Listed::new(alloc),
        reports: Listed::new(alloc),
        priorities: Listed::new(alloc),
        bars: Listed::new(alloc),
    })
}

fn held(group: &mut GroupKeep<MemoryKeep>, changes: Changes) -> bool {
    match group.make_room(&changes) {
        Ok(()) => {
            group.hold(changes);
            true
        }
        Err(_) => false,
    }
}

fn holds_changes(alloc: Global, group: &mut GroupKeep<MemoryKeep>, step: &Step) -> bool {
    match changes_of(alloc, step) {
        Some(changes) => held(group, changes),
        None => false,
    }
}

// Whether the part of that number has a TPDU of that octet, or none.
fn has(group: &mut GroupKeep<MemoryKeep>, number: u8, octet: Option<u8>) -> bool {
    let Some(key) = key(number) else {
        return false;
    };
    match group.body(key) {
        Ok(Some(body)) => match octet {
            Some(octet) => body.as_slice() == [octet].as_slice(),
            None => false,
        },
        Ok(None) => octet.is_none(),
        Err(_) => false,
    }
}

// Whether so many parts are committed.
fn are_committed(group: &mut GroupKeep<MemoryKeep>, count: usize) -> bool {
    match group.gather() {
        Ok(rows) => rows.parts.len() == count,
        Err(_) => false,
    }
}

// Whether the step goes as it says.
fn goes(alloc: Global, group: &mut GroupKeep<MemoryKeep>, step: &Step) -> bool {
    match step {
        Step::Puts(_, _) | Step::Amends(_, _) | Step::Removes(_) => {
            holds_changes(alloc, group, step)
        }
        Step::Flushes => group.flush() == Ok(()),
        Step::Has(number, octet) => has(group, *number, *octet),
        Step::Commits(count) => are_committed(group, *count),
    }
}

// A course and its steps.
type Course = (&'static str, &'static [Step]);

const COURSES: &[Course] = &[
    ("a group is read before its store", READ_FIRST),
    (
        "a flush commits what all events of a group changed",
        FLUSHED,
    ),
];

const READ_FIRST: &[Step] = &[
    Step::Has(1, None),
    Step::Puts(1, 7),
    Step::Puts(2, 8),
    Step::Has(1, Some(7)),
    Step::Flushes,
    Step::Has(1, Some(7)),
    Step::Puts(1, 9),
    Step::Amends(1, 1),
    Step::Has(1, Some(9)),
    Step::Has(2, Some(8)),
];

const FLUSHED: &[Step] = &[
    Step::Puts(1, 7),
    Step::Puts(2, 8),
    Step::Removes(1),
    Step::Flushes,
    Step::Commits(1),
    Step::Puts(3, 9),
    Step::Commits(1),
    Step::Flushes,
    Step::Commits(1),
];

fn go(alloc: Global, group: &mut GroupKeep<MemoryKeep>, course: &Course) -> Result<(), Fail> {
    let (name, steps) = course;
    for (at, step) in steps.iter().enumerate() {
        if !goes(alloc, group, step) {
            return Err(failed_at(name, at));
        }
    }
    Ok(())
}

fn plays(alloc: Global, course: &Course) -> Result<(), Fail> {
    let Some(setup) = setup(alloc) else {
        return Err(Fail::new("no setup"));
    };
    let mut group = GroupKeep::over(alloc, MemoryKeep::new(alloc, setup));
    let went = go(alloc, &mut group, course);
    drop(group);
    went
}

#[test]
fn groups_go_as_told(rt: HostRuntime) -> Result<(), Fail> {
    for course in COURSES {
        plays(rt.alloc(), course)?;
    }
    Ok(())
}
