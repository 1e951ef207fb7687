//! What waits in a store, by handset.
//!
//! What the table says of its lines is proved (`smsc_cli::centre_table`); which lines they are is only tested.
use sms_base::{Moment, Msisdn, earlier};
use sms_centre_rows::messages::{MessageRow, PartRow};
use sms_rows::table::{Key, Table};
use smsc_cli::centre_table::{StuckLine, attempts_in, due_in, own_parts};
use std::alloc::{AllocError, Global};
use std::collections::BTreeMap;

fn soonest(one: Option<Moment>, other: Option<Moment>) -> Option<Moment> {
    match (one, other) {
        (Some(one), Some(other)) => Some(earlier(one, other)),
        (Some(moment), None) | (None, Some(moment)) => Some(moment),
        (None, None) => None,
    }
}

fn waiting_in(parts: &[PartRow]) -> u64 {
    let mut waiting = 0u64;
    for part in parts {
        if !part.progress.is_done {
            waiting = waiting.saturating_add(1);
        }
    }
    waiting
}

// What one message has waiting for its handset.
fn line_of(message: &MessageRow, parts: &[PartRow]) -> StuckLine {
    StuckLine {
        handset: message.handset,
        waiting: waiting_in(parts),
        since: message.submitted,
        failed: attempts_in(parts),
        due: due_in(parts),
    }
}

// What two have.
fn joined(one: &StuckLine, other: &StuckLine) -> StuckLine {
    StuckLine {
        handset: one.handset,
        waiting: one.waiting.saturating_add(other.waiting),
        since: earlier(one.since, other.since),
        failed: one.failed.max(other.failed),
        due: soonest(one.due, other.due),
    }
}

fn copy_of(line: &StuckLine) -> StuckLine {
    StuckLine {
        handset: line.handset,
        waiting: line.waiting,
        since: line.since,
        failed: line.failed,
        due: line.due,
    }
}

type Lines = BTreeMap<u128, StuckLine>;

fn number_of(handset: &Msisdn) -> u128 {
    Key::handset(handset).number()
}

fn put_message(
    lines: &mut Lines,
    message: &MessageRow,
    parts: &Table<PartRow>,
) -> Result<(), AllocError> {
    let line = line_of(message, own_parts(parts, message.id));
    let number = number_of(&message.handset);
    let line = match lines.get(&number) {
        Some(before) => joined(before, &line),
        None => line,
    };
    lines.insert(number, line)?;
    Ok(())
}

/// A line for each handset for which messages wait that have not ended, first the one for which most waits.
pub(crate) fn stuck_lines(
    alloc: Global,
    messages: &[MessageRow],
    parts: &Table<PartRow>,
) -> Result<Vec<StuckLine>, AllocError> {
    let mut by_handset = Lines::new(alloc);
    for message in messages {
        if message.state.is_none() {
            put_message(&mut by_handset, message, parts)?;
        }
    }
    let mut lines = Vec::new(alloc);
    for line in by_handset.values() {
        lines.push(copy_of(line))?;
    }
    lines.sort_by_key(|line| u64::MAX - line.waiting)?;
    Ok(lines)
}
