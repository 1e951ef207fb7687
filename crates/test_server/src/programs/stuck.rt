//! The table of what waits, by handset.
use crate::rows::holds;
use sms_base::{Moment, Msisdn};
use smsc_cli::centre_table::{StuckLine, stuck_table};
use std::alloc::Global;
use std::test::Fail;

fn digits(text: &str) -> Option<Msisdn> {
    Msisdn::of(text.as_bytes())
}

// 2026-11-26 04:46:01 at UTC, by `date -u -d @1795668361`, and so many seconds on.
fn moment(more: u64) -> Option<Moment> {
    Moment::from_seconds(1_795_668_361 + more % 60).ok()
}

const TABLE: &str = "TO                    WAITING SINCE        FAILED DUE\n\
447700900456          12      261126044601 3      261126044610\n\
447700900999          1       261126044610 0      -\n";

fn line(
    handset: &str,
    waiting: u64,
    since: u64,
    failed: u8,
    due: Option<Moment>,
) -> Option<StuckLine> {
    Some(StuckLine {
        handset: digits(handset)?,
        waiting,
        since: moment(since)?,
        failed,
        due,
    })
}

fn lines(alloc: Global) -> Option<Vec<StuckLine>> {
    let first = line("447700900456", 12, 0, 3, moment(9))?;
    let second = line("447700900999", 1, 9, 0, None)?;
    vec![in alloc; first, second].ok()
}

fn is_table(alloc: Global, lines: &[StuckLine]) -> bool {
    match stuck_table(alloc, lines) {
        Ok(text) => text.as_slice() == TABLE.as_bytes(),
        Err(_) => false,
    }
}

#[test]
fn what_waits_has_a_line_for_each_handset(rt: HostRuntime) -> Result<(), Fail> {
    match lines(rt.alloc()) {
        Some(lines) => holds(is_table(rt.alloc(), lines.as_slice()), "the table"),
        None => Err(Fail::new("no lines")),
    }
}
