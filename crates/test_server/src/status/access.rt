//! The line of a message at its end, in the access log.
use crate::rows::holds;
use sms_base::{FinalState, MessageId, Moment};
use smsc_status::{AccessLine, access_line};
use std::alloc::Global;
use std::test::Fail;

// 2026-11-26T04:46:01Z, by `date -u -d @1795668361`.
const MOMENT: u64 = 1_795_668_361;

// An account, a source, the last cause, and how the line begins and ends. A name with a space or a quotation mark is put between quotation marks.
type Row = (
    Option<&'static str>,
    &'static str,
    Option<u8>,
    &'static str,
    &'static str,
);

const ROWS: &[Row] = &[
    (
        Some("bank"),
        "447700900001",
        None,
        "event=access id=0000000042 account=bank source=447700900001 destination=447700900456 parts=3 ",
        " commit_seconds=0.001500",
    ),
    (
        Some("a \"b"),
        "BANK 1",
        Some(127),
        "event=access id=0000000042 account=\"a \\\"b\" source=\"BANK 1\" destination=447700900456 parts=3 ",
        " last_cause=127 commit_seconds=0.001500",
    ),
    (
        None,
        "447700900123",
        Some(22),
        "event=access id=0000000042 handset=447700900123 source=447700900123 destination=447700900456 parts=3 ",
        " last_cause=22 commit_seconds=0.001500",
    ),
];

fn octets_of(name: &Option<&'static str>) -> Option<&'static [u8]> {
    match name {
        Some(name) => Some(name.as_bytes()),
        None => None,
    }
}

// What stands between the two.
const COURSE: &str =
    "submitted=2026-11-26T04:46:01Z ended=2026-11-26T04:46:10Z state=UNDELIV failed_attempts=2";

fn line_of<'a>(
    account: Option<&'a [u8]>,
    source: &'a str,
    last_cause: Option<u8>,
    submitted: Moment,
    ended: Moment,
    id: MessageId,
) -> AccessLine<'a> {
    AccessLine {
        id,
        account,
        source: source.as_bytes(),
        destination: "447700900456".as_bytes(),
        parts: 3,
        submitted,
        ended,
        state: FinalState::Undeliverable,
        failed_attempts: 2,
        last_cause,
        commit_micros: 1_500,
    }
}

// Whether a text begins and ends so, and the course stands between.
fn is_text(text: &[u8], begin: &str, end: &str) -> bool {
    match text.strip_prefix(begin.as_bytes()) {
        Some(rest) => match rest.strip_prefix(COURSE.as_bytes()) {
            Some(rest) => rest == end.as_bytes(),
            None => false,
        },
        None => false,
    }
}

fn is_written(alloc: Global, row: &Row, submitted: Moment, id: MessageId) -> bool {
    let (account, source, last_cause, begin, end) = row;
    let account = octets_of(account);
    let line = line_of(
        account,
        source,
        *last_cause,
        submitted,
        submitted.plus(9),
        id,
    );
    match access_line(alloc, &line) {
        Ok(text) => is_text(text.as_slice(), begin, end),
        Err(_) => false,
    }
}

#[test]
fn a_message_has_a_line_at_its_end(rt: HostRuntime) -> Result<(), Fail> {
    let submitted = Moment::from_seconds(MOMENT)?;
    let Some(id) = MessageId::new(42) else {
        return Err(Fail::new("a number"));
    };
    for row in ROWS {
        holds(is_written(rt.alloc(), row, submitted, id), row.3)?;
    }
    Ok(())
}
