//! The text of a report.
use crate::rows::{holds, is_written};
use smpp_pdu::CommandStatus;
use sms_base::{Digits, FinalState, Listed, MessageId, OctetView, Octets};
use sms_script::report::{
    AcceptedRow, Answer, Answered, Broken, Direction, EntryState, FrameRow, JoinedCoding,
    JoinedRow, MessageState, OutboxRow, ReceiptRow, Report, ReportedMessage, report_text,
};
use std::alloc::{AllocError, Global};
use std::test::Fail;

const ONE_MESSAGE: &str = "answer 1 ROK 0000000001\n\
    message 0000000001 447700900001 447700900456 DELIVRD\n\
    accepted 447700900456 00 240C9144770009001000004220923295850005E8329BFD06\n\
    receipt 0000000001 DELIVRD\n\
    frame 1 down 447700900456 0904\n\
    premises hold\n";

const ALL_KINDS: &str =
    "answer 3 RINVMSGLEN\nanswer 4 ROK ENROUTE\nanswer 5 OK\nanswer 6 H2\nanswer 10000 STOPPED\n\
    message 9999999999 Bankö 2 ENROUTE\n\
    joined 2 1 16 00E4\njoined 2 1 7 -\n\
    outbox 2 4294967294 UNSURE\n\
    frame 20000 up 2 8904\n\
    premises broken at event 7: reused\n";

fn digits(text: &str) -> Digits {
    let mut digits = Digits::new();
    for character in text.chars() {
        if digits.len() < 20 {
            digits.push(character);
        }
    }
    digits
}

fn empty(alloc: Global) -> Report {
    Report {
        answers: Listed::new(alloc),
        table: Listed::new(alloc),
        accepted: Listed::new(alloc),
        joined: Listed::new(alloc),
        receipts: Listed::new(alloc),
        outboxes: Listed::new(alloc),
        given: Listed::new(alloc),
        bag: Listed::new(alloc),
    }
}

fn message(
    report: &mut Report,
    id: MessageId,
    from: &str,
    to: &str,
    state: MessageState,
) -> Result<(), AllocError> {
    report.table.push(ReportedMessage {
        id,
        from: digits(from),
        to: digits(to),
        state,
    })
}

fn frame(
    report: &mut Report,
    number: u64,
    direction: Direction,
    to: &str,
    octets: Octets,
) -> Result<(), AllocError> {
    report.bag.push(FrameRow {
        number,
        direction,
        handset: digits(to),
        carried: None,
        octets,
    })
}

fn answer(report: &mut Report, event: u64, answered: Answered) -> Result<(), AllocError> {
    report.answers.push(Answer { event, answered })
}

fn joined(report: &mut Report, coding: JoinedCoding, units: Octets) -> Result<(), AllocError> {
    report.joined.push(JoinedRow {
        handset: digits("2"),
        from: digits("1"),
        coding,
        units,
    })
}

const TPDU: &[u8] =
    b"\x24\x0C\x91\x44\x77\x00\x09\x00\x10\x00\x00\x42\x20\x92\x32\x95\x85\x00\x05\xE8\x32\x9B\xFD\x06";

fn one_message(alloc: Global, report: &mut Report, id: MessageId) -> Result<(), AllocError> {
    answer(report, 1, Answered::Accepted(id))?;
    message(
        report,
        id,
        "447700900001",
        "447700900456",
        MessageState::Final(FinalState::Delivered),
    )?;
    report.accepted.push(AcceptedRow {
        handset: digits("447700900456"),
        reference: 0,
        tpdu: Octets::copy_of(alloc, TPDU)?,
    })?;
    report.receipts.push(ReceiptRow {
        id,
        state: FinalState::Delivered,
    })?;
    let octets = Octets::copy_of(alloc, b"\x09\x04")?;
    frame(report, 1, Direction::Down, "447700900456", octets)
}

fn all_answers(report: &mut Report) -> Result<(), AllocError> {
    answer(report, 3, Answered::Status(CommandStatus::ESME_RINVMSGLEN))?;
    answer(report, 4, Answered::Found(MessageState::Enroute))?;
    answer(report, 5, Answered::Done)?;
    answer(report, 6, Answered::Refused(OctetView::of(b"H2")))?;
    answer(report, 10_000, Answered::Stopped)
}

fn all_kinds(alloc: Global, report: &mut Report, id: MessageId) -> Result<(), AllocError> {
    all_answers(report)?;
    message(report, id, "Bankö", "2", MessageState::Enroute)?;
    let units = Octets::copy_of(alloc, b"\x00\xE4")?;
    joined(report, JoinedCoding::Ucs2, units)?;
    joined(report, JoinedCoding::Septets, Octets::new(alloc))?;
    report.outboxes.push(OutboxRow {
        handset: digits("2"),
        entry: 4_294_967_294,
        state: EntryState::Unsure,
    })?;
    let octets = Octets::copy_of(alloc, b"\x89\x04")?;
    frame(report, 20_000, Direction::Up, "2", octets)
}

// A report: of one message, or with each kind of line.
#[derive(Clone, Copy)]
enum Which {
    OneMessage,
    AllKinds,
}

fn fill(alloc: Global, report: &mut Report, id: MessageId, which: Which) -> Result<(), AllocError> {
    match which {
        Which::OneMessage => one_message(alloc, report, id),
        Which::AllKinds => all_kinds(alloc, report, id),
    }
}

// Which report, the number of its message, where the premises broke, if they did, and its text.
const REPORTS: &[(Which, u64, Option<Broken>, &str, &str)] = &[
    (Which::OneMessage, 1, None, ONE_MESSAGE, "one message"),
    (
        Which::AllKinds,
        9_999_999_999,
        Some(Broken::Reused(7)),
        ALL_KINDS,
        "each kind of line",
    ),
];

fn text_is(alloc: Global, report: &Report, broken: Option<Broken>, wanted: &str) -> bool {
    is_written(report_text(alloc, report, broken), wanted.as_bytes())
}

fn is_report(alloc: Global, which: Which, id: u64, broken: Option<Broken>, wanted: &str) -> bool {
    let Some(id) = MessageId::new(id) else {
        return false;
    };
    let mut report = empty(alloc);
    fill(alloc, &mut report, id, which).is_ok() && text_is(alloc, &report, broken, wanted)
}

#[test]
fn reports_are_written(rt: HostRuntime) -> Result<(), Fail> {
    for (which, id, broken, text, name) in REPORTS {
        holds(is_report(rt.alloc(), *which, *id, *broken, text), name)?;
    }
    Ok(())
}
