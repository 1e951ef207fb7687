//! Whole TPDUs in their octets, each public call once with ample memory, and SUBMITs that another implementation made.
use crate::examples::{DELIVER, LEAP_DAY, SUBMIT};
use crate::rows::{are, holds, is_written, joined};
use sms_base::{Address, Moment, MomentError, Octets};
use sms_tpdu::{
    Carrier, Down, FailureCause, Status, Up, ValidityPeriod, read_down, read_up, same_message,
    set_more_messages, validity, write_down, write_relay_address, write_up,
};
use std::alloc::Global;
use std::test::Fail;

// A header of five octets behind its length, then one septet.
const WITH_HEADER: &[u8] =
    b"\x44\x0C\x91\x44\x77\x00\x09\x10\x32\x00\x00\x42\x20\x92\x32\x95\x85\x00\x08\x05\x00\x03\x2A\x02\x01\xC2";

// From the name "Bank" in four septets.
const FROM_A_NAME: &[u8] = b"\x04\x07\xD0\xC2\xB0\x7B\x0D\x00\x00\x42\x20\x92\x32\x95\x85\x00\x00";

const REFUSED_SUBMIT: &[u8] = b"\x01\xC6\x00\x42\x20\x92\x32\x95\x85\x00";

const STATUS_REPORT: &[u8] =
    b"\x06\x07\x0C\x91\x44\x77\x00\x09\x40\x65\x42\x20\x92\x32\x95\x85\x00\x42\x30\x10\x00\x00\x00\x00\x00";

// Whether the octets are a SUBMIT with reference 7 to that number, without a validity period, with five septets.
fn is_submit(octets: &[u8], to: &Address) -> bool {
    match read_up(octets, Carrier::InData) {
        Ok(Up::Submit(submit)) => {
            submit.message_reference == 0x07
                && submit.destination_address == *to
                && submit.validity_period == ValidityPeriod::NotPresent
                && submit.user_data.length == 5
                && are(submit.user_data.octets.as_slice(), b"\xE8\x32\x9B\xFD\x06")
        }
        _ => false,
    }
}

// Whether the octets are a DELIVER from that address, or a STATUS-REPORT with reference 7 of a message to it.
fn is_down(octets: &[u8], address: &Address) -> bool {
    match read_down(octets, Carrier::InData) {
        Ok(Down::Deliver(deliver)) => {
            deliver.no_more_messages_to_send
                && !deliver.status_report_indication
                && deliver.originating_address == *address
                && deliver.service_centre_time_stamp.seconds() == LEAP_DAY
        }
        Ok(Down::StatusReport(report)) => {
            report.message_reference == 0x07
                && report.recipient_address == *address
                && report.service_centre_time_stamp.seconds() == LEAP_DAY
                && report.discharge_time.seconds() == LEAP_DAY + 2
                && report.status == Status::Received.octet()
        }
        _ => false,
    }
}

// A TPDU, whether it goes up, and the address that it has: type of number, numbering plan and digits.
type Read = (&'static [u8], bool, u8, u8, &'static str, &'static str);

const READ: &[Read] = &[
    (SUBMIT, true, 1, 1, "447700900456", "a SUBMIT"),
    (
        STATUS_REPORT,
        false,
        1,
        1,
        "447700900456",
        "a STATUS-REPORT",
    ),
    (
        DELIVER,
        false,
        1,
        1,
        "447700900123",
        "a DELIVER from a number",
    ),
    (FROM_A_NAME, false, 5, 0, "Bank", "a DELIVER from a name"),
];

fn is_read(row: &Read) -> bool {
    let (octets, is_up, ton, npi, digits, _) = row;
    match Address::new(*ton, *npi, digits) {
        Ok(address) => {
            if *is_up {
                is_submit(octets, &address)
            } else {
                is_down(octets, &address)
            }
        }
        Err(_) => false,
    }
}

// The failure cause that a TPDU has, if any, or the code of its fault.
type Told = Result<Option<u8>, &'static str>;

fn told_up(octets: &[u8], carrier: Carrier) -> Told {
    match read_up(octets, carrier) {
        Ok(Up::DeliverReport(report)) => Ok(report.failure_cause),
        Ok(Up::Submit(_)) => Ok(None),
        Err(fault) => Err(fault.code()),
    }
}

fn told_down(octets: &[u8], carrier: Carrier) -> Told {
    match read_down(octets, carrier) {
        Ok(Down::SubmitReport(report)) => Ok(report.failure_cause),
        Ok(_) => Ok(None),
        Err(fault) => Err(fault.code()),
    }
}

const SUBMIT_FAULTS: &[(&[u8], Carrier, Told)] = &[
    (b"", Carrier::InData, Err("G1")),
    (
        b"\x01\x07\x05\x81\x21\x43\xF5\x00\x00\x00",
        Carrier::InData,
        Ok(None),
    ),
    (
        b"\x01\x07\x05\x81\x21\x43\xF5\x00\x00\x00\x00",
        Carrier::InData,
        Err("G2"),
    ),
    (
        b"\x02\x07\x05\x81\x21\x43\xF5\x00\x00\x00",
        Carrier::InData,
        Err("G6"),
    ),
    (b"\x09", Carrier::InData, Err("G7")),
    (b"\x01\x07\x15", Carrier::InData, Err("G3")),
    (b"\x01\x07\x05\x81\x21\x43\x65", Carrier::InData, Err("G3")),
    (b"\x01\x07\x05\x81\xF1", Carrier::InData, Err("G3")),
    (
        b"\x01\x07\x0C\x91\x44\x77\x00\x09\x40\x65\x00\x00\xA1",
        Carrier::InData,
        Err("G5"),
    ),
    (
        b"\x01\x07\x0C\x91\x44\x77\x00\x09\x40\x65\x00\x04\x8D",
        Carrier::InData,
        Err("G5"),
    ),
    (
        b"\x41\x07\x0C\x91\x44\x77\x00\x09\x40\x65\x00\x00\x01\x05",
        Carrier::InData,
        Err("G9"),
    ),
    (
        b"\x41\x07\x0C\x91\x44\x77\x00\x09\x40\x65\x00\x00\x00",
        Carrier::InData,
        Err("G9"),
    ),
    // the cause of a report
    (b"\x00\xD3\x00", Carrier::InError, Ok(Some(0xD3))),
];

const DELIVER_FAULTS: &[(&[u8], Carrier, Told)] = &[
    (WITH_HEADER, Carrier::InData, Ok(None)),
    // 30 February, also where octets are missing behind it
    (
        b"\x04\x0C\x91\x44\x77\x00\x09\x10\x32\x00\x00\x42\x20\x03\x32\x95\x85\x00\x00",
        Carrier::InData,
        Err("G4"),
    ),
    (
        b"\x04\x0C\x91\x44\x77\x00\x09\x10\x32\x00\x00\x42\x20\x03",
        Carrier::InData,
        Err("G4"),
    ),
    // the spare bit of the last octet, and a fill bit
    (
        b"\x44\x0C\x91\x44\x77\x00\x09\x10\x32\x00\x00\x42\x20\x92\x32\x95\x85\x00\x08\x05\x00\x03\x2A\x02\x01\xC3",
        Carrier::InData,
        Err("G8"),
    ),
    // a name of no septet, and one with a spare bit
    (b"\x04\x01\xD0", Carrier::InData, Err("G3")),
    (b"\x04\x07\xD0\xC2\xB0\x7B\x1D", Carrier::InData, Err("G3")),
    // a validity period that is not supported (3GPP TS 23.040 9.2.3.22)
    (REFUSED_SUBMIT, Carrier::InError, Ok(Some(0xC6))),
];

// A SUBMIT that is cut is truncated, and nothing else.
#[test]
fn tpdus_are_read() -> Result<(), Fail> {
    for row in READ {
        holds(is_read(row), row.5)?;
    }
    for (octets, carrier, told) in SUBMIT_FAULTS {
        holds(told_up(octets, *carrier) == *told, "a TPDU of a handset")?;
    }
    for length in 0..SUBMIT.len() {
        let told = told_up(&SUBMIT[..length], Carrier::InData);
        holds(told == Err("G1"), "a front")?;
    }
    for (octets, carrier, told) in DELIVER_FAULTS {
        holds(told_down(octets, *carrier) == *told, "a TPDU of a centre")?;
    }
    let period = FailureCause::ValidityPeriodFormatNotSupported;
    holds(period.octet() == 0xC6, "a failure cause")
}

// Whether the octets are written as they were read, up or down.
fn goes(alloc: Global, octets: &[u8], carrier: Carrier, is_up: bool) -> bool {
    if is_up {
        match read_up(octets, carrier) {
            Ok(up) => is_written(write_up(alloc, &up), &[octets]),
            Err(_) => false,
        }
    } else {
        match read_down(octets, carrier) {
            Ok(down) => is_written(write_down(alloc, &down), &[octets]),
            Err(_) => false,
        }
    }
}

const WRITTEN: &[(&[u8], Carrier, bool)] = &[
    (DELIVER, Carrier::InData, false),
    (WITH_HEADER, Carrier::InData, false),
    (FROM_A_NAME, Carrier::InData, false),
    (STATUS_REPORT, Carrier::InData, false),
    (
        b"\x01\x00\x42\x20\x92\x32\x95\x85\x00",
        Carrier::InAck,
        false,
    ),
    (
        b"\x01\xC6\x00\x42\x20\x92\x32\x95\x85\x00",
        Carrier::InError,
        false,
    ),
    (SUBMIT, Carrier::InData, true),
    (b"\x00\x00", Carrier::InAck, true),
    (b"\x00\xD3\x00", Carrier::InError, true),
    (b"\x00\x07\x00\x00\x02\xE8\x34", Carrier::InAck, true),
];

// Fields, and 140 octets of user data behind them.
fn longest_goes(alloc: Global, fields: &[u8], carrier: Carrier, is_up: bool) -> bool {
    match joined(alloc, &[fields, &[0x61; 140]]) {
        Ok(octets) => goes(alloc, octets.as_slice(), carrier, is_up),
        Err(_) => false,
    }
}

// Each with an address of 20 digits or every parameter, and 160 septets or 140 octets, which stand behind the fields.
const LONGEST: &[(&[u8], Carrier, bool)] = &[
    (
        b"\x04\x14\x91\x44\x77\x00\x09\x10\x32\x54\x76\x98\x10\x00\x00\x42\x20\x92\x32\x95\x85\x00\xA0",
        Carrier::InData,
        false,
    ),
    (
        b"\x04\x14\x91\x44\x77\x00\x09\x10\x32\x54\x76\x98\x10\x00\x08\x42\x20\x92\x32\x95\x85\x00\x8C",
        Carrier::InData,
        false,
    ),
    (
        b"\x06\x07\x14\x91\x44\x77\x00\x09\x10\x32\x54\x76\x98\x10\x42\x20\x92\x32\x95\x85\x00\x42\x30\x10\x00\x00\x00\x00\x00\x07\x00\x04\x8C",
        Carrier::InData,
        false,
    ),
    (
        b"\x01\xC6\x07\x42\x20\x92\x32\x95\x85\x00\x00\x00\xA0",
        Carrier::InError,
        false,
    ),
    (
        b"\x19\x07\x14\x91\x44\x77\x00\x09\x10\x32\x54\x76\x98\x10\x00\x00\x42\x20\x92\x32\x95\x85\x00\xA0",
        Carrier::InData,
        true,
    ),
    (
        b"\x19\x07\x14\x91\x44\x77\x00\x09\x10\x32\x54\x76\x98\x10\x00\x04\x42\x20\x92\x32\x95\x85\x00\x8C",
        Carrier::InData,
        true,
    ),
    (b"\x00\xD3\x07\x00\x08\x8C", Carrier::InError, true),
];

// SUBMITs that Gammu 1.42 encoded (python3-gammu of Debian 12, `gammu.EncodePDU(message, "Submit")`, without the
// service centre's address that it puts in front): plain, UCS2, octets, a longer text, characters of the extension
// table, headers of 5 and 6 octets behind their length, a status report requested, a short number, an odd one, three
// days, a class, duplicates rejected, and a reply path.
const OF_GAMMU: &[&[u8]] = &[
    b"\x11\x07\x0C\x91\x44\x77\x00\x09\x40\x65\x00\x00\x00\x05\xE8\x32\x9B\xFD\x06",
    b"\x11\x07\x0C\x91\x44\x77\x00\x09\x40\x65\x00\x08\x00\x0E\x00\x68\x00\xE9\x00\x6C\x00\x6C\x00\x6F\x00\x20\x4F\x60",
    b"\x11\x07\x0C\x91\x44\x77\x00\x09\x40\x65\x00\x04\x00\x03\x61\x62\x63",
    b"\x11\x07\x0C\x91\x44\x77\x00\x09\x40\x65\x00\x00\x00\x36\x54\x74\x19\x14\xAF\xA7\xC7\x6B\x90\x58\xFE\xBE\xBB\x41\xE6\x37\x1E\xA4\xAE\xB7\xE1\x73\xD0\xDB\x5E\x96\x83\xE8\xE8\x32\x88\x1D\xD6\xE7\x41\xE4\xF7\x19\x04\x8B\xC9\x66\xB4\x9A\xED\x86\xCB\x01",
    b"\x11\x07\x0C\x91\x44\x77\x00\x09\x40\x65\x00\x00\x00\x08\xE1\x0D\x4A\xBC\x49\x6D\xCA",
    b"\x51\x07\x0C\x91\x44\x77\x00\x09\x40\x65\x00\x00\x00\x0F\x05\x00\x03\x2A\x02\x01\xE0\x61\x39\x1D\xF4\x76\x97\x01",
    b"\x51\x07\x0C\x91\x44\x77\x00\x09\x40\x65\x00\x00\x00\x10\x06\x08\x04\x01\x2C\x02\x02\xF0\xB0\x9C\x0E\xA2\xDF\xDF",
    b"\x31\x07\x0C\x91\x44\x77\x00\x09\x40\x65\x00\x00\x00\x05\xE8\x32\x9B\xFD\x06",
    b"\x11\x07\x05\x81\x21\x43\xF5\x00\x00\x00\x05\xE8\x32\x9B\xFD\x06",
    b"\x11\x07\x0D\x91\x44\x77\x00\x09\x40\x65\xF7\x00\x00\x00\x05\xE8\x32\x9B\xFD\x06",
    b"\x11\x07\x0C\x91\x44\x77\x00\x09\x40\x65\x00\x00\xA9\x05\xE8\x32\x9B\xFD\x06",
    b"\x11\x07\x0C\x91\x44\x77\x00\x09\x40\x65\x00\xF1\x00\x05\xE8\x32\x9B\xFD\x06",
    b"\x15\x07\x0C\x91\x44\x77\x00\x09\x40\x65\x00\x00\x00\x05\xE8\x32\x9B\xFD\x06",
    b"\x91\x07\x0C\x91\x44\x77\x00\x09\x40\x65\x00\x00\x00\x05\xE8\x32\x9B\xFD\x06",
];

#[test]
fn tpdus_are_written_as_they_were_read(rt: HostRuntime) -> Result<(), Fail> {
    let alloc = rt.alloc();
    for (octets, carrier, is_up) in WRITTEN {
        holds(goes(alloc, octets, *carrier, *is_up), "a TPDU")?;
    }
    for octets in OF_GAMMU {
        holds(goes(alloc, octets, Carrier::InData, true), "a SUBMIT")?;
    }
    for (fields, carrier, is_up) in LONGEST {
        holds(longest_goes(alloc, fields, *carrier, *is_up), "a long TPDU")?;
    }
    Ok(())
}

// Whether the first octet is so once the octets tell whether more messages wait, and they are one message still.
fn tells(alloc: Global, octets: &[u8], more: bool, first: u8) -> bool {
    match Octets::copy_of(alloc, octets) {
        Ok(copy) => {
            let mut items = copy.into_vec();
            set_more_messages(items.as_mut_slice(), more);
            items.first() == Some(&first) && same_message(items.as_slice(), octets)
        }
        Err(_) => false,
    }
}

// From the worked example of two messages that wait: the first is sent with 20, the last with 24.
const MORE: &[(&[u8], bool, u8, &str)] = &[
    (b"\x24\x0C\x91\x44", true, 0x20, "more messages"),
    (b"\x20\x0C\x91\x44", false, 0x24, "the last message"),
];

// Whether two are one message.
const MESSAGES: &[(&[u8], &[u8], bool)] = &[
    (DELIVER, DELIVER, true),
    (b"", b"", true),
    (b"\x24\x0C", b"", false),
    (b"\x24\x0C", b"\x20", false),
    (b"\x24\x0C", b"\x24\x0D", false),
    (b"\x24\x0C", b"\x64\x0C", false),
    (b"\x24\x0C", b"\x24\x0C\x00", false),
];

// Whether the number, of that type, is written so at the relay layer, where it has no length.
fn is_relay_address(alloc: Global, ton: u8, digits: &str, octets: &[u8]) -> bool {
    match Address::new(ton, 1, digits) {
        Ok(number) => is_written(write_relay_address(alloc, &number), &[octets]),
        Err(_) => false,
    }
}

const RELAY_ADDRESSES: &[(u8, &str, &[u8])] = &[
    (1, "447700900123", b"\x91\x44\x77\x00\x09\x10\x32"),
    (0, "12345", b"\x81\x21\x43\xF5"),
];

#[test]
fn messages_and_relay_addresses_are_known(rt: HostRuntime) -> Result<(), Fail> {
    for (octets, more, first, name) in MORE {
        holds(tells(rt.alloc(), octets, *more, *first), name)?;
    }
    for (one, other, is_same) in MESSAGES {
        holds(same_message(one, other) == *is_same, "two messages")?;
    }
    for (ton, digits, octets) in RELAY_ADDRESSES {
        holds(is_relay_address(rt.alloc(), *ton, digits, octets), digits)?;
    }
    Ok(())
}

// A validity period, an absolute one in seconds.
#[derive(Clone, Copy)]
enum Period {
    NotPresent,
    Relative(u8),
    Absolute(u64),
}

fn period_of(period: &Period) -> Result<ValidityPeriod, MomentError> {
    match period {
        Period::NotPresent => Ok(ValidityPeriod::NotPresent),
        Period::Relative(octet) => Ok(ValidityPeriod::Relative(*octet)),
        Period::Absolute(seconds) => Ok(ValidityPeriod::Absolute(Moment::from_seconds(*seconds)?)),
    }
}

// Until when a message is valid that came at a moment.
fn limit_of(period: &Period, now: u64) -> Result<u64, MomentError> {
    let now = Moment::from_seconds(now)?;
    let limit = validity(period_of(period)?, now);
    Ok(limit.seconds())
}

// The last moment that there is.
const LAST: u64 = 4_102_444_799;

// A period, when the message came, and until when it is valid.
const PERIODS: &[(Period, u64, u64)] = &[
    (Period::NotPresent, LEAP_DAY, LEAP_DAY + 172_800),
    (Period::Relative(0), LEAP_DAY, LEAP_DAY + 300),
    (Period::Relative(143), LEAP_DAY, LEAP_DAY + 43_200),
    (Period::Relative(144), LEAP_DAY, LEAP_DAY + 45_000),
    (Period::Relative(167), LEAP_DAY, LEAP_DAY + 86_400),
    (Period::Relative(168), LEAP_DAY, LEAP_DAY + 172_800),
    (Period::Relative(196), LEAP_DAY, LEAP_DAY + 2_592_000),
    (Period::Relative(197), LEAP_DAY, LEAP_DAY + 3_024_000),
    (Period::Relative(254), LEAP_DAY, LEAP_DAY + 37_497_600),
    (Period::Relative(255), LEAP_DAY, LEAP_DAY + 38_102_400),
    (Period::Relative(255), LAST, LAST),
    (Period::Absolute(LEAP_DAY - 1), LEAP_DAY, LEAP_DAY - 1),
    (Period::Absolute(LAST), LEAP_DAY, LEAP_DAY + 38_102_400),
];

#[test]
fn validity_is_its_table() -> Result<(), Fail> {
    for (period, now, limit) in PERIODS {
        holds(limit_of(period, *now) == Ok(*limit), "a validity period")?;
    }
    Ok(())
}
