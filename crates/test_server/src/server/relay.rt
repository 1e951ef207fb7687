use crate::rows::holds;
use sms_base::Moment;
use sms_relay_run::{RunError, run_relay};
use smsc_cli::words::own_address;
use std::alloc::Global;
use std::test::Fail;

// Thursday 29 February 2024, 23:59:58 at UTC.
const NOW: u64 = 1_709_251_198;

// A relay run of the centre 447700900000 for an input of the handset 447700900123.
fn relay(alloc: Global, input: &str, written: &mut Vec<u8>) -> Result<(), RunError> {
    let centre = own_address("447700900000").ok_or(RunError::BadLine(0))?;
    let from = own_address("447700900123").ok_or(RunError::BadLine(0))?;
    let Ok(now) = Moment::from_seconds(NOW) else {
        return Err(RunError::BadLine(0));
    };
    let mut reader = input.as_bytes();
    run_relay(alloc, &mut reader, written, centre, from, now)
}

fn writes(alloc: Global, input: &str, output: &str) -> bool {
    let mut written = Vec::new(alloc);
    relay(alloc, input, &mut written).is_ok() && written.as_slice() == output.as_bytes()
}

fn bad_line(alloc: Global, input: &str) -> u64 {
    let mut written = Vec::new(alloc);
    match relay(alloc, input, &mut written) {
        Err(RunError::BadLine(line)) => line,
        Ok(_) | Err(_) => 0,
    }
}

// An input, and what is written for it.
type Row = (&'static str, &'static str, &'static str);

const WRITTEN: &[Row] = &[
    (
        "00030007914477000900000D01070C91447700094065000000",
        "447700900123 03034109010042209232958500\n\
        447700900456 010007914477000900000013040C9144770009103200004220923295850000\n",
        "an empty text is delivered",
    ),
    (
        "00030007914477000900001441070C914477000940650000080500032A0201C2\n",
        "447700900123 03034109010042209232958500\n\
        447700900456 01000791447700090000001A440C91447700091032000042209232958500080500032A0201C2\n",
        "a header passes octet for octet",
    ),
    (
        "00030007914477000900001201070C91447700091032000005E8329BFD06\n",
        "447700900123 03034109010042209232958500\n\
        447700900123 010007914477000900000018040C9144770009103200004220923295850005E8329BFD06\n",
        "the destination may be the sender",
    ),
    (
        "00030007914477000900001209070C91447700094065000005E8329BFD06",
        "447700900123 05030115410A01C60042209232958500\n",
        "an enhanced validity period is refused",
    ),
    (
        "00030007914477000900001202070C91447700094065000005E8329BFD06",
        "447700900123 05030161410A01FF0042209232958500\n",
        "a command is refused",
    ),
    ("0605", "447700900123 0305\n", "memory available"),
    ("0705", "447700900123 05050161\n", "no such message type"),
    ("00", "447700900123 05000160\n", "cut short"),
    ("0205", "", "an answer to nothing"),
    ("\n", "447700900123 05000160\n", "no octets"),
    // The second digit of the destination is a star.
    (
        "00030007914477000900001201070C91A47700094065000005E8329BFD06",
        "447700900123 05030115410A01C30042209232958500\n",
        "a destination that is no handset is refused",
    ),
    // Absolute validity: the moment itself.
    (
        "00030007914477000900001919070C9144770009406500004220923295850005E8329BFD06",
        "447700900123 05030115410A01FF0042209232958500\n",
        "a limit in the past is refused",
    ),
];

#[test]
fn units_are_answered_and_delivered(rt: HostRuntime) -> Result<(), Fail> {
    for (input, output, name) in WRITTEN {
        holds(writes(rt.alloc(), input, output), name)?;
    }
    Ok(())
}

// An input, and the number of its bad line.
const BAD_LINES: &[(&str, u64, &str)] = &[
    ("", 1, "no line"),
    ("060", 1, "an odd number of digits"),
    ("06 5", 1, "another character"),
    ("060\n0605", 1, "the first line first"),
    ("0605\n\n", 2, "a second line"),
];

#[test]
fn bad_lines_are_told_by_their_number(rt: HostRuntime) -> Result<(), Fail> {
    for (input, line, name) in BAD_LINES {
        holds(bad_line(rt.alloc(), input) == *line, name)?;
    }
    Ok(())
}

// A line of that many zeros. The longest is RP-DATA of reference 0 whose side that must be unnamed is, and whose other side isn't named.
fn zeros(alloc: Global, count: usize) -> Result<String, Fail> {
    Ok("0".repeat(alloc, count)?)
}

#[test]
fn the_longest_line_is_read(rt: HostRuntime) -> Result<(), Fail> {
    let longest = zeros(rt.alloc(), 16_384)?;
    holds(
        writes(rt.alloc(), longest.as_str(), "447700900123 05000160\n"),
        "the longest",
    )?;
    let longer = zeros(rt.alloc(), 16_385)?;
    holds(bad_line(rt.alloc(), longer.as_str()) == 1, "one digit more")
}
