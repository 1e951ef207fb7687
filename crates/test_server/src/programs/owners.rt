//! Lines of an owner: read, and the first that is bad.
use crate::rows::holds;
use sms_script::ScriptFault;
use sms_script::owner::{OwnersAct, read_acts};
use std::alloc::{AllocError, Global};
use std::test::Fail;

// How many acts the lines ask, or the number of the bad line as one below zero.
fn judged(alloc: Global, text: &[u8]) -> i64 {
    match read_acts(alloc, text) {
        Ok(acts) => {
            let count: u8 = acts.len().try_into().unwrap_or(255);
            i64::from(count)
        }
        Err(ScriptFault::BadLine(line)) => {
            let line: u8 = line.try_into().unwrap_or(255);
            -i64::from(line)
        }
        Err(ScriptFault::NoMemory) => 1000,
    }
}

const TEXTS: &[(&[u8], i64)] = &[
    (b"", 0),
    (b"delete 3", 1),
    (b"delete 3\n", 1),
    (b"write 447700900456 1 68656C6C6F\ndelete 3\ndiscard 004", 3),
    (b"write 447700900456 0 -", 1),
    (b"write 447700900456 0 d0b6", 1),
    (b"delete 99999999999999999999999", 1),
    (b"\n", -1),
    (b"delete 3\n\ndelete 3", -2),
    (b"delete 3\ndelete", -2),
    (b"delete 3 4", -1),
    (b"delete x", -1),
    (b"delete  3", -1),
    (b"delete 3 ", -1),
    (b"delete 3\r\n", -1),
    (b"Delete 3", -1),
    (b"remove 3", -1),
    (b"write 447700900456 2 68", -1),
    (b"write 447700900456 1 6", -1),
    (b"write 447700900456 1 FF", -1),
    (b"write 447700900456 1 zz", -1),
    (b"write 447700900123 447700900456 1 68", -1),
];

#[test]
fn lines_are_judged(rt: HostRuntime) -> Result<(), Fail> {
    for (text, wanted) in TEXTS {
        holds(judged(rt.alloc(), text) == *wanted, "a text")?;
    }
    Ok(())
}

fn is_hello(alloc: Global, act: &OwnersAct<'_>) -> bool {
    match act {
        OwnersAct::Write { to, report, text } => match text.octets(alloc) {
            Ok(octets) => {
                to.as_slice() == b"447700900456".as_slice()
                    && *report
                    && octets.as_slice() == b"hello".as_slice()
            }
            Err(_) => false,
        },
        _ => false,
    }
}

fn says_all(alloc: Global, text: &[u8]) -> bool {
    match read_acts(alloc, text) {
        Ok(acts) => match acts.as_slice() {
            [
                write,
                OwnersAct::Delete { entry: 3 },
                OwnersAct::Discard { entry: 4 },
            ] => is_hello(alloc, write),
            _ => false,
        },
        Err(_) => false,
    }
}

// A deletion with leading zeros, in a line of so many octets, its end not counted.
fn long_line(alloc: Global, count: usize) -> Result<Vec<u8>, AllocError> {
    let mut line = Vec::new(alloc);
    line.extend_from_slice(b"delete ")?;
    for _ in 7..count {
        line.push(b'0')?;
    }
    Ok(line)
}

// Whether such a line is judged so.
fn is_judged(alloc: Global, count: usize, wanted: i64) -> bool {
    match long_line(alloc, count) {
        Ok(line) => judged(alloc, line.as_slice()) == wanted,
        Err(_) => false,
    }
}

fn many_lines(alloc: Global, count: usize) -> Result<Vec<u8>, AllocError> {
    let mut text = Vec::new(alloc);
    for _ in 0..count {
        text.extend_from_slice(b"delete 1\n")?;
    }
    Ok(text)
}

// The bad line of a text, if it has one.
fn bad_line(alloc: Global, text: &[u8]) -> Option<u64> {
    match read_acts(alloc, text) {
        Err(ScriptFault::BadLine(line)) => Some(line),
        _ => None,
    }
}

// Whether the bad line of so many lines is that.
fn is_bad_line(alloc: Global, count: usize, wanted: Option<u64>) -> bool {
    match many_lines(alloc, count) {
        Ok(text) => bad_line(alloc, text.as_slice()) == wanted,
        Err(_) => false,
    }
}

// A line has 16,384 octets at most, and there are 10,000 lines at most.
#[test]
fn acts_and_their_limits_are_read(rt: HostRuntime) -> Result<(), Fail> {
    let alloc = rt.alloc();
    holds(
        says_all(
            alloc,
            b"write 447700900456 1 68656c6C6F\ndelete 3\ndiscard 004\n",
        ),
        "three acts",
    )?;
    holds(is_judged(alloc, 16_384, 1), "the longest")?;
    holds(!is_judged(alloc, 16_385, 1), "one octet more")?;
    holds(is_bad_line(alloc, 10_000, None), "all lines")?;
    holds(is_bad_line(alloc, 10_001, Some(10_001)), "one line more")
}
