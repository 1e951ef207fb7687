//! Runs over octets in place of a socket, by a clock that moves: what a handset takes and answers, and what it sends again as time passes.
use crate::handset_runs::machine::{moving_clock, number, with_machine};
use crate::rows::holds;
use sms_handset::machine::HandsetMachine;
use sms_handset_link::{RunEnd, run_handset};
use sms_store_memory::handset::MemoryKeep;
use std::alloc::Global;
use std::io::{self, ErrorKind, Read};
use std::test::Fail;

// RP-DATA with a DELIVER of `hello`, in CP-DATA (3GPP TS 24.011 7), behind its length.
const ARRIVES: &[u8] =
    b"\x00\x27\x09\x01\x24\x01\x00\x07\x91\x44\x77\x00\x09\x99\x99\x00\x18\x24\x0C\x91\x44\x77\x00\x09\x10\x00\x00\x00\x42\x20\x92\x32\x95\x85\x00\x05\xE8\x32\x9B\xFD\x06";

// The same, and the CP-ACK of its answer.
const ARRIVES_AND_ACKNOWLEDGES: &[u8] =
    b"\x00\x27\x09\x01\x24\x01\x00\x07\x91\x44\x77\x00\x09\x99\x99\x00\x18\x24\x0C\x91\x44\x77\x00\x09\x10\x00\x00\x00\x42\x20\x92\x32\x95\x85\x00\x05\xE8\x32\x9B\xFD\x06\x00\x02\x09\x04";

// The digits of the handset; then CP-ACK, and RP-ACK with a DELIVER-REPORT in CP-DATA.
const ONCE: &[u8] =
    b"\x00\x0C447700900456\x00\x02\x89\x04\x00\x09\x89\x01\x06\x02\x00\x41\x02\x00\x00";

// Nothing acknowledges the CP-DATA, so it is sent again each time that TC1* ends, twice at most (3GPP TS 24.011 5.3.2.1).
const THRICE: &[u8] =
    b"\x00\x0C447700900456\x00\x02\x89\x04\x00\x09\x89\x01\x06\x02\x00\x41\x02\x00\x00\x00\x09\x89\x01\x06\x02\x00\x41\x02\x00\x00\x00\x09\x89\x01\x06\x02\x00\x41\x02\x00\x00";

// With a secret a space and it are behind the digits.
const SECRETLY: &[u8] =
    b"\x00\x16447700900456 Pa55word!\x00\x02\x89\x04\x00\x09\x89\x01\x06\x02\x00\x41\x02\x00\x00";

// What arrives, for how many reads the link is silent behind it, by how many seconds each look at the clock moves it, the secret of
// the link, and what the run writes on it.
#[derive(Clone, Copy)]
struct Course {
    name: &'static str,
    arrives: &'static [u8],
    pauses: u32,
    seconds: u64,
    secret: Option<&'static [u8]>,
    leaves: &'static [u8],
}

const COURSES: &[Course] = &[
    Course {
        name: "a message is taken and answered",
        arrives: ARRIVES_AND_ACKNOWLEDGES,
        pauses: 0,
        seconds: 0,
        secret: None,
        leaves: ONCE,
    },
    Course {
        name: "a message is taken over a link with a secret",
        arrives: ARRIVES_AND_ACKNOWLEDGES,
        pauses: 0,
        seconds: 0,
        secret: Some(b"Pa55word!"),
        leaves: SECRETLY,
    },
    Course {
        name: "no time passes",
        arrives: ARRIVES,
        pauses: 5,
        seconds: 0,
        secret: None,
        leaves: ONCE,
    },
    Course {
        name: "time passes",
        arrives: ARRIVES,
        pauses: 5,
        seconds: 11,
        secret: None,
        leaves: THRICE,
    },
];

// Gives its octets, nothing for so many reads, and then the end of the link.
#[derive(Drop)]
struct Pausing<'a> {
    octets: &'a [u8],
    pauses: u32,
}

impl Read for Pausing<'_> {
    fn read(&mut self, buf: &mut [u8]) -> io::Result<usize> {
        if !self.octets.is_empty() || self.pauses == 0 {
            return self.octets.read(buf);
        }
        self.pauses -= 1;
        Err(io::Error::from(ErrorKind::WouldBlock))
    }
}

// Whether the run is done, and writes those octets.
fn writes(
    alloc: Global,
    machine: &mut HandsetMachine<MemoryKeep>,
    course: &Course,
) -> Result<(), Fail> {
    let number = number()?;
    let clock = moving_clock(course.seconds)?;
    let mut arriving = Pausing {
        octets: course.arrives,
        pauses: course.pauses,
    };
    let mut leaving: Vec<u8> = Vec::new(alloc);
    let mut answers: Vec<u8> = Vec::new(alloc);
    let end = run_handset(
        alloc,
        machine,
        &number,
        course.secret,
        &[],
        &mut arriving,
        &mut leaving,
        &mut answers,
        &clock,
        2,
    );
    holds(matches!(end, Ok(RunEnd::Done)), course.name)?;
    holds(leaving.as_slice() == course.leaves, course.name)
}

fn goes(
    alloc: Global,
    machine: &mut HandsetMachine<MemoryKeep>,
    course: &Course,
) -> Result<(), Fail> {
    writes(alloc, machine, course)?;
    holds(
        machine.handset().inbox().len() == 1,
        "one entry in the inbox",
    )
}

fn plays(alloc: Global, course: &Course) -> Result<(), Fail> {
    with_machine(alloc, |machine: &mut HandsetMachine<MemoryKeep>| {
        goes(alloc, machine, course)
    })
}

#[test]
fn runs_go_as_told(rt: HostRuntime) -> Result<(), Fail> {
    for course in COURSES {
        plays(rt.alloc(), course)?;
    }
    Ok(())
}
