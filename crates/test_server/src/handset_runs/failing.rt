//! Runs over links and answers that fail at one of their calls.
use crate::handset_runs::machine::{clock, number, with_machine};
use crate::rows::holds;
use crate::server::failing::{FailingReader, FailingWriter};
use sms_handset::machine::HandsetMachine;
use sms_handset_link::{RunEnd, RunError, run_handset};
use sms_script::owner::OwnersAct;
use sms_store_memory::handset::MemoryKeep;
use std::alloc::Global;
use std::io::ErrorKind;
use std::test::Fail;

// The number as the first frame, behind its length.
const GREETING: &[u8] = b"\x00\x0C447700900456";

// The answer that there is no such entry.
const NO_ENTRY: &[u8] = b"H2\n";

#[derive(Clone, Copy, PartialEq, Eq)]
enum Ended {
    Done,
    Broken,
    Answers(ErrorKind),
    Otherwise,
}

fn end_of(end: Result<RunEnd, RunError>) -> Ended {
    match end {
        Ok(RunEnd::Done) => Ended::Done,
        Ok(RunEnd::Broken) => Ended::Broken,
        Err(RunError::Answers(error)) => Ended::Answers(error.kind()),
        Err(_) => Ended::Otherwise,
    }
}

// Which calls of a run fail, counted from 1: writes to the link and of answers, and the first read, by its kind.
#[derive(Clone, Copy)]
struct Failing {
    write: usize,
    answer: usize,
    read: Option<ErrorKind>,
}

const NOTHING: Failing = Failing {
    write: 0,
    answer: 0,
    read: None,
};

// The ends of a run.
#[derive(Drop)]
struct Run<'a> {
    reader: FailingReader<'a>,
    link: FailingWriter,
    answers: FailingWriter,
}

fn run_of(alloc: Global, failing: Failing) -> Run<'static> {
    Run {
        reader: FailingReader {
            octets: &[],
            calls: 0,
            fails_at: if failing.read.is_some() { 1 } else { 0 },
            kind: failing.read.unwrap_or(ErrorKind::Other),
        },
        link: FailingWriter {
            taken: Vec::new(alloc),
            calls: 0,
            fails_at: failing.write,
        },
        answers: FailingWriter {
            taken: Vec::new(alloc),
            calls: 0,
            fails_at: failing.answer,
        },
    }
}

// It deletes an entry that is not there, and then takes one frame.
fn run_over(
    alloc: Global,
    machine: &mut HandsetMachine<MemoryKeep>,
    run: &mut Run<'_>,
) -> Result<Ended, Fail> {
    let clock = clock()?;
    let number = number()?;
    let acts = [OwnersAct::Delete { entry: 1 }];
    Ok(end_of(run_handset(
        alloc,
        machine,
        &number,
        None,
        &acts,
        &mut run.reader,
        &mut run.link,
        &mut run.answers,
        &clock,
        1,
    )))
}

fn ends(alloc: Global, run: &mut Run<'_>) -> Result<Ended, Fail> {
    with_machine(alloc, |machine: &mut HandsetMachine<MemoryKeep>| {
        run_over(alloc, machine, run)
    })
}

// The run ends so. Where it is done it has made so many reads; else the link, or the answers, took so many octets before.
fn ends_so(
    alloc: Global,
    run: &mut Run<'_>,
    wanted: Ended,
    taken: usize,
    name: &str,
) -> Result<(), Fail> {
    let ended = ends(alloc, run)?;
    holds(ended == wanted, name)?;
    holds(
        match wanted {
            Ended::Answers(_) => NO_ENTRY.get(..taken) == Some(run.answers.taken.as_slice()),
            Ended::Broken => GREETING.get(..taken) == Some(run.link.taken.as_slice()),
            _ => run.reader.calls == taken,
        },
        "the octets before, or the reads",
    )
}

fn fails(
    alloc: Global,
    failing: Failing,
    wanted: Ended,
    taken: usize,
    name: &str,
) -> Result<(), Fail> {
    let mut run = run_of(alloc, failing);
    ends_so(alloc, &mut run, wanted, taken, name)
}

#[test]
fn a_link_breaks_at_a_write_that_fails(rt: HostRuntime) -> Result<(), Fail> {
    for taken in 0..GREETING.len() {
        let failing = Failing {
            write: taken.saturating_add(1),
            ..NOTHING
        };
        fails(
            rt.alloc(),
            failing,
            Ended::Broken,
            taken,
            "a write that fails",
        )?;
    }
    Ok(())
}

// A read that was interrupted lets time pass; the next one finds the end of the link. One that fails closes it.
const READS: &[(ErrorKind, usize)] = &[
    (ErrorKind::Interrupted, 2),
    (ErrorKind::ConnectionReset, 1),
];

#[test]
fn a_read_that_fails_closes_the_link(rt: HostRuntime) -> Result<(), Fail> {
    for (kind, reads) in READS {
        let failing = Failing {
            read: Some(*kind),
            ..NOTHING
        };
        fails(
            rt.alloc(),
            failing,
            Ended::Done,
            *reads,
            "a read that fails",
        )?;
    }
    Ok(())
}

#[test]
fn a_run_ends_at_an_answer_that_can_not_be_written(rt: HostRuntime) -> Result<(), Fail> {
    for taken in 0..NO_ENTRY.len() {
        let failing = Failing {
            answer: taken.saturating_add(1),
            ..NOTHING
        };
        let wanted = Ended::Answers(ErrorKind::BrokenPipe);
        fails(rt.alloc(), failing, wanted, taken, "an answer that fails")?;
    }
    Ok(())
}
