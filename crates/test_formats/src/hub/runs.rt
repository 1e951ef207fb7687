//! Runs of lists of jobs, each in a thread of its own.
use crate::examples::LEAP_DAY;
use crate::hub::counter::{Counter, Open, Still};
use crate::hub::reply::Reply;
use crate::hub::told::Told;
use crate::rows::holds;
use sms_base::Moment;
use sms_hub::{HubFault, many_sessions, two_sessions};
use std::alloc::{AllocError, Global};
use std::sync::Wait;
use std::test::Fail;
use std::thread::Threads;

fn failed_in(answers: &[Reply]) -> usize {
    let mut failed = 0usize;
    for answer in answers {
        if *answer == Reply::Failed {
            failed = failed.wrapping_add(1);
        }
    }
    failed
}

// The answers of two lists, or why there are none.
type Answers = Result<(Vec<Reply>, Vec<Reply>), HubFault>;

// Two lists of jobs, which add up to 36, on a machine that refuses one of them, or none.
fn end_of_two<R: Threads + Wait + Copy + Send + 'static>(
    rt: R,
    alloc: Global,
    machine: &mut Counter,
    clock: &Still,
    told: &mut Told,
) -> Answers {
    let a = Vec::from_slice(alloc, &[1u32, 2, 3])?;
    let b = Vec::from_slice(alloc, &[10u32, 20])?;
    two_sessions(rt, alloc, 1, machine, &Open, clock, told, a, b)
}

// Each of the five jobs is answered. All of them are in the sum, or the group of one was refused: then each job of that group is
// answered so, and the machine is opened once again.
fn are_run(run: &(Vec<Reply>, Vec<Reply>), machine: &Counter, told: &Told) -> bool {
    let refusals = if machine.refuses == 0 { 0u64 } else { 1 };
    let first = failed_in(run.0.as_slice());
    let second = failed_in(run.1.as_slice());
    run.0.len() == 3
        && run.1.len() == 2
        && told.jobs == 5
        && (told.refused == 0) == (refusals == 0)
        && first.wrapping_add(second) == told.refused
        && machine.sum.wrapping_add(told.missing) == 36
        && machine.kept == machine.sum
        && machine.opened == refusals
        && told.reopened as u64 == refusals
}

// Each of the five jobs was answered, in a group that was committed or with a refusal. What the machine keeps is what was not refused.
fn are_answered(machine: &Counter, told: &Told) -> bool {
    told.jobs == 5
        && told.outs == 5
        && told.refused >= 1
        && told.failed == 1
        && told.reopened == 0
        && machine.kept.wrapping_add(told.missing) == 36
}

// A machine that can't be opened again ends the run. The jobs are answered first, also those that no group took.
fn is_two(run: &Answers, machine: &Counter, told: &Told) -> bool {
    match run {
        Ok(run) => machine.opens && are_run(run, machine, told),
        Err(fault) => {
            !machine.opens && *fault == HubFault::MachineFailed && are_answered(machine, told)
        }
    }
}

fn runs_two<R: Threads + Wait + Copy + Send + 'static>(
    rt: R,
    alloc: Global,
    clock: &Still,
    refuses: u64,
    opens: bool,
) -> bool {
    let mut machine = Counter::new(refuses, opens);
    let mut told = Told::new(alloc);
    let run = end_of_two(rt, alloc, &mut machine, clock, &mut told);
    is_two(&run, &machine, &told)
}

// Which of five jobs the machine refuses, and whether it can be opened again then.
const MACHINES: &[(u64, bool, &str)] = &[
    (0, true, "no job is refused"),
    (1, true, "the first job is refused"),
    (2, true, "the second job is refused"),
    (3, true, "the third job is refused"),
    (4, true, "the fourth job is refused"),
    (5, true, "the fifth job is refused"),
    (1, false, "a machine that fails at its first job"),
    (3, false, "a machine that fails"),
    (5, false, "a machine that fails at its last job"),
];

// So many lists of two jobs each, 1 and 2, 3 and 4, ..
fn lists(alloc: Global, count: u32) -> Result<Vec<Vec<u32>>, AllocError> {
    let mut lists = Vec::new(alloc);
    for number in 0..count {
        let first = number.wrapping_mul(2).wrapping_add(1);
        lists.push(vec![in alloc; first, first.wrapping_add(1)]?)?;
    }
    Ok(lists)
}

fn are_pairs(lists: &[Vec<Reply>]) -> bool {
    for answers in lists {
        if answers.len() != 2 {
            return false;
        }
    }
    true
}

// Thirty-two lists are run, and no other number of them here.
fn are_many(run: &Result<Vec<Vec<Reply>>, HubFault>, told: &Told, count: u32, sum: u64) -> bool {
    match run {
        Ok(all) => {
            count == 32
                && sum == 2080
                && all.len() == 32
                && told.jobs == 64
                && are_pairs(all.as_slice())
        }
        Err(fault) => count != 32 && *fault == HubFault::TooManySessions,
    }
}

// The lists go through one slot.
fn runs_many<R: Threads + Wait + Copy + Send + 'static>(
    rt: R,
    alloc: Global,
    clock: &Still,
    count: u32,
) -> bool {
    let Ok(lists) = lists(alloc, count) else {
        return false;
    };
    let mut machine = Counter::new(0, true);
    let mut told = Told::new(alloc);
    let run = many_sessions(rt, alloc, 1, &mut machine, &Open, clock, &mut told, lists);
    are_many(&run, &told, count, machine.sum)
}

const COUNTS: &[(u32, &str)] = &[(32, "32 lists"), (0, "no list"), (33, "33 lists")];

#[test]
fn lists_are_run(rt: HostRuntime) -> Result<(), Fail> {
    let clock = Still(Moment::from_seconds(LEAP_DAY)?);
    for (refuses, opens, name) in MACHINES {
        holds(runs_two(rt, rt.alloc(), &clock, *refuses, *opens), name)?;
    }
    for (count, name) in COUNTS {
        holds(runs_many(rt, rt.alloc(), &clock, *count), name)?;
    }
    Ok(())
}
