//! Lists of a submit and a query, each by a session in a thread of its own.
use crate::clock_and_gate::{Open, Still};
use crate::rows::holds;
use crate::service::centre::{QUERY, SUBMIT, accounts, clock, keep};
use sms_base::Octets;
use sms_centre_spec::CentreAnswer;
use sms_centre_spec::jobs::{Job, Reply};
use sms_hub::{many_sessions, two_sessions};
use sms_keeper::{Item, Machine, Recorder, Stimulus};
use sms_store_memory::centre::MemoryKeep;
use smsc_service::{CentreAccount, Cutoff, Forgetting, NoArchive, OrderDesk, serve_with};
use std::alloc::{AllocError, Global};
use std::sync::{Arc, Wait};
use std::test::Fail;
use std::thread::Threads;

// ---- lists

fn list(alloc: Global) -> Result<Vec<Job>, AllocError> {
    let mut jobs = Vec::new(alloc);
    jobs.push(Job::Submit {
        account: 0,
        pdu: Octets::copy_of(alloc, SUBMIT)?,
    })?;
    jobs.push(Job::Query {
        account: 0,
        pdu: Octets::copy_of(alloc, QUERY)?,
    })?;
    Ok(jobs)
}

fn lists(alloc: Global, count: usize) -> Result<Vec<Vec<Job>>, AllocError> {
    let mut lists = Vec::new(alloc);
    for _ in 0..count {
        lists.push(list(alloc)?)?;
    }
    Ok(lists)
}

// ---- what came of them

// The number that a session's submit was given, where its query was answered that the first message is on its way.
fn number_in(answers: &[Reply]) -> Option<u64> {
    match answers {
        [
            Reply::Answer(CentreAnswer::Submitted(own)),
            Reply::Answer(
                CentreAnswer::Queried {
                    id,
                    state: None,
                    ..
                },
            ),
        ] if id.number() == 1 => Some(own.number()),
        _ => None,
    }
}

fn has_number(answers: &[Vec<Reply>], number: u64) -> bool {
    answers
        .iter()
        .any(|session| number_in(session.as_slice()) == Some(number))
}

// As many sessions as numbers from 1 on, each of which one of them has.
fn are_numbers(answers: &[Vec<Reply>], count: usize) -> bool {
    if answers.len() != count {
        return false;
    }
    for number in 0..count as u64 {
        if !has_number(answers, number.saturating_add(1)) {
            return false;
        }
    }
    true
}

// ---- what was run

// How many jobs of each seat a recorder was told of, in the order of its list, and whether one was out of it.
#[derive(Drop)]
struct Met {
    counts: Vec<usize>,
    is_wrong: bool,
}

// How many jobs of the seat were met with this one, a submit first and then a query.
fn met_with(met: usize, job: &Job) -> Option<usize> {
    match (met, job) {
        (0, Job::Submit { .. }) => Some(1),
        (1, Job::Query { .. }) => Some(2),
        _ => None,
    }
}

impl Met {
    // Of so many seats.
    fn none(alloc: Global, seats: usize) -> Result<Met, AllocError> {
        let mut counts = Vec::new(alloc);
        for _ in 0..seats {
            counts.push(0usize)?;
        }
        Ok(Met {
            counts,
            is_wrong: false,
        })
    }

    fn next(&self, seat: usize, job: &Job) -> Option<usize> {
        met_with(*self.counts.get(seat)?, job)
    }

    fn meet(&mut self, seat: usize, job: &Job) {
        match self.next(seat, job) {
            Some(count) => {
                if seat < self.counts.len() {
                    self.counts[seat] = count;
                }
            }
            None => self.is_wrong = true,
        }
    }

    // Each list was run whole, in its order, and nothing else.
    fn is_whole(&self) -> bool {
        !self.is_wrong && self.counts.iter().all(|count| *count == 2)
    }
}

impl Recorder<Job, Reply> for Met {
    ghost use Rattle.std.specs.Prelude.{⊤};

    ghost has = { λ met items. ⊤ };

    fn record(&mut self, item: &Item<Job, Reply>) {
        match &item.stimulus {
            Stimulus::Job(seat, job) => self.meet(*seat, job),
            Stimulus::Tick(_) | Stimulus::Own(_) => (),
        }
    }

    fn end_group(&mut self, _count: usize) {}

    fn reopened(&mut self) {}

    fn failed(&mut self) {}
}

// ---- runs

// Over any machine, so that the proof need not look into the centre.
fn runs_many<R: Threads + Wait + Copy + Send + 'static, M: Machine<Job, Reply>>(
    rt: R,
    alloc: Global,
    machine: &mut M,
    clock: &Still,
    count: usize,
) -> bool {
    let Ok(lists) = lists(alloc, count) else {
        return false;
    };
    let Ok(mut met) = Met::none(alloc, count) else {
        return false;
    };
    match many_sessions(rt, alloc, 1, machine, &Open, clock, &mut met, lists) {
        Ok(answers) => met.is_whole() && are_numbers(answers.as_slice(), count),
        Err(_) => false,
    }
}

// The numbers 1 and 2.
fn are_two(first: &[Reply], second: &[Reply]) -> bool {
    let numbers = (number_in(first), number_in(second));
    numbers == (Some(1), Some(2)) || numbers == (Some(2), Some(1))
}

fn runs_two<R: Threads + Wait + Copy + Send + 'static, M: Machine<Job, Reply>>(
    rt: R,
    alloc: Global,
    machine: &mut M,
    clock: &Still,
) -> bool {
    let Ok(a) = list(alloc) else {
        return false;
    };
    let Ok(b) = list(alloc) else {
        return false;
    };
    let Ok(mut met) = Met::none(alloc, 2) else {
        return false;
    };
    match two_sessions(rt, alloc, 1, machine, &Open, clock, &mut met, a, b) {
        Ok((of_a, of_b)) => met.is_whole() && are_two(of_a.as_slice(), of_b.as_slice()),
        Err(_) => false,
    }
}

// How many sessions a run has, and by which call.
#[derive(Clone, Copy)]
enum Sessions {
    // Two, by `two_sessions`.
    Two,
    // So many, by `many_sessions`.
    Many(usize),
}

fn runs<R: Threads + Wait + Copy + Send + 'static, M: Machine<Job, Reply>>(
    rt: R,
    alloc: Global,
    machine: &mut M,
    clock: &Still,
    sessions: Sessions,
) -> bool {
    match sessions {
        Sessions::Two => runs_two(rt, alloc, machine, clock),
        Sessions::Many(count) => runs_many(rt, alloc, machine, clock, count),
    }
}

fn serves<R: Threads + Wait + Copy + Send + 'static>(
    rt: R,
    alloc: Global,
    store: MemoryKeep,
    accounts: Vec<CentreAccount>,
    clock: &Still,
    sessions: Sessions,
) -> bool {
    let Ok(cutoff) = Arc::new(alloc, Cutoff::new()) else {
        return false;
    };
    let Ok(desk) = Arc::new(alloc, OrderDesk::new()) else {
        return false;
    };
    let forgetting = Forgetting {
        keep: None,
        archive: NoArchive,
    };
    match serve_with(
        alloc,
        store,
        accounts,
        None,
        &cutoff,
        &desk,
        forgetting,
        |service| runs(rt, alloc, service, clock, sessions),
    ) {
        Ok((went, store, _)) => {
            drop(store);
            went
        }
        Err(_) => false,
    }
}

// All of a run have the numbers from 1 on.
const RUNS: &[(Sessions, &str)] = &[
    (Sessions::Two, "two sessions"),
    (Sessions::Many(2), "two of many sessions"),
    (Sessions::Many(32), "32 sessions"),
];

#[test]
fn sessions_have_the_numbers_from_1_on(rt: HostRuntime) -> Result<(), Fail> {
    let alloc = rt.alloc();
    let clock = clock()?;
    for (sessions, name) in RUNS {
        let all = accounts(alloc)?;
        let store = keep(alloc)?;
        holds(serves(rt, alloc, store, all, &clock, *sessions), name)?;
    }
    Ok(())
}
