//! Terms of the keeper in one thread: what two seats put before, what a recorder is told, and the answers that are taken.
ghost use Rattle.std.specs.Prelude.{◌≡◌, [], false};
ghost use Rattle.sms_seats.specs.Jobs.{has_end};
ghost use Rattle.sms_seats.specs.Seats.{put_by};
ghost use Rattle.sms_keeper.specs.Keeping.{IsSameHub};

use crate::examples::LEAP_DAY;
use crate::hub::clocks::Moving;
use crate::hub::counter::{Counter, Open};
use crate::hub::reply::Reply;
use crate::hub::told::{Event, Told};
use crate::rows::holds;
use sms_base::Moment;
use sms_hub::{End, Hub, Keeper, Seat};
use std::alloc::Global;
use std::sync::Wait;
use std::test::Fail;

/// A term at an open gate.
pub(crate) fn term<R: Wait>(
    rt: &R,
    alloc: Global,
    keeper: &mut Keeper<u32, Reply>,
    machine: &mut Counter,
    clock: &Moving,
    told: &mut Told,
) -> End
    ensures { IsSameHub keeper.old keeper.new }
{
    keeper.run(rt, alloc, machine, &Open, clock, told)
}

// What is so of what was told.
enum Wanted {
    // All items, in order.
    Items(&'static [Event]),
    // So many jobs, in groups of so many items.
    Groups(usize, &'static [usize]),
    // So many jobs were refused, which add up to so much.
    Refused(usize, u64),
}

// A term: the jobs of both seats, how often the clock shows a moment, the errands that the machine has, and the place of the
// job with whose group it refuses the commit; how the term ends, what is told, and the answers of the first seat.
struct Row {
    name: &'static str,
    first: &'static [u32],
    second: &'static [u32],
    times: u64,
    errands: u64,
    refuses_commit: u64,
    end: End,
    told: Wanted,
    answers: &'static [Reply],
}

const TERMS: &[Row] = &[
    // The keeper looks at the clock before each job and each end mark, and once more where nothing waits. The clock shows a
    // later moment at every second look, so that a tick precedes each of them.
    Row {
        name: "a tick precedes a job where the clock moved",
        first: &[1],
        second: &[2],
        times: 2,
        errands: 0,
        refuses_commit: 0,
        end: End::AllClosed,
        told: Wanted::Items(&[
            Event::Tick(0),
            Event::Job,
            Event::Tick(1),
            Event::Job,
            Event::Tick(2),
            Event::Tick(3),
            Event::Tick(4),
        ]),
        answers: &[Reply::Sum(1)],
    },
    Row {
        name: "an errand precedes the jobs that wait",
        first: &[1],
        second: &[2],
        times: 0,
        errands: 2,
        refuses_commit: 0,
        end: End::AllClosed,
        told: Wanted::Items(&[
            Event::Tick(0),
            Event::Errand,
            Event::Errand,
            Event::Job,
            Event::Job,
        ]),
        answers: &[Reply::Sum(1)],
    },
    // Three jobs in one group, whose commit is refused with the second of them.
    Row {
        name: "each item of a refused group is refused",
        first: &[1, 2, 3],
        second: &[],
        times: 0,
        errands: 0,
        refuses_commit: 2,
        end: End::Refused,
        told: Wanted::Refused(3, 6),
        answers: &[Reply::Failed, Reply::Failed, Reply::Failed],
    },
    // What waits is one group, with the tick before it, and 64 items are the most. An end mark is no item, but has a place.
    Row {
        name: "0 jobs",
        first: &[0; 0],
        second: &[],
        times: 0,
        errands: 0,
        refuses_commit: 0,
        end: End::AllClosed,
        told: Wanted::Groups(0, &[1]),
        answers: &[],
    },
    Row {
        name: "1 jobs",
        first: &[0; 1],
        second: &[],
        times: 0,
        errands: 0,
        refuses_commit: 0,
        end: End::AllClosed,
        told: Wanted::Groups(1, &[2]),
        answers: &[],
    },
    Row {
        name: "61 jobs",
        first: &[0; 61],
        second: &[],
        times: 0,
        errands: 0,
        refuses_commit: 0,
        end: End::AllClosed,
        told: Wanted::Groups(61, &[62]),
        answers: &[],
    },
    Row {
        name: "63 jobs",
        first: &[0; 63],
        second: &[],
        times: 0,
        errands: 0,
        refuses_commit: 0,
        end: End::AllClosed,
        told: Wanted::Groups(63, &[64]),
        answers: &[],
    },
    Row {
        name: "64 jobs",
        first: &[0; 64],
        second: &[],
        times: 0,
        errands: 0,
        refuses_commit: 0,
        end: End::AllClosed,
        told: Wanted::Groups(64, &[64, 1]),
        answers: &[],
    },
    Row {
        name: "200 jobs",
        first: &[0; 200],
        second: &[],
        times: 0,
        errands: 0,
        refuses_commit: 0,
        end: End::AllClosed,
        told: Wanted::Groups(200, &[64, 64, 64, 9]),
        answers: &[],
    },
];

/// Puts jobs, each of which is taken.
pub(crate) fn puts<R: Wait>(rt: &R, seat: &mut Seat<u32, Reply>, jobs: &[u32]) -> bool
    requires { has_end (put_by seat.old) ≡ false }
    ensures { has_end (put_by seat.new) ≡ false }
{
    for job in jobs {
        if seat.put(rt, *job) != Ok(()) {
            return false;
        }
    }
    true
}

// Whether the answers of a seat are these, and no others.
fn takes<R: Wait>(rt: &R, seat: &mut Seat<u32, Reply>, answers: &[Reply]) -> bool {
    for answer in answers {
        if seat.take_answer(rt) != Some(*answer) {
            return false;
        }
    }
    seat.take_answer(rt).is_none()
}

fn is_told(told: &Told, wanted: &Wanted) -> bool {
    match wanted {
        Wanted::Items(events) => told.events.as_slice() == *events,
        Wanted::Groups(jobs, groups) => told.jobs == *jobs && told.groups.as_slice() == *groups,
        Wanted::Refused(refused, missing) => told.refused == *refused && told.missing == *missing,
    }
}

// What a machine keeps whose group was refused is nothing.
fn keeps(machine: &Counter, row: &Row) -> bool {
    row.refuses_commit == 0 || machine.kept == 0
}

fn ends<R: Wait>(
    rt: &R,
    alloc: Global,
    keeper: &mut Keeper<u32, Reply>,
    clock: &Moving,
    row: &Row,
) -> bool {
    let mut machine = Counter::new(0, true);
    machine.errands = row.errands;
    machine.refuses_commit = row.refuses_commit;
    let mut told = Told::new(alloc);
    let end = term(rt, alloc, keeper, &mut machine, clock, &mut told);
    end == row.end && is_told(&told, &row.told) && keeps(&machine, row)
}

// Both seats put their jobs and close, and the term ends so.
fn goes<R: Wait>(
    rt: &R,
    alloc: Global,
    keeper: &mut Keeper<u32, Reply>,
    a: &mut Seat<u32, Reply>,
    b: &mut Seat<u32, Reply>,
    start: Moment,
    row: &Row,
) -> bool
    requires { (put_by a.old ≡ []) × (put_by b.old ≡ []) }
{
    let first = puts(rt, a, row.first);
    let second = puts(rt, b, row.second);
    let closed = a.try_close(rt) && b.try_close(rt);
    let clock = Moving::new(start, row.times);
    let ended = ends(rt, alloc, keeper, &clock, row);
    first && second && closed && ended && takes(rt, a, row.answers)
}

fn plays<R: Wait>(rt: &R, alloc: Global, start: Moment, row: &Row) -> bool {
    match Hub::new::<u32, Reply>(alloc, 256) {
        Ok((mut keeper, mut a, mut b)) => {
            goes(rt, alloc, &mut keeper, &mut a, &mut b, start, row)
        }
        Err(_) => false,
    }
}

#[test]
fn terms_go_so(rt: HostRuntime) -> Result<(), Fail> {
    let start = Moment::from_seconds(LEAP_DAY)?;
    for row in TERMS {
        holds(plays(&rt, rt.alloc(), start, row), row.name)?;
    }
    Ok(())
}
