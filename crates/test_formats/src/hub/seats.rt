//! Seats and the keeper in one thread, and beside a keeper that is held.
ghost use Rattle.std.specs.Prelude.{◌≡◌, [], false};
ghost use Rattle.sms_seats.specs.Jobs.{has_end};
ghost use Rattle.sms_seats.specs.Seats.{put_by};
ghost use Rattle.sms_keeper.specs.Keeping.{IsSameHub};
ghost use Rattle.sms_keeper.specs.Seating.{IsSeatOf};

use crate::examples::LEAP_DAY;
use crate::hub::clocks::Moving;
use crate::hub::counter::{Counter, Still};
use crate::hub::gates::Held;
use crate::hub::reply::Reply;
use crate::hub::terms::term;
use crate::hub::told::Told;
use crate::rows::holds;
use sms_base::Moment;
use sms_hub::{End, Hub, HubFault, Keeper, Seat};
use std::alloc::{AllocError, Global};
use std::sync::Wait;
use std::sync::atomic::{AtomicBool, Ordering};
use std::test::Fail;
use std::thread;
use std::thread::{Threads, join};
use std::time::{Clock, Duration};

// A term on a machine that refuses the job of that place, or none, ends so.
fn ends<R: Wait>(
    rt: &R,
    alloc: Global,
    keeper: &mut Keeper<u32, Reply>,
    clock: &Moving,
    refuses: u64,
    end: End,
) -> bool
    ensures { IsSameHub keeper.old keeper.new }
{
    let mut machine = Counter::new(refuses, true);
    let mut told = Told::new(alloc);
    term(rt, alloc, keeper, &mut machine, clock, &mut told) == end
}

// A put into the one slot, a job that is handed back, and a put once the keeper has popped.
fn put_and_back<R: Wait>(
    rt: &R,
    alloc: Global,
    keeper: &mut Keeper<u32, Reply>,
    a: &mut Seat<u32, Reply>,
    b: &mut Seat<u32, Reply>,
    clock: &Moving,
) -> bool
    requires { (put_by a.old ≡ []) × (put_by b.old ≡ []) }
{
    let first = a.put(rt, 7) == Ok(());
    let back = b.put(rt, 8) == Err(8);
    let refused = ends(rt, alloc, keeper, clock, 1, End::Refused);
    let told = a.take_answer(rt) == Some(Reply::Failed) && a.take_answer(rt).is_none();
    first && back && refused && told && b.put(rt, 9) == Ok(())
}

fn is_left(rest: Result<Vec<Reply>, AllocError>) -> bool {
    match rest {
        Ok(rest) => rest.as_slice() == [Reply::Sum(11)].as_slice(),
        Err(_) => false,
    }
}

// Two jobs of seat a, one of whose answers it takes, and one that it leaves: the keeper takes that back.
fn leaves<R: Wait>(
    rt: &R,
    alloc: Global,
    keeper: &mut Keeper<u32, Reply>,
    mut a: Seat<u32, Reply>,
    b: &mut Seat<u32, Reply>,
    clock: &Moving,
) -> bool
    requires { (put_by a ≡ []) × (put_by b.old ≡ []) × IsSeatOf keeper.old a }
{
    let put = a.put(rt, 5) == Ok(()) && a.put(rt, 6) == Ok(());
    a.close(rt);
    b.close(rt);
    let ended = ends(rt, alloc, keeper, clock, 0, End::AllClosed);
    a.wait(rt, Duration::from_millis(1));
    let taken = a.take_answer(rt) == Some(Reply::Sum(5));
    let numbers = (a.number(), b.number()) == (0, 1);
    is_left(keeper.take_back(rt, alloc, a)) && put && ended && taken && numbers
}

#[test]
fn jobs_are_handed_back_and_seats_taken_back(rt: HostRuntime) -> Result<(), Fail> {
    let clock = Moving::new(Moment::from_seconds(LEAP_DAY)?, 0);
    let (mut keeper, mut a, mut b) = Hub::new::<u32, Reply>(rt.alloc(), 1)?;
    holds(
        put_and_back(&rt, rt.alloc(), &mut keeper, &mut a, &mut b, &clock),
        "a job that is handed back",
    )?;
    let (mut keeper, a, mut b) = Hub::new::<u32, Reply>(rt.alloc(), 4)?;
    holds(
        leaves(&rt, rt.alloc(), &mut keeper, a, &mut b, &clock),
        "what a seat left",
    )
}

// Whether a flag is set within 10,000 turns of a millisecond.
fn is_set<R: Clock>(rt: &R, flag: &AtomicBool) -> bool {
    for _ in 0..10000 {
        if flag.load(Ordering::SeqCst) {
            return true;
        }
        thread::sleep(rt, Duration::from_millis(1));
    }
    false
}

// Whether a job is taken within 10,000 turns of a millisecond.
fn is_taken<R: Wait + Clock>(rt: &R, seat: &mut Seat<u32, Reply>, job: u32) -> bool
    requires { has_end (put_by seat.old) ≡ false }
    ensures { has_end (put_by seat.new) ≡ false }
{
    for _ in 0..10000 {
        if seat.put(rt, job) == Ok(()) {
            return true;
        }
        thread::sleep(rt, Duration::from_millis(1));
    }
    false
}

// Seat a's job is held at the gate; then seat b's is put; then the gate is opened. Nothing leaves before that.
fn go_on<R: Wait + Clock>(
    rt: &R,
    mut a: Seat<u32, Reply>,
    mut b: Seat<u32, Reply>,
    reached: &AtomicBool,
    opened: &AtomicBool,
) -> bool
    requires { (put_by a ≡ []) × (put_by b ≡ []) }
{
    let first = is_taken(rt, &mut a, 1);
    let held = is_set(rt, reached);
    let second = is_taken(rt, &mut b, 2);
    let early = a.take_answer(rt).is_some();
    opened.store(true, Ordering::SeqCst);
    a.close(rt);
    b.close(rt);
    first && held && second && !early
}

// Whether both seats go on, and the keeper behind them.
fn both_go_on<R: Threads + Wait + Clock + Sync>(
    rt: &R,
    alloc: Global,
    machine: &mut Counter,
    clock: &Still,
) -> bool {
    let Ok((mut keeper, a, b)) = Hub::new::<u32, Reply>(alloc, 2) else {
        return false;
    };
    let reached = AtomicBool::new(false);
    let opened = AtomicBool::new(false);
    let gate = Held {
        rt,
        reached: &reached,
        opened: &opened,
    };
    let mut told = Told::new(alloc);
    let (ended, went_on) = join(
        rt,
        || keeper.run(rt, alloc, machine, &gate, clock, &mut told) == End::AllClosed,
        || -> bool
            requires { (put_by a ≡ []) × (put_by b ≡ []) }
        { go_on(rt, a, b, &reached, &opened) },
    );
    ended && went_on
}

#[test]
fn a_seat_goes_on_while_the_keeper_is_held(rt: HostRuntime) -> Result<(), Fail> {
    let clock = Still(Moment::from_seconds(LEAP_DAY)?);
    let mut machine = Counter::new(0, true);
    holds(
        both_go_on(&rt, rt.alloc(), &mut machine, &clock),
        "both go on",
    )?;
    holds(machine.sum == 3, "the sum")
}

// How many seats a hub of so many slots is made with. It has 1 to 1,024 slots.
fn count_of(alloc: Global, slots: usize, seats: usize) -> Result<usize, HubFault> {
    if slots == 0 || slots > 1024 {
        return Err(HubFault::NoMemory);
    }
    let (_keeper, seats) = Hub::with_seats::<u32, Reply>(alloc, slots, seats)?;
    Ok(seats.len())
}

const HUBS: &[(usize, usize, Result<usize, HubFault>, &str)] = &[
    (1024, 32, Ok(32), "32 seats"),
    (1, 0, Err(HubFault::TooManySessions), "no seat"),
    (1, 33, Err(HubFault::TooManySessions), "33 seats"),
];

#[test]
fn a_hub_has_one_to_thirty_two_seats(rt: HostRuntime) -> Result<(), Fail> {
    for (slots, seats, count, name) in HUBS {
        holds(count_of(rt.alloc(), *slots, *seats) == *count, name)?;
    }
    Ok(())
}
