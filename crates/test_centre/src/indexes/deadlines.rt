//! Deadlines are added in any order, and are found when their moment is reached.
use crate::indexes::names::{at, message};
use crate::rows::failed_at;
use sms_rows::expiry::{Deadline, Deadlines};
use std::alloc::Global;
use std::test::Fail;

// A step of a course of deadlines.
#[derive(Clone, Copy)]
enum Step {
    // At so many seconds that message is to go.
    Puts(u32, u32),
    // There is memory for a thousand more.
    Grows,
    // That message goes first.
    First(u64),
    // Of the first message nothing is known any more.
    Drops,
    // These messages are past after so many seconds.
    Past(u32, &'static [u64]),
}

const STEPS: &[Step] = &[
    Step::Puts(30, 1),
    Step::Puts(10, 2),
    Step::Puts(20, 3),
    Step::Grows,
    Step::First(2),
    Step::Past(9, &[]),
    Step::Past(20, &[2, 3]),
    Step::Drops,
    Step::First(3),
];

fn deadline(seconds: u32, number: u32) -> Option<Deadline> {
    Some(Deadline {
        limit: at(seconds)?,
        id: message(number)?,
    })
}

fn puts(deadlines: &mut Deadlines, seconds: u32, number: u32) -> bool {
    match deadline(seconds, number) {
        Some(deadline) => deadlines.push(deadline).is_ok(),
        None => false,
    }
}

fn grows(deadlines: &mut Deadlines, alloc: Global) -> bool {
    match deadlines.make_reserve(alloc, 1_000) {
        Ok(reserve) => {
            deadlines.use_reserve(reserve);
            true
        }
        Err(_) => false,
    }
}

fn first_number(deadlines: &Deadlines) -> u64 {
    match deadlines.first() {
        Some(deadline) => deadline.id.number(),
        None => 0,
    }
}

fn are_past(deadlines: &Deadlines, alloc: Global, seconds: u32, numbers: &[u64]) -> bool {
    let Some(now) = at(seconds) else {
        return false;
    };
    match deadlines.past(alloc, now) {
        Ok(past) => past.as_slice() == numbers,
        Err(_) => false,
    }
}

fn drops(deadlines: &mut Deadlines) -> bool {
    deadlines.drop_first();
    true
}

fn goes(deadlines: &mut Deadlines, alloc: Global, step: &Step) -> bool {
    match step {
        Step::Puts(seconds, number) => puts(deadlines, *seconds, *number),
        Step::Grows => grows(deadlines, alloc),
        Step::First(number) => first_number(deadlines) == *number,
        Step::Drops => drops(deadlines),
        Step::Past(seconds, numbers) => are_past(deadlines, alloc, *seconds, numbers),
    }
}

fn go(deadlines: &mut Deadlines, alloc: Global) -> Result<(), Fail> {
    for (at, step) in STEPS.iter().enumerate() {
        if !goes(deadlines, alloc, step) {
            return Err(failed_at("deadlines", at));
        }
    }
    Ok(())
}

#[test]
fn deadlines_come_and_go(rt: HostRuntime) -> Result<(), Fail> {
    let mut deadlines = Deadlines::new(rt.alloc());
    go(&mut deadlines, rt.alloc())
}
