//! The clock of a run.
use crate::rows::holds;
use sms_base::Moment;
use sms_keeper::Clock;
use smsc_server::Clocks;
use std::test::Fail;
use std::thread;
use std::time::{Clock as SystemClock, Duration};

// The newest moment of the rows: the first that there is, which is behind each clock, and 25 October 2096, which is ahead of it.
const BEHIND: u64 = 946_684_800;

const AHEAD: u64 = 4_002_000_000;

// A machine may hold a thread up so many seconds.
const HELD_UP: u64 = 60;

// It begins at that moment, and shows a later one once a second has gone by.
fn goes_on<R: SystemClock + Copy>(rt: R, newest: u64, begins: u64) -> Result<(), Fail> {
    let Some(clocks) = Clocks::read(rt) else {
        return Err(Fail::new("the clocks can be read"));
    };
    let clock = clocks.from(Moment::from_seconds(newest)?);
    let first = clock.now().seconds();
    thread::sleep(&rt, Duration::from_millis(1001));
    let second = clock.now().seconds();
    holds(
        begins <= first && first <= begins.saturating_add(HELD_UP),
        "it begins so",
    )?;
    holds(
        first < second && second <= first.saturating_add(HELD_UP),
        "it goes on",
    )
}

// The rows are behind the clock of the day, or ahead of it.
#[test]
fn the_clock_of_a_run_goes_on_from_the_later_moment(rt: HostRuntime) -> Result<(), Fail> {
    let day = rt.since_1970()?.as_secs();
    goes_on(rt, BEHIND, day)?;
    goes_on(rt, AHEAD, AHEAD)
}
