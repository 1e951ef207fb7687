//! The time of a run.
ghost use Rattle.std.specs.Prelude.{◌≡◌, ◌+◌, ◌-◌, ◌/◌, min, max};

use sms_base::Moment;
use sms_keeper::Clock;
use std::time::{Clock as SystemClock, Duration};

// The thousandths of a second of a reading, as far as a word counts them.
fn thousandths_of(reading: Duration) -> u64 {
    reading
        .as_secs()
        .saturating_mul(1000)
        .saturating_add(u64::from(reading.subsec_millis()))
}

/// The thousandths of a second that the monotonic clock says; 0 where it can't be read.
pub fn milliseconds<R: SystemClock>(rt: &R) -> u64 {
    match rt.monotonic() {
        Ok(since) => thousandths_of(since),
        Err(_) => 0,
    }
}

// The thousandths from one reading to a later one, with those that had gone by before.
fn thousandths_since(began: u64, now: u64, before: u64) -> u64
    ensures { result ≡ min ((now - began) + before) 18446744073709551615 }
{
    now.saturating_sub(began).saturating_add(before)
}

// The moment so many thousandths of a second behind the beginning of this one.
fn moment_after(start: Moment, thousandths: u64) -> Moment
    ensures { result ≡ min (start + thousandths / 1000) 4102444799 }
{
    start.plus(thousandths / 1000)
}

fn later_of(one: Moment, other: Moment) -> Moment
    ensures { result ≡ max one other }
{
    if other > one { other } else { one }
}

/// The clock of the day and the monotonic one, read side by side.
#[derive(Clone, Copy)]
pub struct Clocks<R> {
    rt: R,
    /// The moment that the clock of the day showed.
    pub day: Moment,
    // The thousandths of a second that had gone by since.
    part: u64,
    // What the monotonic clock showed, in thousandths of a second.
    began: u64,
}

impl<R: SystemClock + Copy> Clocks<R> {
    /// Reads both clocks, where the clock of the day shows one of the years 2000 to 2099.
    pub fn read(rt: R) -> Option<Clocks<R>> {
        let day = rt.since_1970().ok()?;
        let began = rt.monotonic().ok()?;
        Some(Clocks {
            rt,
            day: Moment::from_seconds(day.as_secs()).ok()?,
            part: u64::from(day.subsec_millis()),
            began: thousandths_of(began),
        })
    }

    /// The clock of a run over rows whose newest moment is this one. It shows the time of day. Where the rows are ahead, it is ahead by as
    /// many seconds for the whole run.
    pub fn from(self, newest: Moment) -> RunClock<R>
        ensures start { result.start ≡ max self.day newest }
    {
        let Clocks {
            rt,
            day,
            part,
            began,
        } = self;
        RunClock {
            rt,
            start: later_of(day, newest),
            part,
            began,
        }
    }
}

/// The time of a run: the moment at its start, and what a monotonic clock says since, in thousandths of a second. So a jump of the clock
/// of the day changes nothing in a run.
#[derive(Clone, Copy)]
pub struct RunClock<R> {
    rt: R,
    /// The moment at its start.
    pub start: Moment,
    part: u64,
    began: u64,
}

impl<R: SystemClock> RunClock<R> {
    // The thousandths of a second since its first moment began. Where the monotonic clock can't be read, those at the start.
    fn gone(&self) -> u64 {
        match self.rt.monotonic() {
            Ok(now) => thousandths_since(self.began, thousandths_of(now), self.part),
            Err(_) => self.part,
        }
    }
}

impl<R: SystemClock> Clock for RunClock<R> {
    ghost use Rattle.std.specs.Prelude.{◌≤◌};

    // Not before the start, and not behind the last moment that there is.
    ghost reads = { λ c m. c.start ≤ m };

    fn now(&self) -> Moment {
        // The clause speaks of its range.
        let _range = self.start.seconds();
        moment_after(self.start, self.gone())
    }
}
