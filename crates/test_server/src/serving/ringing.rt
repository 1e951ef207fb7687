//! The bell of a seat, and the keeper's.
ghost use Rattle.std.specs.Prelude.{◌≡◌, []};
ghost use Rattle.sms_seats.specs.Seats.{put_by};

use crate::rows::holds;
use sms_centre_spec::jobs::{Job, Reply};
use sms_hub::Hub;
use sms_seats::{Seat, SeatQueues};
use std::sync::Wait;
use std::test::Fail;
use std::thread::join;
use std::time::Duration;

// Longer than a test may take.
fn too_long() -> Duration {
    Duration::from_secs(3600)
}

// Whichever comes first, the ring is heard.
#[test]
fn a_ring_wakes_a_seat(rt: HostRuntime) -> Result<(), Fail> {
    for _ in 0..100 {
        let (_keeper, seat, _other) = Hub::new::<Job, Reply>(rt.alloc(), 1)?;
        let bell = seat.bell()?;
        join(&rt, || bell.ring(), || seat.wait(&rt, too_long()));
    }
    Ok(())
}

#[test]
fn a_ring_before_the_wait_is_kept(rt: HostRuntime) -> Result<(), Fail> {
    let (_keeper, seat, _other) = Hub::new::<Job, Reply>(rt.alloc(), 1)?;
    seat.bell()?.ring();
    seat.wait(&rt, too_long());
    Ok(())
}

fn wakes_by_a_job<R: Wait>(rt: &R, queues: &SeatQueues<u32, u32>, seat: &mut Seat<u32, u32>) -> bool
    requires { put_by seat.old ≡ [] }
{
    let put = seat.put(rt, 7) == Ok(());
    queues.wait(rt, too_long());
    put
}

#[test]
fn a_job_wakes_the_keeper(rt: HostRuntime) -> Result<(), Fail> {
    let mut queues = SeatQueues::open(rt.alloc(), 1)?;
    let mut seat = queues.add_seat(rt.alloc())?;
    holds(wakes_by_a_job(&rt, &queues, &mut seat), "the job")
}

fn wakes_by_an_end_mark<R: Wait>(
    rt: &R,
    queues: &SeatQueues<u32, u32>,
    seat: &mut Seat<u32, u32>,
) -> bool
    requires { put_by seat.old ≡ [] }
{
    let put = seat.try_close(rt);
    queues.wait(rt, too_long());
    put
}

#[test]
fn an_end_mark_wakes_the_keeper(rt: HostRuntime) -> Result<(), Fail> {
    let mut queues = SeatQueues::open(rt.alloc(), 1)?;
    let mut seat = queues.add_seat(rt.alloc())?;
    holds(
        wakes_by_an_end_mark(&rt, &queues, &mut seat),
        "the end mark",
    )
}
