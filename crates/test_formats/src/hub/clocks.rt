//! A clock that moves.
use sms_base::Moment;
use sms_hub::Clock;
use std::sync::atomic::{AtomicU64, Ordering};

/// A clock that shows a moment so many times, and then one that is a second later. Where that is no time, it stands still.
#[derive(Drop)]
pub struct Moving {
    start: Moment,
    times: u64,
    looks: AtomicU64,
}

impl Moving {
    pub fn new(start: Moment, times: u64) -> Moving {
        Moving {
            start,
            times,
            looks: AtomicU64::new(0),
        }
    }
}

impl Clock for Moving {
    ghost use Rattle.std.specs.Prelude.{⊤};

    ghost reads = { λ clock moment. ⊤ };

    fn now(&self) -> Moment {
        if self.times == 0 {
            return self.start;
        }
        let looks = self.looks.fetch_add(1, Ordering::SeqCst);
        self.start.plus(looks / self.times)
    }
}
