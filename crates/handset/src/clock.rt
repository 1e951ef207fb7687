//! The clock of this machine.
use sms_base::Moment;
use sms_handset_link::Clock;
use std::time::SystemTime;

// The first second of the year 2000.
const FIRST_SECOND: u64 = 946_684_800;

/// The first moment that a handset knows.
pub(crate) fn first_moment() -> Moment {
    match Moment::from_seconds(FIRST_SECOND) {
        Ok(moment) => moment,
        Err(_) => unreachable!(),
    }
}

/// The clock of this machine. A handset's time never decreases, so a moment that the clock can't show may be the first
/// one.
#[derive(Drop)]
pub(crate) struct SystemClock<'a> {
    pub(crate) rt: &'a HostRuntime,
}

impl Clock for SystemClock<'_> {
    ghost use Rattle.std.specs.Prelude.{⊤};

    // Any moment: nothing is known of the machine's clock.
    ghost reads = { λ c m. ⊤ };

    fn now(&self) -> Moment {
        let Ok(now) = SystemTime::now(self.rt) else {
            return first_moment();
        };
        let Ok(since) = now.duration_since(SystemTime::UNIX_EPOCH) else {
            return first_moment();
        };
        match Moment::from_seconds(since.as_secs()) {
            Ok(moment) => moment,
            Err(_) => first_moment(),
        }
    }
}
