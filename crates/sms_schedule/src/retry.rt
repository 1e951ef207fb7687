//! When what failed is tried again.
ghost use Rattle.std.specs.Prelude.{◌≡◌};
ghost use Rattle.sms_centre_rows.specs.waiting.Retry.{retry_after as retry_after_of, retry_delay};

use sms_base::Moment;

// The seconds to wait behind an attempt.
fn retry_delay(attempts: u8) -> u64
    ensures { result ≡ retry_delay attempts }
{
    match attempts {
        0 | 1 => 60,
        2 => 300,
        3 => 900,
        _ => 3_600,
    }
}

/// When to try again what failed now, and has failed that many times. It is after 60 s, 300 s, 900 s, and from the
/// fourth time on 3,600 s, but never past the last moment.
pub fn retry_after(attempts: u8, now: Moment) -> Moment
    ensures { result ≡ retry_after_of attempts now }
{
    now.plus(retry_delay(attempts))
}
