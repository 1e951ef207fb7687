//! The times of SMPP.
ghost use Rattle.jiff_core.specs.Calendar.{IsBetween, IsWithin};
ghost use Rattle.std.specs.Prelude.{pos, ◌-ℤ◌, ◌≡◌, ◌+◌, ◌<◌, ◌≤◌, ℕ, length, IfOk, IfSome, Ok};
ghost use Rattle.sms_base.specs.SmppTime.{AreNumbers, IsSmppTime, after_length, decimal_in, numbers_in, pair_at, local_in, smpp_time_in, time_at};
ghost use Rattle.sms_base.specs.TimeStamp.{zone_seconds};

use crate::clock::clock_seconds;
use crate::moment::Moment;
use thiserror::Error;

/// Why a text is no time of SMPP.
#[derive(Clone, Copy, Debug, PartialEq, Eq, Error)]
pub enum SmppTimeError {
    /// No such time, or none that is in range.
    #[error("no such time")]
    BadTime,
}

impl SmppTimeError {
    ghost use Rattle.sms_base.specs.FaultCodes.{smpp_time_code};

    /// The code of the fault in reports, M2.
    pub fn code(self) -> &'static str
        ensures { result.now ≡ smpp_time_code self }
    {
        match self {
            SmppTimeError::BadTime => "M2",
        }
    }
}

// The numbers that the digits of a time spell, but for its tenth of a second.
#[derive(Clone, Copy)]
struct SpelledTime {
    year: u8,
    month: u8,
    day: u8,
    hour: u8,
    minute: u8,
    second: u8,
    quarters: u8,
}

impl Moment {
    /// The moment of a time of SMPP (SMPP v3.4 7.1.1), the sixteen characters `YYMMDDhhmmsstnnp`.
    ///
    /// With `+` or `-` it is a clock's local time of the years 2000 to 2099. The clock is `nn` (00 to 48) quarter hours
    /// ahead of or behind UTC. With `R` it is that length after `now`, a year as 365 days and a month as 30, but never
    /// past the last moment. The tenth `t` isn't used.
    pub fn from_smpp(octets: &[u8], now: Moment) -> Result<Moment, SmppTimeError>
        // What is read is a time of that moment.
        ensures found { IfOk result (λ m. IsSmppTime octets.now now m) }
        // What is a time of a moment is read.
        ensures only { (m : ℕ) → IsSmppTime octets.now now m → result ≡ Ok m }
    {
        match time_of(octets, now) {
            Some(moment) => Ok(moment),
            None => Err(SmppTimeError::BadTime),
        }
    }
}

#[tactic(auto, unfolding(crate::specs::SmppTime::smpp_time_in))]
fn time_of(octets: &[u8], now: Moment) -> Option<Moment>
    ensures { result ≡ smpp_time_in octets.now now }
{
    if octets.len() != 16 {
        return None;
    }
    let numbers = numbers_of(octets)?;
    of_numbers(numbers, octets[15], now)
}

// The moment that the numbers are of, by the last character.
#[tactic(auto, unfolding(crate::specs::SmppTime::time_at))]
fn of_numbers(numbers: SpelledTime, sign: u8, now: Moment) -> Option<Moment>
    requires { AreNumbers numbers }
    ensures { result ≡ time_at numbers sign now }
{
    match sign {
        b'+' => local(numbers, false),
        b'-' => local(numbers, true),
        b'R' => Some(later(numbers, now)),
        _ => None,
    }
}

// The moment that is so much later, or the last one.
fn later(numbers: SpelledTime, now: Moment) -> Moment
    requires { AreNumbers numbers }
    ensures { result ≡ after_length numbers now }
{
    let days = 365 * u64::from(numbers.year)
        + 30 * u64::from(numbers.month)
        + u64::from(numbers.day);
    let seconds = 86_400 * days
        + 3_600 * u64::from(numbers.hour)
        + 60 * u64::from(numbers.minute)
        + u64::from(numbers.second);
    match Moment::from_seconds((now.seconds() + seconds).min(4_102_444_799)) {
        Ok(moment) => moment,
        Err(_) => unreachable!(),
    }
}

// The moment at which a clock shows the numbers.
#[tactic(auto, unfolding(crate::specs::SmppTime::local_in))]
fn local(numbers: SpelledTime, is_behind: bool) -> Option<Moment>
    requires { AreNumbers numbers }
    ensures { result ≡ local_in numbers is_behind }
{
    if numbers.quarters > 48 {
        return None;
    }
    let local = clock_seconds(
        numbers.year,
        numbers.month,
        numbers.day,
        numbers.hour,
        numbers.minute,
        numbers.second,
    )?;
    Moment::behind(local, zone(numbers.quarters, is_behind))
}

// The seconds that a clock is ahead of UTC.
fn zone(quarters: u8, is_behind: bool) -> i64
    requires { quarters ≤ 48 }
    ensures value { result ≡ zone_seconds quarters is_behind }
    ensures range { IsWithin 72000 result }
{
    let seconds = 900 * i64::from(quarters);
    if is_behind { -seconds } else { seconds }
}

// The numbers that sixteen characters begin with.
#[tactic(auto, unfolding(crate::specs::SmppTime::numbers_in))]
fn numbers_of(octets: &[u8]) -> Option<SpelledTime>
    requires { length octets.now ≡ 16 }
    ensures value { result ≡ numbers_in octets.now }
    ensures range { IfSome result (λ n. AreNumbers n) }
{
    let year = pair_of(octets[0], octets[1])?;
    let month = pair_of(octets[2], octets[3])?;
    let day = pair_of(octets[4], octets[5])?;
    let hour = pair_of(octets[6], octets[7])?;
    let minute = pair_of(octets[8], octets[9])?;
    let second = pair_of(octets[10], octets[11])?;
    let _tenth = decimal(octets[12])?;
    let quarters = pair_of(octets[13], octets[14])?;
    Some(SpelledTime {
        year,
        month,
        day,
        hour,
        minute,
        second,
        quarters,
    })
}

// The number of two digits.
#[tactic(auto, unfolding(crate::specs::SmppTime::pair_at))]
fn pair_of(tens: u8, units: u8) -> Option<u8>
    ensures value { result ≡ pair_at tens units }
    ensures range { IfSome result (λ number. number < 100) }
{
    let tens = decimal(tens)?;
    let units = decimal(units)?;
    Some(10 * tens + units)
}

// The value of a digit.
fn decimal(octet: u8) -> Option<u8>
    ensures value { result ≡ decimal_in octet }
    ensures range { IfSome result (λ digit. digit < 10) }
{
    match octet {
        b'0'..=b'9' => Some(octet - b'0'),
        _ => None,
    }
}
