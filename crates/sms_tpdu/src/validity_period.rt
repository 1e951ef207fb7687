//! Validity periods (3GPP TS 23.040 9.2.3.12).
ghost use Rattle.std.specs.Prelude.{◌≡◌, ◌<◌, ◌≤◌, ◌+◌, ◌++◌, ℕ, List, OnOk};
ghost use Rattle.sms_base.specs.Reading.{Takes};
ghost use Rattle.sms_tpdu.specs.TpduGrammar.{validity_format, IsWrittenValidityField};
ghost use Rattle.sms_tpdu.specs.ValidityTable.{relative_seconds, later, valid_until};
ghost use Rattle.sms_tpdu.specs.TpduReading.{validity_in, relative_in, absolute_in};

use crate::fault::TpduFault;
use crate::time_field::take_time;
use sms_base::{Cursor, Moment, Octets, earlier};
use std::alloc::AllocError;

/// How long a message is kept that asks for nothing else.
const DEFAULT_SECONDS: u64 = 172_800;

/// 63 weeks.
const LONGEST_SECONDS: u64 = 38_102_400;

/// The last second of 2099.
const LAST_SECOND: u64 = 4_102_444_799;

/// How long a message is to be kept.
#[derive(Clone, Copy, PartialEq, Eq)]
pub enum ValidityPeriod {
    /// As long as the service centre keeps any.
    NotPresent,
    /// By a table of lengths, 5 minutes to 63 weeks.
    Relative(u8),
    /// Until a moment.
    Absolute(Moment),
}

#[tactic(auto, unfolding(crate::specs::TpduReading::relative_in))]
fn take_relative(cursor: &mut Cursor<'_>) -> Result<ValidityPeriod, TpduFault>
    ensures { Takes (λ x. x) result cursor.new (relative_in cursor.old) }
{
    let period = cursor.octet(TpduFault::Truncated)?;
    Ok(ValidityPeriod::Relative(period))
}

#[tactic(auto, unfolding(crate::specs::TpduReading::absolute_in))]
fn take_absolute(cursor: &mut Cursor<'_>) -> Result<ValidityPeriod, TpduFault>
    ensures { Takes (λ x. x) result cursor.new (absolute_in cursor.old) }
{
    let limit = take_time(cursor)?;
    Ok(ValidityPeriod::Absolute(limit))
}

/// Takes a validity period in the format 0, 2 or 3.
#[tactic(auto, unfolding(crate::specs::TpduReading::validity_in))]
pub(crate) fn take_validity_period(
    cursor: &mut Cursor<'_>,
    format: u8,
) -> Result<ValidityPeriod, TpduFault>
    ensures { Takes (λ x. x) result cursor.new (validity_in format cursor.old) }
{
    match format {
        0 => Ok(ValidityPeriod::NotPresent),
        2 => take_relative(cursor),
        _ => take_absolute(cursor),
    }
}

/// The validity period format: 0 not present, 2 relative, 3 absolute (9.2.3.3).
pub(crate) fn validity_format(period: ValidityPeriod) -> u8
    ensures value { result ≡ validity_format period }
    ensures range { result < 4 }
{
    match period {
        ValidityPeriod::NotPresent => 0,
        ValidityPeriod::Relative(_) => 2,
        ValidityPeriod::Absolute(_) => 3,
    }
}

/// Puts a validity period at the end: 0, 1 or 7 octets.
pub(crate) fn put_validity_period(
    out: &mut Octets,
    period: ValidityPeriod,
) -> Result<(), AllocError>
    ensures { OnOk result ((field : List ℕ) × IsWrittenValidityField field period × (out.new ≡ out.old ++ field)) }
{
    match period {
        ValidityPeriod::NotPresent => Ok(()),
        ValidityPeriod::Relative(length) => out.push(length),
        ValidityPeriod::Absolute(limit) => out.append(&limit.to_scts()),
    }
}

// The length of a relative period in seconds.
fn relative_seconds(period: u8) -> u64
    ensures value { result ≡ relative_seconds period }
    ensures range { result ≤ 38102400 }
{
    let steps = u64::from(period);
    match period {
        0..=143 => (steps + 1) * 300,
        144..=167 => 43_200 + (steps - 143) * 1_800,
        168..=196 => (steps - 166) * 86_400,
        _ => (steps - 192) * 604_800,
    }
}

// So many seconds later, at most the last moment.
fn later(moment: Moment, seconds: u64) -> Moment
    requires { seconds ≤ 38102400 }
    ensures { result ≡ later moment seconds }
{
    let sum = moment.seconds() + seconds;
    let limit = if sum < LAST_SECOND { sum } else { LAST_SECOND };
    match Moment::from_seconds(limit) {
        Ok(limit) => limit,
        Err(_) => unreachable!(),
    }
}

/// Until when a message that arrives at `now` is kept.
///
/// Without a period it is two days (172,800 s). A relative period is by its table (9.2.3.12.1), 5 minutes to 63 weeks.
/// An absolute one is unchanged, also where it is over, but at most 63 weeks (38,102,400 s). It is never past the last
/// moment.
pub fn validity(period: ValidityPeriod, now: Moment) -> Moment
    ensures value { result ≡ valid_until period now }
    ensures bound { result ≤ now + 38102400 }
{
    match period {
        ValidityPeriod::NotPresent => later(now, DEFAULT_SECONDS),
        ValidityPeriod::Relative(period) => later(now, relative_seconds(period)),
        ValidityPeriod::Absolute(moment) => earlier(moment, later(now, LONGEST_SECONDS)),
    }
}
