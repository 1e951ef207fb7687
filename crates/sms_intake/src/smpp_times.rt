//! Times and wishes of a submit_sm.
ghost use Rattle.std.specs.Prelude.{◌≡◌};
ghost use Rattle.sms_base.specs.SmppTime.{smpp_time_in};
ghost use Rattle.sms_intake.specs.SmppIntake.{due_in, limit_in, wish_in};

use smpp_pdu::CommandStatus;
use sms_base::{Moment, Wish, earlier};

/// How long a message is kept that asks for nothing else: two days.
const DEFAULT_SECONDS: u64 = 172_800;

/// 63 weeks.
const LONGEST_SECONDS: u64 = 38_102_400;

// The moment of a time, if it is one.
fn time_in(octets: &[u8], now: Moment) -> Option<Moment>
    ensures { result ≡ smpp_time_in octets.now now }
{
    match Moment::from_smpp(octets, now) {
        Ok(moment) => Some(moment),
        Err(_) => None,
    }
}

/// Until when a message is kept, by its validity_period. It is two days where that is empty, and 63 weeks at most. A
/// period that is no time, or not later than now, is refused.
pub fn limit_of(validity_period: &[u8], now: Moment) -> Result<Moment, CommandStatus>
    ensures { result ≡ limit_in now validity_period.now }
{
    if validity_period.is_empty() {
        return Ok(now.plus(DEFAULT_SECONDS));
    }
    match time_in(validity_period, now) {
        Some(limit) if now.seconds() < limit.seconds() => {
            Ok(earlier(limit, now.plus(LONGEST_SECONDS)))
        }
        _ => Err(CommandStatus::ESME_RINVEXPIRY),
    }
}

/// From when on a message is offered, by its schedule_delivery_time: now where it is empty. One that is no time, or not
/// before the limit, is refused. One that is past is kept.
pub fn due_of(
    schedule_delivery_time: &[u8],
    now: Moment,
    limit: Moment,
) -> Result<Moment, CommandStatus>
    ensures { result ≡ due_in now limit schedule_delivery_time.now }
{
    if schedule_delivery_time.is_empty() {
        return Ok(now);
    }
    match time_in(schedule_delivery_time, now) {
        Some(due) if due.seconds() < limit.seconds() => Ok(due),
        _ => Err(CommandStatus::ESME_RINVSCHED),
    }
}

/// At which ends the originator wants a report, by bits 1 and 0 of registered_delivery: 0 none, 1 and 3 always, 2 on
/// failure.
pub fn wish_of(registered_delivery: u8) -> Wish
    ensures { result ≡ wish_in registered_delivery }
{
    match registered_delivery % 4 {
        0 => Wish::Nothing,
        2 => Wish::OnFailure,
        _ => Wish::Always,
    }
}
