//! Numbers and moments in text.
ghost use Rattle.std.specs.Prelude.{◌≡◌, ◌++◌, OnOk};
ghost use Rattle.sms_base.specs.MessageId.{id_text};
ghost use Rattle.smsc_status.specs.Numbers.{clock_text, date_text, last_digit, milliseconds_text, millionths_text, moment_text, pair, size_text, stamp_text};

use sms_base::{MessageId, Moment, Octets, put_decimal};
use std::alloc::AllocError;

// Two decimal digits of a semi-octet pair, the low one first (3GPP TS 23.040 9.1.2.3).
fn put_pair(out: &mut Octets, octet: u8) -> Result<(), AllocError>
    ensures { OnOk result (out.new ≡ out.old ++ pair octet) }
{
    out.push(48 + (octet % 16) % 10)?;
    out.push(48 + (octet / 16) % 10)
}

#[tactic(auto, unfolding(crate::specs::Numbers::date_text))]
fn put_date(out: &mut Octets, year: u8, month: u8, day: u8) -> Result<(), AllocError>
    ensures { OnOk result (out.new ≡ out.old ++ date_text year month day) }
{
    out.append(b"20")?;
    put_pair(out, year)?;
    out.append(b"-")?;
    put_pair(out, month)?;
    out.append(b"-")?;
    put_pair(out, day)
}

#[tactic(auto, unfolding(crate::specs::Numbers::clock_text))]
fn put_clock(out: &mut Octets, hour: u8, minute: u8, second: u8) -> Result<(), AllocError>
    ensures { OnOk result (out.new ≡ out.old ++ clock_text hour minute second) }
{
    put_pair(out, hour)?;
    out.append(b":")?;
    put_pair(out, minute)?;
    out.append(b":")?;
    put_pair(out, second)
}

#[tactic(auto, unfolding(crate::specs::Numbers::stamp_text))]
fn put_stamp(out: &mut Octets, stamp: &[u8; 7]) -> Result<(), AllocError>
    ensures { OnOk result (out.new ≡ out.old ++ stamp_text stamp.now) }
{
    put_date(out, stamp[0], stamp[1], stamp[2])?;
    out.append(b"T")?;
    put_clock(out, stamp[3], stamp[4], stamp[5])?;
    out.append(b"Z")
}

/// A moment at UTC, as `2026-11-26T04:46:01Z`.
pub(crate) fn put_moment(out: &mut Octets, moment: Moment) -> Result<(), AllocError>
    ensures { OnOk result (out.new ≡ out.old ++ moment_text moment) }
{
    put_stamp(out, &moment.to_scts())
}

/// The ten digits of a message's number.
pub(crate) fn put_id(out: &mut Octets, id: MessageId) -> Result<(), AllocError>
    ensures { OnOk result (out.new ≡ out.old ++ id_text id) }
{
    // It is one to ten digits long.
    let _range = id.number();
    let digits = id.digits();
    out.append(&digits)
}

// The last digit of a number.
fn put_digit(out: &mut Octets, number: u64) -> Result<(), AllocError>
    ensures { OnOk result (out.new ≡ out.old ++ last_digit number) }
{
    out.push(48 + (number % 10) as u8)
}

/// So many millionths as a decimal fraction, as `0.000200`.
#[tactic(auto, unfolding(crate::specs::Numbers::millionths_text))]
pub(crate) fn put_millionths(out: &mut Octets, millionths: u64) -> Result<(), AllocError>
    ensures { OnOk result (out.new ≡ out.old ++ millionths_text millionths) }
{
    put_decimal(out, millionths / 1_000_000)?;
    out.append(b".")?;
    put_digit(out, millionths / 100_000)?;
    put_digit(out, millionths / 10_000)?;
    put_digit(out, millionths / 1_000)?;
    put_digit(out, millionths / 100)?;
    put_digit(out, millionths / 10)?;
    put_digit(out, millionths)
}

/// So many thousandths of a millisecond as milliseconds, as `0.2` or `1000`: the limits of commits have one digit behind the point.
#[tactic(auto, unfolding(crate::specs::Numbers::milliseconds_text))]
pub(crate) fn put_milliseconds(out: &mut Octets, micros: u64) -> Result<(), AllocError>
    ensures { OnOk result (out.new ≡ out.old ++ milliseconds_text micros) }
{
    put_decimal(out, micros / 1000)?;
    let tenth = (micros / 100) % 10;
    if tenth != 0 {
        out.append(b".")?;
        put_decimal(out, tenth)?;
    }
    Ok(())
}

/// So many octets, in the greatest unit of which there are at least ten, but for less than 10 KB.
#[tactic(auto, unfolding(crate::specs::Numbers::size_text))]
pub(crate) fn put_size(out: &mut Octets, octets: u64) -> Result<(), AllocError>
    ensures { OnOk result (out.new ≡ out.old ++ size_text octets) }
{
    if octets >= 10_000_000 {
        put_decimal(out, octets / 1_000_000)?;
        return out.append(b" MB");
    }
    if octets >= 1000 {
        put_decimal(out, octets / 1000)?;
        return out.append(b" KB");
    }
    put_decimal(out, octets)?;
    out.append(b" B")
}
