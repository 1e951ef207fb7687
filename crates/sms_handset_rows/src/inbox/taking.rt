//! The parts of an open group, taken one by one.
ghost use Rattle.std.specs.Prelude.{◌≡◌, Ok, IfOk};
ghost use Rattle.sms_tpdu.specs.TpduReading.{down_at};
ghost use Rattle.sms_tpdu.specs.declared.carrier.Carrier.TheVariants.{InData as Data};
ghost use Rattle.sms_tpdu.specs.declared.down.Down.TheVariants.{Deliver as DeliverOf};
ghost use Rattle.sms_handset_rows.specs.inbox.Groups.{carried_part};
ghost use Rattle.sms_handset_rows.specs.inbox.TakenParts.{carried_by as carried_by_of, numbered as numbered_of, taken_if as taken_if_of};
ghost use Rattle.sms_handset_rows.specs.inbox.TakenParts.{with_taken as with_taken_of};

use crate::inbox::entry::Entry;
use sms_alphabet::UnpackError;
use sms_concat::joiner::{Joiner, number_of};
use sms_concat::{Part, part_of};
use sms_tpdu::{Carrier, Deliver, Down, read_down};
use std::alloc::{AllocError, Global};

// What the message carries.
fn part_in(alloc: Global, message: &Deliver<'_>) -> Result<Option<Part>, AllocError>
    ensures { IfOk result (λ part. part ≡ carried_part (Ok (DeliverOf message.now))) }
{
    match part_of(
        alloc,
        message.user_data_header_indicator,
        message.data_coding_scheme,
        message.user_data.length,
        message.user_data.octets.as_slice(),
    ) {
        Ok(part) => Ok(Some(part)),
        Err(UnpackError::NoMemory) => Err(AllocError),
        Err(_) => Ok(None),
    }
}

/// What a DELIVER carries.
pub(crate) fn part_at(alloc: Global, tpdu: &[u8]) -> Result<Option<Part>, AllocError>
    ensures { IfOk result (λ part. part ≡ carried_part (down_at Data tpdu.now)) }
{
    match read_down(tpdu, Carrier::InData) {
        Ok(Down::Deliver(message)) => part_in(alloc, &message),
        _ => Ok(None),
    }
}

// The part, if it has the number.
fn numbered(number: u8, part: Option<Part>) -> Option<Part>
    ensures { result ≡ numbered_of number part }
{
    match part {
        Some(part) => {
            if number_of(&part) == number {
                Some(part)
            } else {
                None
            }
        }
        None => None,
    }
}

/// The part that the octets of an entry are, under the entry's own number.
pub(crate) fn carried_by(alloc: Global, entry: &Entry) -> Result<Option<Part>, AllocError>
    ensures { IfOk result (λ part. part ≡ carried_by_of entry.now) }
{
    let part = part_at(alloc, entry.message.tpdu())?;
    Ok(numbered(entry.message.part_number(), part))
}

fn taken_if(joiner: Joiner, part: Part) -> Option<Joiner>
    ensures { result ≡ taken_if_of joiner part }
{
    let mut joiner = joiner;
    match joiner.add(part) {
        Ok(()) => Some(joiner),
        Err(_) => None,
    }
}

/// The parts so far, with one more. Takes no memory.
pub(crate) fn with_taken(joined: Option<Joiner>, part: Option<Part>) -> Option<Joiner>
    ensures { result ≡ with_taken_of joined part }
{
    match joined {
        Some(joiner) => match part {
            Some(part) => taken_if(joiner, part),
            None => None,
        },
        None => None,
    }
}
