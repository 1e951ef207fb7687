//! Rounds of parts of one key, as originators submit them.
ghost use Rattle.std.specs.Prelude.{◌≡◌};
ghost use Rattle.sms_alphabet.specs.Concatenation.{header_key as header_key_of};
ghost use Rattle.sms_world_model.specs.RoundKeys.{placed, placed_at};
ghost use Rattle.sms_world_model.specs.Place.{place_in as place_in_octets, place_of as place_with};

use sms_base::{Address, Digits};
use sms_concat::{ConcatKey, ConcatReference, header_key};
use sms_rows::interning::Number;
use sms_tpdu::{Carrier, Deliver, Down, read_down};

/// The place of a part in a long message: the key of its concatenation element with its source and its handset, and its number.
#[derive(Clone, Copy)]
pub struct Place {
    pub key: RoundKey,
    pub number: u8,
}

/// By what parts belong together.
#[derive(Clone, Copy, PartialEq, Eq, Hash)]
pub struct RoundKey {
    pub handset: Number,
    pub type_of_number: u8,
    pub plan: u8,
    pub source: Number,
    pub is_wide: bool,
    pub reference: u16,
    pub total: u8,
}

fn place_of(handset: Digits, source: &Address, key: ConcatKey) -> Place
    ensures { result ≡ placed handset source.now key }
{
    let (is_wide, reference) = match key.reference {
        ConcatReference::EightBit(reference) => (false, u16::from(reference)),
        ConcatReference::SixteenBit(reference) => (true, reference),
    };
    Place {
        key: RoundKey {
            handset: Number { digits: handset },
            type_of_number: source.ton.number(),
            plan: source.npi,
            source: Number {
                digits: source.digits,
            },
            is_wide,
            reference,
            total: key.total,
        },
        number: key.number,
    }
}

fn key_of(deliver: &Deliver<'_>) -> Option<ConcatKey>
    ensures { result ≡ header_key_of deliver.now.user_data_header_indicator deliver.now.user_data.octets }
{
    header_key(
        deliver.user_data_header_indicator,
        deliver.user_data.octets.as_slice(),
    )
}

// The place of a part that a handset was sent.
fn place_in_deliver(handset: Digits, deliver: &Deliver<'_>) -> Option<Place>
    ensures { result ≡ placed_at handset (place_with deliver.now.originating_address
        (header_key_of deliver.now.user_data_header_indicator deliver.now.user_data.octets)) }
{
    match key_of(deliver) {
        Some(key) => Some(place_of(handset, &deliver.originating_address, key)),
        None => None,
    }
}

/// The place of what the octets carry to a handset, if they carry a part.
#[tactic(auto, unfolding(crate::specs::Place::place_in))]
pub fn place_in(handset: Digits, tpdu: &[u8]) -> Option<Place>
    ensures { result ≡ placed_at handset (place_in_octets tpdu.now) }
{
    match read_down(tpdu, Carrier::InData) {
        Ok(Down::Deliver(deliver)) => place_in_deliver(handset, &deliver),
        _ => None,
    }
}
