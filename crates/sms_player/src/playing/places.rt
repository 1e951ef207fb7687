//! The places of accounts and handsets among those of a script.
ghost use Rattle.std.specs.Prelude.{◌≡◌, ◌≤◌, ◌<◌, ◌^◌, ℕ, length, Err, IfSome};
ghost use Rattle.std.specs.Str.{bytes_eq};
ghost use Rattle.sms_handset.specs.HandsetEvent.{deleted, discarded};
ghost use Rattle.sms_handset.specs.declared.refusal.Refusal.TheVariants.{NoEntry};
ghost use Rattle.sms_play.specs.PlayState.{Party};
ghost use Rattle.sms_play.specs.Meeting.{account_from};
ghost use Rattle.sms_player.specs.playing.Places.{IsFirstAt, place_from};

use crate::centre::PlayedHandset;
use sms_base::{Digits, Msisdn};
use sms_intake::CentreAccount;
use sms_script::names::spell;

/// The place of the account of that name.
pub(crate) fn account_place(name: &[u8], accounts: &[CentreAccount]) -> Option<u8>
    requires { length accounts.now ≤ 32 }
    ensures { result ≡ account_from 0 name.now accounts.now }
{
    let mut place: u8 = 0;
    for account in accounts {
        if account.name.as_slice() == name {
            return Some(place);
        }
        place += 1;
    }
    None
}

/// The place of the handset of that number.
pub(crate) fn party_place(number: &[u8], parties: &[PlayedHandset]) -> Option<usize>
    ensures place { result ≡ place_from 0 number.now parties.now }
    ensures within { IfSome result (λ place. place < length parties.now) }
{
    for place in 0..parties.len() {
        if spell(number, &parties[place].number().digits()) {
            return Some(place);
        }
    }
    None
}

fn is_same(a: &Digits, b: &Digits) -> bool
    ensures { result ≡ bytes_eq a.now b.now }
{
    a.as_slice() == b.as_slice()
}

/// The place of the handset of those digits.
pub(crate) fn digits_place(number: &Digits, parties: &[PlayedHandset]) -> Option<usize>
    ensures place { result ≡ place_from 0 number.now parties.now }
    ensures within { IfSome result (λ place. place < length parties.now) }
{
    for place in 0..parties.len() {
        if is_same(&parties[place].number().digits(), number) {
            return Some(place);
        }
    }
    None
}

/// The number of the handset at that place.
pub(crate) fn number_at(parties: &[PlayedHandset], place: usize) -> Msisdn
    requires { place < length parties.now }
    ensures { (party : Party) → IsFirstAt place party parties.now → result ≡ party.number }
{
    parties[place].number()
}

/// No entry of the handset at that place has a number of more than 32 bits.
pub(crate) fn numbers_entries(parties: &[PlayedHandset], place: usize)
    requires { place < length parties.now }
    ensures delete { (party : Party) → IsFirstAt place party parties.now → (entry : ℕ) → 2 ^ 32 ≤ entry → deleted entry party.core ≡ Err NoEntry }
    ensures discard { (party : Party) → IsFirstAt place party parties.now → (entry : ℕ) → 2 ^ 32 ≤ entry → discarded entry party.core ≡ Err NoEntry }
{
    parties[place].numbers_its_entries();
}
