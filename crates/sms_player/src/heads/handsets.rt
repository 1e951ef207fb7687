//! The handsets of a head.
ghost use Rattle.std.specs.Prelude.{◌≡◌, ◌<◌, IfOk, true};
ghost use Rattle.std.specs.Fn.{FnOnceReturnsAtMut};
ghost use Rattle.sms_player.specs.heads.Heads.{party_of as party_of_head};
ghost use Rattle.sms_play.specs.PlayState.{numbers_of as numbers_of_parties};
ghost use Rattle.sms_play.specs.Setups.{are_handsets as are_handsets_of, can_be_played, is_handset as is_handset_of, is_number as is_number_of};
ghost use Rattle.sms_play.specs.Setups.{parties_of as parties_of_head};

use crate::heads::centre::centre_of;
use sms_base::lending::lend;
use sms_base::{Moment, Msisdn};
use sms_player_handset::PlayedHandset;
use sms_script::{HandsetSetup, Setup};
use std::alloc::{AllocError, Global};

// A handset has at most 255 slots.
fn slots_of(handset: &HandsetSetup<'_>) -> u8
    requires { is_handset_of handset.now ≡ true }
    ensures slots { result ≡ handset.now.slots }
    ensures some { 0 < result }
{
    handset.slots as u8
}

fn number_of(handset: &HandsetSetup<'_>) -> Msisdn
    requires { is_handset_of handset.now ≡ true }
    ensures { result ≡ handset.now.number }
{
    match Msisdn::of(handset.number.as_slice()) {
        Some(number) => number,
        None => unreachable!(),
    }
}

fn party_of(
    alloc: Global,
    setup: &Setup<'_>,
    handset: &HandsetSetup<'_>,
    start: Moment,
) -> Result<PlayedHandset, AllocError>
    requires handset { is_handset_of handset.now ≡ true }
    requires centre { is_number_of setup.now.centre ≡ true }
    requires start { start ≡ setup.now.start }
    ensures { IfOk result (λ party. party ≡ party_of_head setup.now handset.now) }
{
    let number = number_of(handset);
    let slots = slots_of(handset);
    let centre = centre_of(setup);
    PlayedHandset::new(alloc, number, slots, centre, start)
}

// The handsets among these, each on a new store.
fn parties_among(
    alloc: Global,
    setup: &Setup<'_>,
    handsets: &[HandsetSetup<'_>],
    start: Moment,
) -> Result<Vec<PlayedHandset>, AllocError>
    requires handsets { are_handsets_of handsets.now ≡ true }
    requires centre { is_number_of setup.now.centre ≡ true }
    requires start { start ≡ setup.now.start }
    ensures { IfOk result (λ made. made.items ≡ parties_of_head setup.now handsets.now) }
{
    let mut parties = Vec::new(alloc);
    for handset in handsets {
        parties.push(party_of(alloc, setup, handset, start)?)?;
    }
    Ok(parties)
}

// The handsets, each on a new store.
fn parties_of(
    alloc: Global,
    setup: &Setup<'_>,
    start: Moment,
) -> Result<Vec<PlayedHandset>, AllocError>
    requires setup { can_be_played setup.now ≡ true }
    requires start { start ≡ setup.now.start }
    ensures parties { IfOk result (λ made. made.items ≡ parties_of_head setup.now setup.now.handsets) }
{
    parties_among(alloc, setup, setup.handsets.as_slice(), start)
}

/// The numbers of handsets, in order.
///
/// # Errors
/// A growth was refused.
pub fn numbers_of(alloc: Global, parties: &[PlayedHandset]) -> Result<Vec<Msisdn>, AllocError>
    ensures { IfOk result (λ numbers. numbers.items ≡ numbers_of_parties parties.now) }
{
    let mut numbers = Vec::new(alloc);
    for party in parties {
        numbers.push(party.number())?;
    }
    Ok(numbers)
}

/// Makes the handsets of a head, each on a new store, lends them to the work, and gives what the work gives. Who calls this owns no
/// handset.
///
/// # Errors
/// A growth was refused. The work is not done then.
pub fn with_parties<R, W: FnOnce(&mut Vec<PlayedHandset>) -> R>(
    alloc: Global,
    setup: &Setup<'_>,
    start: Moment,
    work: W,
) -> Result<R, AllocError>
    requires setup { can_be_played setup.now ≡ true }
    requires start { start ≡ setup.now.start }
    requires work { (lent : _) → lent.now.items ≡ parties_of_head setup.now setup.now.handsets → W.pre work lent }
    // What is given is what the work gives of these handsets.
    ensures given { IfOk result (λ given. (lent : _) × (next_state : _) × (lent.items ≡ parties_of_head setup.now setup.now.handsets)
        × FnOnceReturnsAtMut W.FnOnce work lent given next_state) }
{
    let parties = parties_of(alloc, setup, start)?;
    Ok(lend(parties, work))
}
