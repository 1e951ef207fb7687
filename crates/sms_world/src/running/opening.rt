//! How a script begins: who takes part in it is made, and lent to it.
ghost use Rattle.std.specs.Prelude.{◌≡◌, ◌≤◌, length, IfOk, None, true};
ghost use Rattle.sms_play.specs.PlayState.{numbers_of as numbers_of_parties};
ghost use Rattle.sms_play.specs.Playing.{broken_on, play_of, premises_of};
ghost use Rattle.sms_world.specs.running.Begun.{IsBegun};
ghost use Rattle.sms_world.specs.running.Reporting.{Decides, ReportsAs, report_on};
ghost use Rattle.sms_world.specs.declared.running.ending.Judged.{Judged as JudgedOf};
ghost use Rattle.sms_script.specs.declared.setup.Setup.{Setup as SetupOf};
ghost use Rattle.sms_centre_spec.specs.CentreEvent.{started};
ghost use Rattle.sms_centre_spec.specs.SoundRows.{IsSetup, first_rows as first_rows_of};
ghost use Rattle.sms_play.specs.PlayedEvent.{sessions_from};
ghost use Rattle.sms_play.specs.Setups.{beginning, can_be_played, centre_setup as centre_setup_of, parties_of as parties_of_head};
ghost use Rattle.sms_store_memory.specs.centre.RowsInKeep.{rows_in};
ghost use Rattle.sms_player.specs.heads.Heads.{AreHandsets};
ghost use Rattle.sms_centre.specs.state.CentreState.{Represents};
ghost use Rattle.sms_player.specs.centre.PlayedCentre.{IsSomeCentre};

use crate::running::ending::{Judged, finish};
use crate::running::verdict::Finder;
use sms_base::{Moment, Msisdn};
use sms_player::centre::{
    Centre, CentreSetup, MemoryKeep, PlayedCentre, PlayedHandset, centre_setup,
    handsets_can_have_links, judge, numbers_of, with_first_centre, with_first_keep, with_parties,
};
use sms_player::playing::{Playing, play_all};
use sms_script::{PlayFault, Setup, WorldEvent};
use std::alloc::{AllocError, Global};

// What a centre is started with.
#[derive(Drop)]
struct Opening {
    setup: CentreSetup,
    handsets: Vec<Msisdn>,
}

fn opening_of(
    alloc: Global,
    setup: &Setup<'_>,
    start: Moment,
    parties: &[PlayedHandset],
) -> Result<Opening, AllocError>
    requires setup { can_be_played setup.now ≡ true }
    requires start { start ≡ setup.now.start }
    requires parties { parties.now ≡ parties_of_head setup.now setup.now.handsets }
    ensures made { IfOk result (λ opening. opening.setup ≡ centre_setup_of setup.now) }
    ensures numbers { IfOk result (λ opening. opening.handsets.items ≡ numbers_of_parties parties.now) }
    ensures setup { IfOk result (λ opening. IsSetup opening.setup) }
    ensures few { IfOk result (λ opening. length opening.setup.accounts ≤ 32) }
    ensures handsets { IfOk result (λ opening. AreHandsets opening.handsets.items) }
{
    handsets_can_have_links();
    let handsets = numbers_of(alloc, parties)?;
    let setup = centre_setup(alloc, setup, start)?;
    Ok(Opening { setup, handsets })
}

// The script is played by what was lent.
fn play_by<W: Finder>(
    alloc: Global,
    centre: &mut Centre,
    keep: &mut MemoryKeep,
    handsets: &[Msisdn],
    parties: &mut [PlayedHandset],
    events: &[WorldEvent<'_>],
    watcher: &mut W,
) -> Result<Judged, PlayFault>
    requires consistent { IsSomeCentre centre.old (rows_in keep.old) }
    requires handsets { AreHandsets handsets.now }
    ensures report { (s : SetupOf) → IsBegun s centre.old (rows_in keep.old) handsets.now parties.old
        → ReportsAs (λ (judged : JudgedOf). judged.report) result (report_on events.now (beginning s)) }
    ensures verdict { (s : SetupOf) → IsBegun s centre.old (rows_in keep.old) handsets.now parties.old → W.has_seen watcher.old None (beginning s)
        → IfOk result (λ judged. Decides (W.reports judged.broken) (broken_on 1 events.now (beginning s))) }
{
    let centre = PlayedCentre::new(alloc, centre, keep, handsets);
    let mut playing = Playing::new(alloc, centre, parties);
    match play_all(&mut playing, watcher, events) {
        Ok(()) => finish(playing, watcher, events.len()),
        Err(fault) => Err(fault),
    }
}

// The centre's rows are kept in memory.
fn play_at<W: Finder>(
    alloc: Global,
    setup: &CentreSetup,
    centre: &mut Centre,
    handsets: &[Msisdn],
    parties: &mut [PlayedHandset],
    events: &[WorldEvent<'_>],
    watcher: &mut W,
) -> Result<Judged, PlayFault>
    requires few { length setup.now.accounts ≤ 32 }
    requires handsets { AreHandsets handsets.now }
    requires centre_state { Represents (started (first_rows_of setup.now) handsets.now (sessions_from 0 setup.now.accounts)) centre.old }
    ensures report { (s : SetupOf) → setup.now ≡ centre_setup_of s → handsets.now ≡ numbers_of_parties (parties_of_head s s.handsets)
        → parties.old ≡ parties_of_head s s.handsets → ReportsAs (λ (judged : JudgedOf). judged.report) result (report_on events.now (beginning s)) }
    ensures verdict { (s : SetupOf) → setup.now ≡ centre_setup_of s → handsets.now ≡ numbers_of_parties (parties_of_head s s.handsets)
        → parties.old ≡ parties_of_head s s.handsets → W.has_seen watcher.old None (beginning s)
        → IfOk result (λ judged. Decides (W.reports judged.broken) (broken_on 1 events.now (beginning s))) }
{
    let played = with_first_keep(alloc, setup, |keep| {
        play_by(alloc, centre, keep, handsets, parties, events, watcher)
    });
    match played {
        Ok(played) => played,
        Err(_) => Err(PlayFault::NoMemory { event: 0 }),
    }
}

// The centre starts.
fn play_from<W: Finder>(
    alloc: Global,
    setup: &CentreSetup,
    handsets: &[Msisdn],
    parties: &mut [PlayedHandset],
    events: &[WorldEvent<'_>],
    watcher: &mut W,
) -> Result<Judged, PlayFault>
    requires setup { IsSetup setup.now }
    requires few { length setup.now.accounts ≤ 32 }
    requires handsets { AreHandsets handsets.now }
    ensures report { (s : SetupOf) → setup.now ≡ centre_setup_of s → handsets.now ≡ numbers_of_parties (parties_of_head s s.handsets)
        → parties.old ≡ parties_of_head s s.handsets → ReportsAs (λ (judged : JudgedOf). judged.report) result (report_on events.now (beginning s)) }
    ensures verdict { (s : SetupOf) → setup.now ≡ centre_setup_of s → handsets.now ≡ numbers_of_parties (parties_of_head s s.handsets)
        → parties.old ≡ parties_of_head s s.handsets → W.has_seen watcher.old None (beginning s)
        → IfOk result (λ judged. Decides (W.reports judged.broken) (broken_on 1 events.now (beginning s))) }
{
    let played = with_first_centre(alloc, setup, handsets, |centre| {
        play_at(alloc, setup, centre, handsets, parties, events, watcher)
    });
    match played {
        Ok(played) => played,
        Err(_) => Err(PlayFault::NoMemory { event: 0 }),
    }
}

// The handsets of the head take part.
fn play_among<W: Finder>(
    alloc: Global,
    setup: &Setup<'_>,
    start: Moment,
    parties: &mut Vec<PlayedHandset>,
    events: &[WorldEvent<'_>],
    watcher: &mut W,
) -> Result<Judged, PlayFault>
    requires setup { can_be_played setup.now ≡ true }
    requires start { start ≡ setup.now.start }
    requires parties { parties.old.items ≡ parties_of_head setup.now setup.now.handsets }
    ensures report { ReportsAs (λ (judged : JudgedOf). judged.report) result (report_on events.now (beginning setup.now)) }
    ensures verdict { W.has_seen watcher.old None (beginning setup.now)
        → IfOk result (λ judged. Decides (W.reports judged.broken) (broken_on 1 events.now (beginning setup.now))) }
{
    match opening_of(alloc, setup, start, parties.as_slice()) {
        Ok(opening) => play_from(
            alloc,
            &opening.setup,
            opening.handsets.as_slice(),
            parties.as_mut_slice(),
            events,
            watcher,
        ),
        Err(_) => Err(PlayFault::NoMemory { event: 0 }),
    }
}

fn play_head<W: Finder>(
    alloc: Global,
    setup: &Setup<'_>,
    start: Moment,
    events: &[WorldEvent<'_>],
    watcher: &mut W,
) -> Result<Judged, PlayFault>
    requires setup { can_be_played setup.now ≡ true }
    requires start { start ≡ setup.now.start }
    ensures report { ReportsAs (λ (judged : JudgedOf). judged.report) result (report_on events.now (beginning setup.now)) }
    ensures verdict { W.has_seen watcher.old None (beginning setup.now)
        → IfOk result (λ judged. Decides (W.reports judged.broken) (broken_on 1 events.now (beginning setup.now))) }
{
    let played = with_parties(alloc, setup, start, |parties| {
        play_among(alloc, setup, start, parties, events, watcher)
    });
    match played {
        Ok(played) => played,
        Err(_) => Err(PlayFault::NoMemory { event: 0 }),
    }
}

/// What the script leads to, or why it is not played to its end. Somebody looks on, and reports what the events break.
pub(crate) fn play_before<W: Finder>(
    alloc: Global,
    setup: &Setup<'_>,
    events: &[WorldEvent<'_>],
    watcher: &mut W,
) -> Result<Judged, PlayFault>
    ensures report { ReportsAs (λ (judged : JudgedOf). judged.report) result (play_of setup.now events.now) }
    ensures verdict { W.has_seen watcher.old None (beginning setup.now)
        → IfOk result (λ judged. Decides (W.reports judged.broken) (premises_of setup.now events.now)) }
{
    match judge(setup) {
        Some(start) => play_head(alloc, setup, start, events, watcher),
        None => Err(PlayFault::BadSetup),
    }
}
