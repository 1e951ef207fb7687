//! Events one after another, with somebody who looks on.
ghost use Rattle.std.specs.Prelude.{Ok, Option, OnOk};
ghost use Rattle.sms_play.specs.judging.Premises.{or_first, untimely};
ghost use Rattle.sms_play.specs.PlayState.{PlayState};
ghost use Rattle.sms_play.specs.PlayedEvent.{played};
ghost use Rattle.sms_play.specs.Playing.{played_on};
ghost use Rattle.sms_player.specs.playing.Plays.{Represents};
ghost use Rattle.sms_player.specs.playing.Looked.{FollowsAll, FollowsOne};
ghost use Rattle.sms_player.specs.playing.Playing.{LeadsTo};
ghost use Rattle.sms_script.specs.declared.report.Broken.{Broken};

use crate::playing::Playing;
use crate::playing::acts::or_no_memory;
use sms_base::{Listed, MessageId};
use sms_centre::laws::a_state_meets_what_events_require;
use sms_centre_rows::messages::MessageRow;
use sms_centre_rows::reports::Delivery;
use sms_play::growth::laws::an_event_extends_the_play;
use sms_play::judging::{Scene, Watcher};
use sms_script::report::{AcceptedRow, Answer, FrameRow, GivenRow};
use sms_script::{PlayFault, WorldEvent};

impl<'a> Scene for Playing<'a> {
    ghost use Rattle.sms_player.specs.playing.Plays.{Represents};

    ghost represents = { λ playing c. Represents c playing };

    fn answers(&self) -> &[Answer] {
        self.answers.as_slice()
    }

    fn given(&self) -> &[GivenRow] {
        self.given.as_slice()
    }

    fn bag(&self) -> &Listed<FrameRow> {
        &self.bag
    }

    fn deliveries(&self) -> &[Delivery] {
        self.delivered.as_slice()
    }

    fn handsets(&self) -> usize {
        self.parties.len()
    }

    fn accepted(&self, place: usize) -> &[AcceptedRow] {
        match self.parties.get(place) {
            Some(party) => party.accepted(),
            None => &[],
        }
    }

    fn message(&self, id: MessageId) -> Option<&MessageRow> {
        self.centre.message(id)
    }

    fn part_tpdu(&self, id: MessageId, number: u8) -> Option<&[u8]> {
        self.centre.part_tpdu(id, number)
    }
}

// The event is played, and is looked at. Who looks on has seen what stood before it.
fn play_one<W: Watcher>(
    playing: &mut Playing<'_>,
    watcher: &mut W,
    number: u64,
    event: &WorldEvent<'_>,
) -> Result<(), PlayFault>
    ensures leads { (c : PlayState) → Represents c playing.old → LeadsTo result playing.new (played number event.now c) }
    ensures seen { (c : PlayState) (broken : Option Broken) → Represents c playing.old
        → W.has_seen watcher.old (or_first broken (untimely number event.now c)) c
        → OnOk result (FollowsOne (W.has_seen watcher.new) playing.new broken number event.now c) }
{
    a_state_meets_what_events_require();
    an_event_extends_the_play();
    match playing.play(number, event) {
        Ok(()) => or_no_memory(number, watcher.after(number, event, playing)),
        Err(fault) => Err(fault),
    }
}

fn one<W: Watcher>(
    playing: &mut Playing<'_>,
    watcher: &mut W,
    number: u64,
    event: &WorldEvent<'_>,
) -> Result<(), PlayFault>
    ensures leads { (c : PlayState) → Represents c playing.old → LeadsTo result playing.new (played number event.now c) }
    ensures seen { (c : PlayState) (broken : Option Broken) → Represents c playing.old → W.has_seen watcher.old broken c
        → OnOk result (FollowsOne (W.has_seen watcher.new) playing.new broken number event.now c) }
{
    match watcher.before(number, event, playing) {
        Ok(()) => play_one(playing, watcher, number, event),
        Err(_) => Err(PlayFault::NoMemory { event: number }),
    }
}

/// Plays all events, numbered from 1, and somebody looks on.
///
/// # Errors
/// The fault of the first event that can't be played. `NoMemory` with the event at which a growth was refused.
pub fn play_all<W: Watcher>(
    playing: &mut Playing<'_>,
    watcher: &mut W,
    events: &[WorldEvent<'_>],
) -> Result<(), PlayFault>
    ensures leads { (c : PlayState) → Represents c playing.old → LeadsTo result playing.new (played_on 1 events.now c) }
    // Who looks on has seen what the definition decides of them.
    ensures seen { (c : PlayState) (broken : Option Broken) → Represents c playing.old → W.has_seen watcher.old broken c
        → OnOk result (FollowsAll (W.has_seen watcher.new) playing.new broken events.now c) }
{
    for place in 0..events.len() {
        match one(playing, watcher, place as u64 + 1, &events[place]) {
            Ok(()) => {}
            Err(fault) => return Err(fault),
        }
    }
    Ok(())
}
