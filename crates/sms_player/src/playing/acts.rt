//! The events of a script.
ghost use Rattle.std.specs.Prelude.{◌≡◌, ◌<◌, ◌≤◌, ◌^◌, ℕ, true, false, length, Err, IfOk, IfSome, OnOk};
ghost use Rattle.std.specs.Str.{chars, is_utf8};
ghost use Rattle.sms_base.specs.Among.{Among};
ghost use Rattle.sms_centre_spec.specs.SoundCore.{IsEvent};
ghost use Rattle.sms_centre_spec.specs.declared.event.CentreEvent.TheVariants.{Submit as CentreSubmit, Frame as CentreFrame};
ghost use Rattle.sms_play.specs.growth.Growth.{IsFit, IsCentreEvent};
ghost use Rattle.sms_handset.specs.HandsetEvent.{deleted as deleted_of, discarded as discarded_of};
ghost use Rattle.sms_handset.specs.declared.refusal.Refusal.TheVariants.{NoEntry};
ghost use Rattle.sms_handset.specs.declared.event.HandsetEvent.TheVariants.{Frame as HandsetFrame, Write as HandsetWrite, Delete as HandsetDelete};
ghost use Rattle.sms_handset.specs.declared.event.HandsetEvent.TheVariants.{Discard as HandsetDiscard};
ghost use Rattle.sms_play.specs.PlayState.{PlayState, Party, frame_at as frame_at_number};
ghost use Rattle.sms_play.specs.Meeting.{AtCentre, AtHandset, account_from, handed_over, is_answered as is_answered_act, meeting_of, tag_in as tag_in_of};
ghost use Rattle.sms_play.specs.PlayedEvent.{played, restart as restart_of};
ghost use Rattle.sms_player.specs.playing.Plays.{Represents};
ghost use Rattle.sms_player.specs.playing.Places.{IsFirstAt, place_from};
ghost use Rattle.sms_player.specs.playing.Playing.{Hands, IsFrame, LeadsTo, acted, carried_out, met_as, or_no_memory as or_no_memory_of};
ghost use Rattle.sms_script.specs.Requests.{submit_of as submit_of_submission};
ghost use Rattle.sms_script.specs.declared.report.rows.FrameRow.{FrameRow as FrameRowOf};
ghost use Rattle.sms_script.specs.declared.event.Act.{Act as ActOf};
ghost use Rattle.sms_script.specs.declared.event.Act.TheVariants.{Submit as ActSubmit, Query as ActQuery, Cancel as ActCancel, Write as ActWrite};
ghost use Rattle.sms_script.specs.declared.event.Act.TheVariants.{Delete as ActDelete, Discard as ActDiscard, Deliver as ActDeliver, Tick as ActTick};
ghost use Rattle.sms_script.specs.declared.event.EventSide.TheVariants.{Handset as SideHandset};

use crate::centre::CentreEvent;
use crate::playing::Playing;
use crate::playing::places::{
    account_place, digits_place, number_at, numbers_entries, party_place,
};
use sms_base::{Carried, Digits, Holder, Moment, Msisdn, OctetView, Octets};
use sms_centre_spec::is_event;
use sms_handset::{HandsetEvent, TextView};
use sms_intake::latin_text;
use sms_play::staging::frame_at;
use sms_script::report::Direction;
use sms_script::requests::{cancel_of, query_of, submit_of};
use sms_script::{
    Act, EventSide, PlayFault, StopPoint, Submission, TextView as TextWord, WorldEvent,
};
use std::alloc::AllocError;
use std::str::from_utf8;

/// What was done, with want of memory as a fault at `event`.
///
/// # Errors
/// `NoMemory` with the event, where there was none.
pub fn or_no_memory<T>(event: u64, done: Result<T, AllocError>) -> Result<T, PlayFault>
    ensures { result ≡ or_no_memory_of event done }
{
    match done {
        Ok(done) => Ok(done),
        Err(_) => Err(PlayFault::NoMemory { event }),
    }
}

fn tag_in(carried: Option<Carried>) -> Option<Holder>
    ensures { result ≡ tag_in_of carried }
{
    carried.map(|carried| carried.tag)
}

// A frame that is handed over.
#[derive(Drop)]
struct Handed {
    direction: Direction,
    handset: Digits,
    octets: Octets,
    tag: Option<Holder>,
}

// The octets of a text, as text.
fn text_in(octets: &Octets) -> &str
    requires { is_utf8 octets.now ≡ true }
    ensures { result.now ≡ octets.entry.now }
{
    match from_utf8(octets.as_slice()) {
        Ok(text) => text,
        Err(_) => unreachable!(),
    }
}

impl<'a> Playing<'a> {
    // ---- whom an act concerns

    fn account(&self, name: &[u8]) -> Option<u8>
        ensures { result ≡ account_from 0 name.now self.now.centre.rows.setup.accounts }
    {
        account_place(name, self.centre.accounts())
    }

    fn party(&self, number: &[u8]) -> Option<usize>
        ensures place { result ≡ place_from 0 number.now self.now.parties }
        ensures within { IfSome result (λ place. place < length self.now.parties) }
    {
        party_place(number, self.parties)
    }

    fn party_of(&self, number: &Digits) -> Option<usize>
        ensures place { result ≡ place_from 0 number.now self.now.parties }
        ensures within { IfSome result (λ place. place < length self.now.parties) }
    {
        digits_place(number, self.parties)
    }

    pub(crate) fn number_at(&self, place: usize) -> Msisdn
        requires { place < length self.now.parties }
        ensures { (party : Party) → IsFirstAt place party self.now.parties → result ≡ party.number }
    {
        number_at(self.parties, place)
    }

    // No entry of the handset at that place has a number of more than 32 bits.
    fn numbers_its_entries(&self, place: usize)
        requires { place < length self.now.parties }
        ensures delete { (party : Party) → IsFirstAt place party self.now.parties → (entry : ℕ) → 2 ^ 32 ≤ entry → deleted_of entry party.core ≡ Err NoEntry }
        ensures discard { (party : Party) → IsFirstAt place party self.now.parties → (entry : ℕ) → 2 ^ 32 ≤ entry
            → discarded_of entry party.core ≡ Err NoEntry }
    {
        numbers_entries(self.parties, place);
    }

    // ---- requests of applications

    fn submit(
        &mut self,
        event: u64,
        stop: Option<StopPoint>,
        account: u8,
        submission: &Submission<'_>,
    ) -> Result<(), AllocError>
        ensures { (c : PlayState) → Represents c self.old → OnOk result
            (Represents (met_as stop event (ActSubmit submission.now) (AtCentre (CentreSubmit account (submit_of_submission submission.now))) c) self.new) }
    {
        let octets = submission.message.octets(self.alloc)?;
        let happening = CentreEvent::Submit {
            account,
            message: submit_of(
                submission,
                submission.to.as_slice(),
                submission.validity.as_slice(),
                octets.as_slice(),
            ),
        };
        self.at_centre(event, stop, true, &happening)
    }

    fn submitted(
        &mut self,
        event: u64,
        stop: Option<StopPoint>,
        submission: &Submission<'_>,
    ) -> Result<(), PlayFault>
        ensures { (c : PlayState) → Represents c self.old → LeadsTo result self.new (acted stop event (ActSubmit submission.now) c) }
    {
        match self.account(submission.name.as_slice()) {
            Some(account) => or_no_memory(event, self.submit(event, stop, account, submission)),
            None => Err(PlayFault::NoSuchAccount { event }),
        }
    }

    fn queried(
        &mut self,
        event: u64,
        stop: Option<StopPoint>,
        name: &[u8],
        id: &[u8],
    ) -> Result<(), PlayFault>
        ensures { (c : PlayState) → Represents c self.old → LeadsTo result self.new (acted stop event (ActQuery name.now id.now) c) }
    {
        match self.account(name) {
            Some(account) => {
                let query = query_of(id);
                let happening = CentreEvent::Query { account, query };
                or_no_memory(event, self.at_centre(event, stop, true, &happening))
            }
            None => Err(PlayFault::NoSuchAccount { event }),
        }
    }

    fn cancelled(
        &mut self,
        event: u64,
        stop: Option<StopPoint>,
        name: &[u8],
        id: &[u8],
    ) -> Result<(), PlayFault>
        ensures { (c : PlayState) → Represents c self.old → LeadsTo result self.new (acted stop event (ActCancel name.now id.now) c) }
    {
        match self.account(name) {
            Some(account) => {
                let cancel = cancel_of(id);
                let happening = CentreEvent::Cancel { account, cancel };
                or_no_memory(event, self.at_centre(event, stop, true, &happening))
            }
            None => Err(PlayFault::NoSuchAccount { event }),
        }
    }

    // ---- acts of owners

    fn write_text(
        &mut self,
        event: u64,
        stop: Option<StopPoint>,
        place: usize,
        to: &str,
        report: bool,
        text: &str,
    ) -> Result<(), AllocError>
        requires { place < length self.old.parties }
        ensures { (c : PlayState) (party : Party) (act : ActOf) → Represents c self.old → IsFirstAt place party c.parties → is_answered_act act ≡ true
            → OnOk result (Represents (met_as stop event act (AtHandset party (HandsetWrite (chars text.now) (chars to.now) report)) c) self.new) }
    {
        let happening = HandsetEvent::Write {
            text: TextView::of(text),
            to: TextView::of(to),
            report,
        };
        self.at_handset(event, stop, place, &happening)
    }

    fn write(
        &mut self,
        event: u64,
        stop: Option<StopPoint>,
        place: usize,
        to: &[u8],
        report: bool,
        text: &TextWord<'_>,
    ) -> Result<(), AllocError>
        requires { place < length self.old.parties }
        ensures { (c : PlayState) (party : Party) (act : ActOf) → Represents c self.old → IsFirstAt place party c.parties → is_answered_act act ≡ true
            → OnOk result (Represents (met_as stop event act (AtHandset party (HandsetWrite (chars text.now) to.now report)) c) self.new) }
    {
        let to = latin_text(self.alloc, to)?;
        let octets = text.octets(self.alloc)?;
        self.write_text(event, stop, place, to.as_str(), report, text_in(&octets))
    }

    fn delete(
        &mut self,
        event: u64,
        stop: Option<StopPoint>,
        place: usize,
        entry: u64,
    ) -> Result<(), AllocError>
        requires { place < length self.old.parties }
        ensures { (c : PlayState) (party : Party) (act : ActOf) → Represents c self.old → IsFirstAt place party c.parties → is_answered_act act ≡ true
            → OnOk result (Represents (met_as stop event act (AtHandset party (HandsetDelete entry)) c) self.new) }
    {
        match u32::try_from(entry) {
            Ok(entry) => self.at_handset(event, stop, place, &HandsetEvent::Delete { entry }),
            Err(_) => {
                self.numbers_its_entries(place);
                self.no_entry(event, stop, place)
            }
        }
    }

    fn discard(
        &mut self,
        event: u64,
        stop: Option<StopPoint>,
        place: usize,
        entry: u64,
    ) -> Result<(), AllocError>
        requires { place < length self.old.parties }
        ensures { (c : PlayState) (party : Party) (act : ActOf) → Represents c self.old → IsFirstAt place party c.parties → is_answered_act act ≡ true
            → OnOk result (Represents (met_as stop event act (AtHandset party (HandsetDiscard entry)) c) self.new) }
    {
        match u32::try_from(entry) {
            Ok(entry) => self.at_handset(event, stop, place, &HandsetEvent::Discard { entry }),
            Err(_) => {
                self.numbers_its_entries(place);
                self.no_entry(event, stop, place)
            }
        }
    }

    fn written(
        &mut self,
        event: u64,
        stop: Option<StopPoint>,
        handset: &[u8],
        to: &[u8],
        report: bool,
        text: &TextWord<'_>,
    ) -> Result<(), PlayFault>
        ensures { (c : PlayState) → Represents c self.old → LeadsTo result self.new (acted stop event (ActWrite handset.now to.now report text.now) c) }
    {
        let Some(place) = self.party(handset) else {
            return Err(PlayFault::NoSuchSide { event });
        };
        or_no_memory(event, self.write(event, stop, place, to, report, text))
    }

    fn deleted(
        &mut self,
        event: u64,
        stop: Option<StopPoint>,
        handset: &[u8],
        entry: u64,
    ) -> Result<(), PlayFault>
        ensures { (c : PlayState) → Represents c self.old → LeadsTo result self.new (acted stop event (ActDelete handset.now entry) c) }
    {
        let Some(place) = self.party(handset) else {
            return Err(PlayFault::NoSuchSide { event });
        };
        or_no_memory(event, self.delete(event, stop, place, entry))
    }

    fn discarded(
        &mut self,
        event: u64,
        stop: Option<StopPoint>,
        handset: &[u8],
        entry: u64,
    ) -> Result<(), PlayFault>
        ensures { (c : PlayState) → Represents c self.old → LeadsTo result self.new (acted stop event (ActDiscard handset.now entry) c) }
    {
        let Some(place) = self.party(handset) else {
            return Err(PlayFault::NoSuchSide { event });
        };
        or_no_memory(event, self.discard(event, stop, place, entry))
    }

    // ---- frames

    fn handed(&self, number: u64) -> Result<Option<Handed>, AllocError>
        ensures { (c : PlayState) → Represents c self.now → IfOk result (λ handed. Hands handed (frame_at_number number c.bag)) }
    {
        match frame_at(number, &self.bag) {
            None => Ok(None),
            Some(frame) => {
                let octets = Octets::copy_of(self.alloc, frame.octets.as_slice())?;
                Ok(Some(Handed {
                    direction: frame.direction,
                    handset: frame.handset,
                    octets,
                    tag: tag_in(frame.carried),
                }))
            }
        }
    }

    // A frame of the handset at that place is handed to the centre.
    fn hand_up(
        &mut self,
        event: u64,
        stop: Option<StopPoint>,
        place: usize,
        handed: &Handed,
    ) -> Result<(), AllocError>
        requires { place < length self.old.parties }
        ensures represents { (c : PlayState) (party : Party) (act : ActOf) → Represents c self.old → IsFirstAt place party c.parties
            → is_answered_act act ≡ false → OnOk result (Represents
            (met_as stop event act (AtCentre (CentreFrame party.number handed.now.octets handed.now.tag)) c) self.new) }
        ensures event { (party : Party) → IsFirstAt place party self.old.parties → IsEvent (CentreFrame party.number handed.now.octets handed.now.tag) }
    {
        let handset = self.number_at(place);
        let happening = CentreEvent::Frame {
            handset,
            octets: OctetView::of(handed.octets.as_slice()),
            tag: handed.tag,
        };
        is_event(&happening);
        self.at_centre(event, stop, false, &happening)
    }

    fn hand_down(
        &mut self,
        event: u64,
        stop: Option<StopPoint>,
        place: usize,
        handed: &Handed,
    ) -> Result<(), AllocError>
        requires { place < length self.old.parties }
        ensures { (c : PlayState) (party : Party) (act : ActOf) → Represents c self.old → IsFirstAt place party c.parties → is_answered_act act ≡ false
            → OnOk result (Represents (met_as stop event act (AtHandset party (HandsetFrame handed.now.octets handed.now.tag)) c) self.new) }
    {
        let happening = HandsetEvent::Frame {
            octets: OctetView::of(handed.octets.as_slice()),
            tag: handed.tag,
        };
        self.at_handset(event, stop, place, &happening)
    }

    fn hand_over(
        &mut self,
        event: u64,
        stop: Option<StopPoint>,
        handed: &Handed,
    ) -> Result<(), PlayFault>
        ensures leads { (c : PlayState) (f : FrameRowOf) (number : ℕ) → Represents c self.old → Among f c.bag → IsFrame handed.now f
            → LeadsTo result self.new (carried_out stop event (ActDeliver number) (handed_over event f.direction f c) c) }
        ensures fit { (c : PlayState) (f : FrameRowOf) → Represents c self.old → Among f c.bag → IsFrame handed.now f
            → OnOk result (IsCentreEvent (handed_over event f.direction f c)) }
    {
        let Some(place) = self.party_of(&handed.handset) else {
            return Err(PlayFault::NoSuchSide { event });
        };
        match handed.direction {
            Direction::Up => or_no_memory(event, self.hand_up(event, stop, place, handed)),
            Direction::Down => or_no_memory(event, self.hand_down(event, stop, place, handed)),
        }
    }

    fn delivered(
        &mut self,
        event: u64,
        stop: Option<StopPoint>,
        number: u64,
    ) -> Result<(), PlayFault>
        ensures leads { (c : PlayState) → Represents c self.old → LeadsTo result self.new (acted stop event (ActDeliver number) c) }
        ensures fit { (c : PlayState) → Represents c self.old → OnOk result (IsCentreEvent (meeting_of event (ActDeliver number) c)) }
    {
        match self.handed(number) {
            Ok(Some(handed)) => self.hand_over(event, stop, &handed),
            Ok(None) => Err(PlayFault::NoSuchFrame { event }),
            Err(_) => Err(PlayFault::NoMemory { event }),
        }
    }

    // ---- time

    fn handset_ticked(
        &mut self,
        event: u64,
        stop: Option<StopPoint>,
        number: &[u8],
        now: Moment,
    ) -> Result<(), PlayFault>
        ensures { (c : PlayState) → Represents c self.old → LeadsTo result self.new (acted stop event (ActTick (SideHandset number.now) now) c) }
    {
        let Some(place) = self.party(number) else {
            return Err(PlayFault::NoSuchSide { event });
        };
        let happening = HandsetEvent::Tick { now };
        or_no_memory(event, self.at_handset(event, stop, place, &happening))
    }

    fn ticked(
        &mut self,
        event: u64,
        stop: Option<StopPoint>,
        side: &EventSide<'_>,
        now: Moment,
    ) -> Result<(), PlayFault>
        ensures leads { (c : PlayState) → Represents c self.old → LeadsTo result self.new (acted stop event (ActTick side.now now) c) }
        ensures fit { (c : PlayState) → IsCentreEvent (meeting_of event (ActTick side.now now) c) }
    {
        match side {
            EventSide::Centre => {
                let happening = CentreEvent::Tick(now);
                is_event(&happening);
                or_no_memory(event, self.at_centre(event, stop, false, &happening))
            }
            EventSide::Handset(number) => self.handset_ticked(event, stop, number.as_slice(), now),
        }
    }

    // ---- every event

    fn act(&mut self, event: u64, stop: Option<StopPoint>, act: &Act<'_>) -> Result<(), PlayFault>
        ensures leads { (c : PlayState) → Represents c self.old → LeadsTo result self.new (acted stop event act.now c) }
        ensures fit { (c : PlayState) → Represents c self.old → OnOk result (IsCentreEvent (meeting_of event act.now c)) }
    {
        match act {
            Act::Submit(submission) => self.submitted(event, stop, submission),
            Act::Query { name, id } => self.queried(event, stop, name.as_slice(), id.as_slice()),
            Act::Cancel { name, id } => self.cancelled(event, stop, name.as_slice(), id.as_slice()),
            Act::Write {
                handset,
                to,
                report,
                text,
            } => self.written(
                event,
                stop,
                handset.as_slice(),
                to.as_slice(),
                *report,
                text,
            ),
            Act::Delete { handset, entry } => {
                self.deleted(event, stop, handset.as_slice(), *entry)
            }
            Act::Discard { handset, entry } => {
                self.discarded(event, stop, handset.as_slice(), *entry)
            }
            Act::Deliver(number) => self.delivered(event, stop, *number),
            Act::Tick { side, now } => self.ticked(event, stop, side, *now),
        }
    }

    fn restart(&mut self, event: u64, side: &EventSide<'_>) -> Result<(), PlayFault>
        ensures { (c : PlayState) → Represents c self.old → LeadsTo result self.new (restart_of event side.now c) }
    {
        match side {
            EventSide::Centre => or_no_memory(event, self.restart_centre()),
            EventSide::Handset(number) => match self.party(number.as_slice()) {
                Some(place) => or_no_memory(event, self.restart_handset(place)),
                None => Err(PlayFault::NoSuchSide { event }),
            },
        }
    }

    /// The event of that number is played.
    pub(crate) fn play(&mut self, number: u64, event: &WorldEvent<'_>) -> Result<(), PlayFault>
        ensures leads { (c : PlayState) → Represents c self.old → LeadsTo result self.new (played number event.now c) }
        // What the centre is told of it is an event.
        ensures fit { (c : PlayState) → Represents c self.old → OnOk result (IsFit number event.now c) }
    {
        match event {
            WorldEvent::Whole(act) => self.act(number, None, act),
            WorldEvent::Stopped(stop, act) => self.act(number, Some(*stop), act),
            WorldEvent::Restart(side) => self.restart(number, side),
        }
    }
}
