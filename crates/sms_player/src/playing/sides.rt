//! What an event of a side leads to.
ghost use Rattle.std.specs.Prelude.{◌≡◌, ◌<◌, ◌++◌, ℕ, length, slice_set, true, Err, IfOk, OnOk, if◌then◌else◌};
ghost use Rattle.sms_centre_spec.specs.CentreEvent.{happened};
ghost use Rattle.sms_centre_spec.specs.Draft.{Draft as DraftOf};
ghost use Rattle.sms_centre_spec.specs.declared.event.CentreEvent.TheVariants.{DeliverAnswered};
ghost use Rattle.sms_handset.specs.FaultCodes.{refusal_code};
ghost use Rattle.sms_handset.specs.declared.event.HandsetEvent.{HandsetEvent as HandsetEventOf};
ghost use Rattle.sms_handset.specs.declared.refusal.Refusal.TheVariants.{NoEntry};
ghost use Rattle.sms_handset_draft.specs.Draft.{Draft as HandsetDraftOf, recovered as handset_recovered};
ghost use Rattle.sms_play.specs.CentreSide.{accepted_after, answered_as as answered_as_of, centre_meets as centre_meets_of, committed, done as done_of};
ghost use Rattle.sms_play.specs.CentreSide.{state_of as state_of_message, with_answer};
ghost use Rattle.sms_play.specs.PlayState.{PlayState, Party, answer as answer_of};
ghost use Rattle.sms_play.specs.HandsetSide.{all_sent as all_sent_up, committed as handset_committed, done as handset_done, handset_meets as handset_meets_of};
ghost use Rattle.sms_play.specs.HandsetSide.{happened as handset_happened, is_owners as is_owners_of};
ghost use Rattle.sms_play.specs.Meeting.{AtCentre, AtHandset, is_answered as is_answered_act};
ghost use Rattle.sms_play.specs.PlayedEvent.{centre_restarted, stored, party_restarted, restarted};
ghost use Rattle.sms_player_handset.specs.Meeting.{Meets};
ghost use Rattle.sms_player.specs.playing.Plays.{Represents};
ghost use Rattle.sms_player.specs.playing.Places.{IsFirstAt};
ghost use Rattle.sms_player.specs.playing.Playing.{MeetsAs, GivesOutputs, met_as};
ghost use Rattle.sms_script.specs.declared.report.answers.Answered.TheVariants.{Done as AnsweredDone, Refused as AnsweredRefused, Stopped as AnsweredStopped};
ghost use Rattle.sms_script.specs.declared.event.Act.{Act as ActOf};

use crate::centre::{CentreAnswer, CentreEvent, HandsetOutcome, Outputs, PlayedHandset};
use crate::playing::Playing;
use crate::playing::frames::{send_down, send_up};
use smpp_pdu::CommandStatus;
use sms_base::{Digits, FinalState, Listed, OctetView};
use sms_centre_rows::reports::Delivery;
use sms_handset::{HandsetEvent, Refusal};
use sms_link::Outgoing;
use sms_script::StopPoint;
use sms_script::report::{Answered, GivenRow, MessageState};
use std::alloc::AllocError;

// What the centre told beside its frames.
#[derive(Drop)]
struct Heard {
    answer: Option<CentreAnswer>,
    deliveries: Listed<Delivery>,
}

fn state_of(state: Option<FinalState>) -> MessageState
    ensures { result ≡ state_of_message state }
{
    match state {
        None => MessageState::Enroute,
        Some(state) => MessageState::Final(state),
    }
}

fn answered_as(answer: CentreAnswer) -> Answered
    ensures { result ≡ answered_as_of answer }
{
    match answer {
        CentreAnswer::Submitted(id) => Answered::Accepted(id),
        CentreAnswer::Queried { state, .. } => Answered::Found(state_of(state)),
        CentreAnswer::Cancelled => Answered::Status(CommandStatus::ESME_ROK),
        CentreAnswer::Refused(status) => Answered::Status(status),
    }
}

fn is_owners(event: &HandsetEvent<'_>) -> bool
    ensures { result ≡ is_owners_of event.now }
{
    match event {
        HandsetEvent::Frame { .. } => false,
        HandsetEvent::Tick { .. } => false,
        HandsetEvent::Write { .. } => true,
        HandsetEvent::Delete { .. } => true,
        HandsetEvent::Discard { .. } => true,
    }
}

fn refused_as(refusal: Refusal) -> Answered
    ensures { result ≡ AnsweredRefused (refusal_code refusal) }
{
    Answered::Refused(OctetView::of(refusal.code().as_bytes()))
}

fn append(waiting: &mut Vec<Delivery>, more: &[Delivery]) -> Result<(), AllocError>
    ensures { OnOk result (waiting.new.items ≡ waiting.old.items ++ more.now) }
{
    for delivery in more {
        waiting.push(*delivery)?;
    }
    Ok(())
}

// The handset at that place meets an event.
fn meet_at(
    parties: &mut [PlayedHandset],
    place: usize,
    happening: &HandsetEvent<'_>,
    given: &mut Listed<GivenRow>,
) -> Result<HandsetOutcome, AllocError>
    requires { place < length parties.old }
    ensures length { length parties.new ≡ length parties.old }
    ensures meets { (party : Party) → IsFirstAt place party parties.old → (now : Party)
        × ((parties.new ≡ slice_set parties.old place now) × Meets result party now given.old given.new (handset_happened happening.now party.core)) }
{
    parties[place].meet(happening, given)
}

// The handset at that place starts again on its rows.
fn restart_at(parties: &mut [PlayedHandset], place: usize) -> Result<(), AllocError>
    requires { place < length parties.old }
    ensures length { length parties.new ≡ length parties.old }
    ensures again { (party : Party) → IsFirstAt place party parties.old → (now : Party)
        × ((parties.new ≡ slice_set parties.old place now) × OnOk result (now ≡ record party { core = handset_recovered party.core.rows })) }
{
    parties[place].restart()
}

impl<'a> Playing<'a> {
    // ---- the centre

    // The frames of the centre go out.
    fn send(&mut self, outputs: Outputs) -> Result<Heard, AllocError>
        ensures represents { (c : PlayState) (d : DraftOf) → Represents (committed d c) self.old → outputs.frames ≡ d.links.frames
            → OnOk result (Represents (done_of d c) self.new) }
        ensures deliveries { IfOk result (λ heard. heard.deliveries ≡ outputs.deliveries) }
        ensures answer { IfOk result (λ heard. heard.answer ≡ outputs.answer) }
    {
        let Outputs {
            frames,
            answer,
            deliveries,
        } = outputs;
        send_down(frames, &mut self.bag)?;
        Ok(Heard { answer, deliveries })
    }

    // The centre meets an event, and its rows change; its frames are to go out.
    fn commit_centre(&mut self, happening: &CentreEvent<'_>) -> Result<Outputs, AllocError>
        ensures represents { (c : PlayState) → Represents c self.old → OnOk result (Represents (committed (happened happening.now c.centre) c) self.new) }
        ensures outputs { (c : PlayState) → Represents c self.old
            → IfOk result (λ outputs. GivesOutputs (happened happening.now c.centre) outputs.frames outputs.answer outputs.deliveries) }
    {
        let outputs = self.centre.meet(happening, &mut self.given)?;
        Ok(outputs)
    }

    // The same, and its frames go out.
    fn hear(&mut self, happening: &CentreEvent<'_>) -> Result<Heard, AllocError>
        ensures represents { (c : PlayState) → Represents c self.old → OnOk result (Represents (done_of (happened happening.now c.centre) c) self.new) }
        ensures deliveries { (c : PlayState) → Represents c self.old
            → IfOk result (λ heard. heard.deliveries ≡ (happened happening.now c.centre).bindings.deliveries) }
        ensures answer { (c : PlayState) → Represents c self.old → IfOk result (λ heard. heard.answer ≡ (happened happening.now c.centre).answer) }
    {
        let outputs = self.commit_centre(happening)?;
        let heard = self.send(outputs)?;
        Ok(heard)
    }

    // The application accepts the receipt at once. Gives the receipts that this lets go.
    fn accept(&mut self, delivery: Delivery) -> Result<Listed<Delivery>, AllocError>
        ensures represents { (c : PlayState) → Represents c self.old
            → OnOk result (Represents (done_of (happened (DeliverAnswered delivery.session delivery.id true) c.centre) c) self.new) }
        ensures more { (c : PlayState) → Represents c self.old
            → IfOk result (λ more. more ≡ (happened (DeliverAnswered delivery.session delivery.id true) c.centre).bindings.deliveries) }
    {
        let event = CentreEvent::DeliverAnswered {
            session: delivery.session,
            id: delivery.id,
            is_accepted: true,
        };
        self.delivered.push(delivery)?;
        let heard = self.hear(&event)?;
        Ok(heard.deliveries)
    }

    // Receipts are accepted one after another, as many as there are at most.
    fn accept_all(&mut self, deliveries: Listed<Delivery>) -> Result<(), AllocError>
        ensures { (c : PlayState) (d : DraftOf) → Represents c self.old
            → OnOk result (Represents (accepted_after d (length c.centre.rows.reports) deliveries c) self.new) }
    {
        let mut waiting = deliveries.into_vec();
        let most = self.centre.count_reports();
        for place in 0..most {
            if place >= waiting.len() {
                return Ok(());
            }
            let more = self.accept(waiting[place])?;
            append(&mut waiting, more.as_slice())?;
        }
        Ok(())
    }

    fn put_answer(&mut self, event: u64, answer: Option<CentreAnswer>) -> Result<(), AllocError>
        ensures { (c : PlayState) → Represents c self.old → OnOk result (Represents (with_answer event answer c) self.new) }
    {
        match answer {
            Some(answer) => self.answer(event, answered_as(answer)),
            None => Ok(()),
        }
    }

    // The centre meets an event, and nothing stops it.
    fn centre_meets(&mut self, event: u64, happening: &CentreEvent<'_>) -> Result<(), AllocError>
        ensures { (c : PlayState) → Represents c self.old → OnOk result (Represents (centre_meets_of event happening.now c) self.new) }
    {
        let heard = self.hear(happening)?;
        let Heard { answer, deliveries } = heard;
        self.accept_all(deliveries)?;
        self.put_answer(event, answer)
    }

    /// The centre starts again on its rows.
    pub(crate) fn restart_centre(&mut self) -> Result<(), AllocError>
        ensures { (c : PlayState) → Represents c self.old → OnOk result (Represents (centre_restarted c) self.new) }
    {
        self.centre.restart()
    }

    // The centre is stopped at an event, and starts again.
    fn stop_centre(
        &mut self,
        stop: StopPoint,
        happening: &CentreEvent<'_>,
    ) -> Result<(), AllocError>
        ensures { (c : PlayState) → Represents c self.old → OnOk result (Represents (centre_restarted (stored stop (AtCentre happening.now) c)) self.new) }
    {
        match stop {
            StopPoint::Before => self.restart_centre(),
            StopPoint::After => {
                self.commit_centre(happening)?;
                self.restart_centre()
            }
        }
    }

    fn answer_stop(&mut self, event: u64, is_answered: bool) -> Result<(), AllocError>
        ensures { (c : PlayState) → Represents c self.old → OnOk result (Represents (if is_answered then answer_of event AnsweredStopped c else c) self.new) }
    {
        if is_answered {
            self.answer(event, Answered::Stopped)
        } else {
            Ok(())
        }
    }

    /// The centre meets an event, or is stopped at it.
    pub(crate) fn at_centre(
        &mut self,
        event: u64,
        stop: Option<StopPoint>,
        is_answered: bool,
        happening: &CentreEvent<'_>,
    ) -> Result<(), AllocError>
        ensures { (c : PlayState) (act : ActOf) → Represents c self.old → is_answered_act act ≡ is_answered
            → OnOk result (Represents (met_as stop event act (AtCentre happening.now) c) self.new) }
    {
        match stop {
            None => self.centre_meets(event, happening),
            Some(stop) => {
                self.stop_centre(stop, happening)?;
                self.answer_stop(event, is_answered)
            }
        }
    }

    // ---- handsets

    // The handset at that place meets an event; its frames are to go out.
    fn commit_handset(
        &mut self,
        place: usize,
        happening: &HandsetEvent<'_>,
    ) -> Result<HandsetOutcome, AllocError>
        requires { place < length self.old.parties }
        ensures as_many { length self.new.parties ≡ length self.old.parties }
        ensures meets { (c : PlayState) (party : Party) → Represents c self.old → IsFirstAt place party c.parties
            → IfOk result (λ met. MeetsAs met party c self.new (handset_happened happening.now party.core)) }
    {
        meet_at(self.parties, place, happening, &mut self.given)
    }

    /// The handset at that place starts again on its rows.
    pub(crate) fn restart_handset(&mut self, place: usize) -> Result<(), AllocError>
        requires { place < length self.old.parties }
        ensures { (c : PlayState) (party : Party) → Represents c self.old → IsFirstAt place party c.parties
            → OnOk result (Represents (party_restarted party c) self.new) }
    {
        restart_at(self.parties, place)
    }

    // Its frames go out.
    fn sent_up(&mut self, number: Digits, frames: Listed<Outgoing>) -> Result<(), AllocError>
        ensures { OnOk result (self.new ≡ record self.old { bag = all_sent_up number frames self.old.bag }) }
    {
        send_up(number, frames, &mut self.bag)
    }

    // Its frames go out, and the act of its owner is done.
    fn done(
        &mut self,
        event: u64,
        number: Digits,
        frames: Listed<Outgoing>,
        is_owners: bool,
    ) -> Result<(), AllocError>
        ensures { (c : PlayState) (party : Party) (d : HandsetDraftOf) (place : ℕ) → IsFirstAt place party c.parties
            → Represents (handset_committed party d c) self.old → number ≡ party.number → frames ≡ d.frames
            → OnOk result (Represents (if is_owners then answer_of event AnsweredDone (handset_done party d c) else handset_done party d c) self.new) }
    {
        self.sent_up(number, frames)?;
        if is_owners {
            self.answer(event, Answered::Done)
        } else {
            Ok(())
        }
    }

    fn handset_meets(
        &mut self,
        event: u64,
        place: usize,
        happening: &HandsetEvent<'_>,
    ) -> Result<(), AllocError>
        requires { place < length self.old.parties }
        ensures { (c : PlayState) (party : Party) → Represents c self.old → IsFirstAt place party c.parties
            → OnOk result (Represents (handset_meets_of event party happening.now c) self.new) }
    {
        let number = self.number_at(place).digits();
        let met = self.commit_handset(place, happening)?;
        match met {
            HandsetOutcome::Done(frames) => self.done(event, number, frames, is_owners(happening)),
            HandsetOutcome::Refused(refusal) => self.answer(event, refused_as(refusal)),
        }
    }

    fn stop_handset(
        &mut self,
        place: usize,
        stop: StopPoint,
        happening: &HandsetEvent<'_>,
    ) -> Result<(), AllocError>
        requires { place < length self.old.parties }
        ensures { (c : PlayState) (party : Party) → Represents c self.old → IsFirstAt place party c.parties
            → OnOk result (Represents (restarted (AtHandset party happening.now) (stored stop (AtHandset party happening.now) c)) self.new) }
    {
        match stop {
            StopPoint::Before => self.restart_handset(place),
            StopPoint::After => {
                self.commit_handset(place, happening)?;
                self.restart_handset(place)
            }
        }
    }

    /// The handset at that place meets an event, or is stopped at it.
    pub(crate) fn at_handset(
        &mut self,
        event: u64,
        stop: Option<StopPoint>,
        place: usize,
        happening: &HandsetEvent<'_>,
    ) -> Result<(), AllocError>
        requires { place < length self.old.parties }
        ensures { (c : PlayState) (party : Party) (act : ActOf) → Represents c self.old → IsFirstAt place party c.parties
            → is_answered_act act ≡ is_owners_of happening.now → OnOk result (Represents (met_as stop event act (AtHandset party happening.now) c) self.new) }
    {
        match stop {
            None => self.handset_meets(event, place, happening),
            Some(stop) => {
                self.stop_handset(place, stop, happening)?;
                self.answer_stop(event, is_owners(happening))
            }
        }
    }

    /// The owner's act names an entry by a number that none can have.
    pub(crate) fn no_entry(
        &mut self,
        event: u64,
        stop: Option<StopPoint>,
        place: usize,
    ) -> Result<(), AllocError>
        requires { place < length self.old.parties }
        ensures { (c : PlayState) (party : Party) (act : ActOf) (e : HandsetEventOf) → Represents c self.old → IsFirstAt place party c.parties
            → is_answered_act act ≡ true → is_owners_of e ≡ true → handset_happened e party.core ≡ Err NoEntry
            → OnOk result (Represents (met_as stop event act (AtHandset party e) c) self.new) }
    {
        match stop {
            None => self.answer(event, refused_as(Refusal::NoEntry)),
            Some(_) => {
                self.restart_handset(place)?;
                self.answer(event, Answered::Stopped)
            }
        }
    }
}
