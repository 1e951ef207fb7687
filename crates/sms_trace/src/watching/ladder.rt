//! A run over a script, written as a ladder.
use crate::drawing::notes::{
    Heading, RequestNote, answered_text, event_text, frame_text, put_answered, receipt_answer_text,
    receipt_text, response_text,
};
use crate::drawing::{Row, SentSoFar, Text};
use crate::sessions::SequenceNumbers;
use crate::watching::arriving::{is_owners, row_of, row_of_event};
use crate::watching::heads::act_of;
use crate::watching::lanes::Lanes;
use crate::watching::page::{LadderForm, Page};
use crate::watching::requests::{Request, has_pdu, request_of};
use crate::watching::since::Since;
use sms_base::{FinalState, MessageId, Octets};
use sms_centre_rows::reports::Delivery;
use sms_play::judging::{Scene, Watcher};
use sms_script::report::{Answer, Answered, FrameRow};
use sms_script::{Act, Setup, WorldEvent};
use sms_trace_files::picture::Sign;
use std::alloc::{AllocError, Global};

/// A ladder that is drawn while the script is played, as text or as a picture. It has a lane for each application, for the
/// centre and for each handset.
#[derive(Drop)]
pub struct Ladder {
    alloc: Global,
    lanes: Lanes,
    // The script, from the next event on.
    text: Text,
    since: Since,
    // Of each application's session.
    numbers: Vec<SequenceNumbers>,
    sent: SentSoFar,
    page: Page,
}

// How the message ended.
fn state_of<S: Scene>(scene: &S, id: MessageId) -> Option<FinalState> {
    scene.message(id)?.state
}

impl Ladder {
    /// The ladder of a script with that text and that head, before its first event.
    pub fn new(
        alloc: Global,
        form: LadderForm,
        input: &[u8],
        setup: &Setup<'_>,
    ) -> Result<Ladder, AllocError> {
        let lanes = Lanes::of(alloc, setup)?;
        let text = events_of(alloc, input, setup)?;
        let numbers = numbers_of(alloc, setup.accounts.len())?;
        let page = Page::new(alloc, form, &lanes)?;
        Ok(Ladder {
            alloc,
            lanes,
            text,
            since: Since::nothing(),
            numbers,
            sent: SentSoFar::nothing(alloc),
            page,
        })
    }

    /// The ladder of a script that was played to its end. So many frames were sent; a text lists those at its end that
    /// no event handed over.
    pub fn finish(self, frames: usize) -> Result<Octets, AllocError> {
        let Ladder {
            alloc,
            sent,
            page,
            ..
        } = self;
        let listed = if page.lists_lost() { frames } else { 0 };
        let mut out = page.finish(alloc)?;
        put_lost(alloc, &mut out, &sent, listed)?;
        Ok(out)
    }

    fn put(&mut self, row: &Row, note: &[u8]) -> Result<(), AllocError> {
        self.page.put(row, note)
    }

    // The row of an event; where a frame is handed over, with the frame's number.
    fn put_event_row(
        &mut self,
        event: &WorldEvent<'_>,
        row: &Row,
        note: &[u8],
    ) -> Result<(), AllocError> {
        match (act_of(event), row) {
            (Some(Act::Deliver(number)), Row::Arrow(arrow)) => {
                self.page.put_arrival(*arrow, *number, note)
            }
            _ => self.put(row, note),
        }
    }

    // The lane of the application that asks.
    fn account_of(&self, request: &Request<'_>) -> usize {
        self.lanes.account(request.name)
    }

    // The application in that lane asks: the sequence number of its request.
    fn ask(&mut self, account: usize) -> u32 {
        match self.numbers.get_mut(account) {
            Some(numbers) => numbers.ask(),
            None => 0,
        }
    }

    // The sequence number of its last request.
    fn asked(&self, account: usize) -> u32 {
        self.numbers.get(account).map_or(0, |numbers| numbers.asked)
    }

    // The centre sends it a deliver_sm: the sequence number of that.
    fn deliver(&mut self, account: usize) -> u32 {
        match self.numbers.get_mut(account) {
            Some(numbers) => numbers.deliver(),
            None => 0,
        }
    }

    // The request that the act is, under that sequence number.
    fn asked_as(
        &self,
        act: &Act<'_>,
        request: &Request<'_>,
        sequence: u32,
    ) -> Result<RequestNote, AllocError> {
        let has_pdu = has_pdu(self.alloc, act)?;
        Ok(RequestNote {
            command: request.command,
            sequence,
            has_pdu,
        })
    }

    fn request_heading(
        &mut self,
        act: &Act<'_>,
        request: &Request<'_>,
    ) -> Result<Heading, AllocError> {
        let account = self.account_of(request);
        let sequence = self.ask(account);
        let asked = self.asked_as(act, request, sequence)?;
        Ok(Heading::Request(asked))
    }

    // What is said of an act beside its line, which is noted.
    fn heading_of(&mut self, act: &Act<'_>) -> Result<Heading, AllocError> {
        if let Act::Deliver(number) = act {
            let is_again = self.sent.arrive(*number)?;
            return Ok(if is_again {
                Heading::Again
            } else {
                Heading::None
            });
        }
        match request_of(act) {
            Some(request) => self.request_heading(act, &request),
            None => Ok(Heading::None),
        }
    }

    // The text beside the row of the event of that number.
    fn note_of(&mut self, number: u64, event: &WorldEvent<'_>) -> Result<Octets, AllocError> {
        let heading = match act_of(event) {
            Some(act) => self.heading_of(act)?,
            None => Heading::None,
        };
        let note = event_text(self.alloc, number, &heading, self.text.line())?;
        self.text.skip();
        Ok(note)
    }

    // The answer to an application's request.
    fn answer_note(&self, act: &Act<'_>, answered: &Answered) -> Result<Octets, AllocError> {
        let said = answered_text(self.alloc, answered)?;
        match request_of(act) {
            Some(request) => {
                let sequence = self.asked(self.account_of(&request));
                let asked = self.asked_as(act, &request, sequence)?;
                response_text(self.alloc, &asked, said.as_str())
            }
            None => Octets::copy_of(self.alloc, said.as_bytes()),
        }
    }

    fn put_answer<S: Scene>(
        &mut self,
        act: &Act<'_>,
        answered: &Answered,
        scene: &S,
    ) -> Result<(), AllocError> {
        let Some(row) = row_of(&self.lanes, act, scene) else {
            return Ok(());
        };
        let note = self.answer_note(act, answered)?;
        self.put(&row.answer(), note.as_slice())
    }

    fn put_answers<S: Scene>(
        &mut self,
        act: &Act<'_>,
        answers: &[Answer],
        scene: &S,
    ) -> Result<(), AllocError> {
        for answer in answers {
            self.put_answer(act, &answer.answered, scene)?;
        }
        Ok(())
    }

    // The side stops at the act and starts again: nothing is sent.
    fn put_stop<S: Scene>(&mut self, act: &Act<'_>, scene: &S) -> Result<(), AllocError> {
        match row_of(&self.lanes, act, scene) {
            Some(row) => self.put(
                &Row::Sign(row.end(), Sign::Restart),
                b"stopped, and it starts again",
            ),
            None => Ok(()),
        }
    }

    // An owner's act, and what it is answered.
    fn put_done<S: Scene>(
        &mut self,
        number: u64,
        event: &WorldEvent<'_>,
        scene: &S,
    ) -> Result<(), AllocError> {
        let Some(row) = row_of_event(&self.lanes, event, scene) else {
            return Ok(());
        };
        let mut note = self.note_of(number, event)?;
        for answer in self.since.answers(scene) {
            let said = answered_text(self.alloc, &answer.answered)?;
            put_answered(&mut note, said.as_str())?;
        }
        self.put(&row, note.as_slice())
    }

    fn put_outcome<S: Scene>(
        &mut self,
        event: &WorldEvent<'_>,
        answers: &[Answer],
        scene: &S,
    ) -> Result<(), AllocError> {
        match event {
            WorldEvent::Whole(act) => self.put_answers(act, answers, scene),
            WorldEvent::Stopped(_, act) => self.put_stop(act, scene),
            WorldEvent::Restart(_) => Ok(()),
        }
    }

    fn put_frame(&mut self, frame: &FrameRow) -> Result<(), AllocError> {
        let is_again = self.sent.send(self.lanes.digits(&frame.handset), frame)?;
        let note = frame_text(self.alloc, frame, is_again)?;
        let arrow = self.lanes.way(frame);
        self.page.put_departure(arrow, is_again, note.as_slice())
    }

    fn put_frames(&mut self, frames: &[FrameRow]) -> Result<(), AllocError> {
        for frame in frames {
            self.put_frame(frame)?;
        }
        Ok(())
    }

    // The centre sends the receipt to the application, which accepts it.
    fn put_receipt(
        &mut self,
        account: usize,
        id: MessageId,
        state: Option<FinalState>,
    ) -> Result<(), AllocError> {
        let sequence = self.deliver(account);
        let row = Row::Arrow(self.lanes.answer(account));
        let sent = receipt_text(self.alloc, sequence, id, state)?;
        self.put(&row, sent.as_slice())?;
        let accepted = receipt_answer_text(self.alloc, sequence)?;
        self.put(&row.answer(), accepted.as_slice())
    }

    fn put_receipts<S: Scene>(
        &mut self,
        deliveries: &[Delivery],
        scene: &S,
    ) -> Result<(), AllocError> {
        for delivery in deliveries {
            let state = state_of(scene, delivery.id);
            self.put_receipt(delivery.session as usize, delivery.id, state)?;
        }
        Ok(())
    }
}

fn put_never(alloc: Global, out: &mut Octets, number: u64) -> Result<(), AllocError> {
    let note = format!(in alloc; "frame {number} never arrives\n")?;
    out.append(note.as_bytes())
}

// The frames that no event handed over.
fn put_lost(
    alloc: Global,
    out: &mut Octets,
    sent: &SentSoFar,
    frames: usize,
) -> Result<(), AllocError> {
    for place in 0..frames {
        let number = place as u64 + 1;
        if !sent.has_arrived(number) {
            put_never(alloc, out, number)?;
        }
    }
    Ok(())
}

// Whether the event is an owner's act that is done whole: it is drawn once, when it is answered.
fn is_done_whole(event: &WorldEvent<'_>) -> bool {
    match event {
        WorldEvent::Whole(act) => is_owners(act),
        _ => false,
    }
}

impl Watcher for Ladder {
    // What reaches a side is drawn before it is played.
    fn before<S: Scene>(
        &mut self,
        number: u64,
        event: &WorldEvent<'_>,
        scene: &S,
    ) -> Result<(), AllocError> {
        self.since = Since::of(scene);
        if is_done_whole(event) {
            return Ok(());
        }
        let note = self.note_of(number, event)?;
        match row_of_event(&self.lanes, event, scene) {
            Some(row) => self.put_event_row(event, &row, note.as_slice()),
            None => Ok(()),
        }
    }

    // What is answered and sent is drawn behind it.
    fn after<S: Scene>(
        &mut self,
        number: u64,
        event: &WorldEvent<'_>,
        scene: &S,
    ) -> Result<(), AllocError> {
        let since = self.since;
        if is_done_whole(event) {
            self.put_done(number, event, scene)?;
        } else {
            self.put_outcome(event, since.answers(scene), scene)?;
        }
        self.put_frames(since.frames(scene))?;
        self.put_receipts(since.deliveries(scene), scene)
    }
}

fn numbers_of(alloc: Global, accounts: usize) -> Result<Vec<SequenceNumbers>, AllocError> {
    let mut numbers = Vec::new(alloc);
    for _ in 0..accounts {
        numbers.push(SequenceNumbers::new())?;
    }
    Ok(numbers)
}

// The script from its first event on.
fn events_of(alloc: Global, input: &[u8], setup: &Setup<'_>) -> Result<Text, AllocError> {
    let mut text = Text::of(alloc, input)?;
    for _ in 0..2 {
        text.skip();
    }
    for _ in 0..setup.accounts.len() {
        text.skip();
    }
    for _ in 0..setup.handsets.len() {
        text.skip();
    }
    Ok(text)
}
