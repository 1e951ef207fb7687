//! A run over a script, written as a capture file: what reaches the centre, and what leaves it.
use crate::sessions::{SessionSoFar, absolute_time};
use crate::watching::heads::{Places, act_of};
use crate::watching::since::Since;
use smpp_pdu::{Body, CommandStatus, MessageResp, QuerySmResp};
use sms_base::{MessageId, Moment, OctetView, Octets, Originator};
use sms_centre_rows::messages::MessageRow;
use sms_centre_rows::reports::Delivery;
use sms_play::judging::{Scene, Watcher};
use sms_play::staging::frame_at;
use sms_receipt::{Final, Receipt, message_state, receipt_of};
use sms_script::report::{Answer, Answered, Direction, FrameRow};
use sms_script::requests::{cancel_of, query_of, submit_of};
use sms_script::{Act, Setup, Submission, WorldEvent};
use sms_trace_files::capture::{CapturedFrame, put_file_head, put_frame};
use std::alloc::{AllocError, Global};

/// A capture that is taken while the script is played: of what reaches the centre, and of what leaves it.
#[derive(Drop)]
pub struct Capture {
    alloc: Global,
    places: Places,
    // The latest moment that a side was ticked with.
    moment: Moment,
    // In the order of the script's head.
    sessions: Vec<SessionSoFar>,
    since: Since,
    out: Octets,
}

fn put_frame_row(
    out: &mut Octets,
    places: &Places,
    moment: Moment,
    frame: &FrameRow,
) -> Result<(), AllocError> {
    let octets = frame.octets.as_slice();
    // None is longer (3GPP TS 24.011 8.1.2).
    if octets.len() > 251 {
        return Ok(());
    }
    put_frame(
        out,
        &CapturedFrame {
            moment,
            handset: places.digits(&frame.handset).min(65_535) as u16,
            is_up: frame.direction == Direction::Up,
            octets: OctetView::of(octets),
        },
    )
}

fn status_of(answered: &Answered) -> CommandStatus {
    match answered {
        Answered::Status(status) => *status,
        _ => CommandStatus::ESME_ROK,
    }
}

// What a receipt says of the message, if it ended.
fn end_of(message: &MessageRow) -> Option<Final> {
    let state = message.state?;
    let done = message.done?;
    let message_reference = match &message.originator {
        Originator::Application { .. } => 0,
        Originator::Handset { message_reference } => *message_reference,
    };
    Some(Final {
        id: message.id,
        source: message.source,
        handset: message.handset,
        message_reference,
        submitted: message.submitted,
        done,
        state,
    })
}

impl Capture {
    /// The capture of a script with that head, before its first event.
    pub fn new(alloc: Global, setup: &Setup<'_>, start: Moment) -> Result<Capture, AllocError> {
        let places = Places::of(alloc, setup)?;
        let sessions = sessions_of(alloc, setup.accounts.len())?;
        let mut capture = Capture {
            alloc,
            places,
            moment: start,
            sessions,
            since: Since::nothing(),
            out: Octets::new(alloc),
        };
        put_file_head(&mut capture.out)?;
        Ok(capture)
    }

    /// The capture file of a script that was played to its end.
    pub fn finish(self) -> Octets {
        self.out
    }

    fn ask(&mut self, name: &[u8], body: Body<'_>) -> Result<(), AllocError> {
        let place = self.places.account(name);
        match self.sessions.get_mut(place) {
            Some(session) => session.ask(self.alloc, &mut self.out, self.moment, body),
            None => Ok(()),
        }
    }

    fn answer(
        &mut self,
        name: &[u8],
        status: CommandStatus,
        body: Body<'_>,
    ) -> Result<(), AllocError> {
        let place = self.places.account(name);
        match self.sessions.get_mut(place) {
            Some(session) => {
                session.answer(
                    self.alloc,
                    &mut self.out,
                    self.moment,
                    status.number(),
                    body,
                )
            }
            None => Ok(()),
        }
    }

    fn ask_submit(&mut self, submission: &Submission<'_>) -> Result<(), AllocError> {
        let octets = submission.message.octets(self.alloc)?;
        let message = submit_of(
            submission,
            submission.to.as_slice(),
            submission.validity.as_slice(),
            octets.as_slice(),
        );
        self.ask(submission.name.as_slice(), Body::SubmitSm(message))
    }

    fn take_frame(&mut self, frame: Option<&FrameRow>) -> Result<(), AllocError> {
        match frame {
            Some(frame) if frame.direction == Direction::Up => {
                put_frame_row(&mut self.out, &self.places, self.moment, frame)
            }
            _ => Ok(()),
        }
    }

    // What the centre receives.
    fn take<S: Scene>(&mut self, act: &Act<'_>, scene: &S) -> Result<(), AllocError> {
        match act {
            Act::Submit(submission) => self.ask_submit(submission),
            Act::Query { name, id } => {
                self.ask(name.as_slice(), Body::QuerySm(query_of(id.as_slice())))
            }
            Act::Cancel { name, id } => {
                self.ask(name.as_slice(), Body::CancelSm(cancel_of(id.as_slice())))
            }
            Act::Deliver(number) => self.take_frame(frame_at(*number, scene.bag())),
            Act::Tick { now, .. } => {
                self.moment = self.moment.max(*now);
                Ok(())
            }
            _ => Ok(()),
        }
    }

    fn answer_submit(&mut self, name: &[u8], answered: &Answered) -> Result<(), AllocError> {
        match answered {
            Answered::Accepted(id) => {
                let digits = id.digits();
                let body = MessageResp {
                    message_id: OctetView::of(&digits),
                };
                self.answer(
                    name,
                    CommandStatus::ESME_ROK,
                    Body::SubmitSmResp(Some(body)),
                )
            }
            Answered::Stopped => Ok(()),
            _ => self.answer(name, status_of(answered), Body::SubmitSmResp(None)),
        }
    }

    fn answer_found(
        &mut self,
        name: &[u8],
        id: &[u8],
        message: Option<&MessageRow>,
    ) -> Result<(), AllocError> {
        let state = message.and_then(|message| message.state);
        let done = message.and_then(|message| message.done);
        let final_date = absolute_time(self.alloc, done)?;
        let body = QuerySmResp {
            message_id: OctetView::of(id),
            final_date: OctetView::of(final_date.as_slice()),
            message_state: message_state(state),
            error_code: 0,
        };
        self.answer(name, CommandStatus::ESME_ROK, Body::QuerySmResp(Some(body)))
    }

    fn answer_query<S: Scene>(
        &mut self,
        name: &[u8],
        id: &[u8],
        answered: &Answered,
        scene: &S,
    ) -> Result<(), AllocError> {
        match answered {
            Answered::Found(_) => self.answer_found(name, id, message_of(id, scene)),
            Answered::Stopped => Ok(()),
            _ => self.answer(name, status_of(answered), Body::QuerySmResp(None)),
        }
    }

    fn answer_cancel(&mut self, name: &[u8], answered: &Answered) -> Result<(), AllocError> {
        match answered {
            Answered::Stopped => Ok(()),
            _ => self.answer(name, status_of(answered), Body::CancelSmResp),
        }
    }

    fn put_answer<S: Scene>(
        &mut self,
        act: &Act<'_>,
        answered: &Answered,
        scene: &S,
    ) -> Result<(), AllocError> {
        match act {
            Act::Submit(submission) => self.answer_submit(submission.name.as_slice(), answered),
            Act::Query { name, id } => {
                self.answer_query(name.as_slice(), id.as_slice(), answered, scene)
            }
            Act::Cancel { name, .. } => self.answer_cancel(name.as_slice(), answered),
            _ => Ok(()),
        }
    }

    fn put_answers<S: Scene>(
        &mut self,
        event: &WorldEvent<'_>,
        answers: &[Answer],
        scene: &S,
    ) -> Result<(), AllocError> {
        let Some(act) = act_of(event) else {
            return Ok(());
        };
        for answer in answers {
            self.put_answer(act, &answer.answered, scene)?;
        }
        Ok(())
    }

    fn put_frames(&mut self, frames: &[FrameRow]) -> Result<(), AllocError> {
        for frame in frames {
            if frame.direction == Direction::Down {
                put_frame_row(&mut self.out, &self.places, self.moment, frame)?;
            }
        }
        Ok(())
    }

    fn put_delivered(&mut self, session: usize, receipt: &Receipt) -> Result<(), AllocError> {
        let Some(session) = self.sessions.get_mut(session) else {
            return Ok(());
        };
        let sent = Body::DeliverSm(receipt.message());
        session.deliver(self.alloc, &mut self.out, self.moment, sent)?;
        let accepted = Body::DeliverSmResp(Some(MessageResp {
            message_id: OctetView::of(&[]),
        }));
        session.accept(self.alloc, &mut self.out, self.moment, accepted)
    }

    fn put_receipt(&mut self, session: usize, end: &Final) -> Result<(), AllocError> {
        let receipt = receipt_of(self.alloc, end)?;
        let put = self.put_delivered(session, &receipt);
        drop(receipt);
        put
    }

    fn put_receipts<S: Scene>(
        &mut self,
        deliveries: &[Delivery],
        scene: &S,
    ) -> Result<(), AllocError> {
        for delivery in deliveries {
            if let Some(end) = scene.message(delivery.id).and_then(end_of) {
                self.put_receipt(delivery.session as usize, &end)?;
            }
        }
        Ok(())
    }
}

// The message of that id.
fn message_of<'a, S: Scene>(id: &[u8], scene: &'a S) -> Option<&'a MessageRow> {
    scene.message(MessageId::read(id)?)
}

impl Watcher for Capture {
    fn before<S: Scene>(
        &mut self,
        _number: u64,
        event: &WorldEvent<'_>,
        scene: &S,
    ) -> Result<(), AllocError> {
        self.since = Since::of(scene);
        match act_of(event) {
            Some(act) => self.take(act, scene),
            None => Ok(()),
        }
    }

    fn after<S: Scene>(
        &mut self,
        _number: u64,
        event: &WorldEvent<'_>,
        scene: &S,
    ) -> Result<(), AllocError> {
        let since = self.since;
        self.put_answers(event, since.answers(scene), scene)?;
        self.put_frames(since.frames(scene))?;
        self.put_receipts(since.deliveries(scene), scene)
    }
}

fn sessions_of(alloc: Global, count: usize) -> Result<Vec<SessionSoFar>, AllocError> {
    let mut sessions = Vec::new(alloc);
    for place in 0..count.min(32) {
        sessions.push(SessionSoFar::of(place as u16))?;
    }
    Ok(sessions)
}
